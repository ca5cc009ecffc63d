// The calls that cases name.
use crate::{messages, outside, retries};
use arz_cases::{Case, CaseFault, Outcome};
use std::alloc::Global;

/// What a case calls.
#[derive(Clone, Copy, Debug, PartialEq, Eq)]
pub enum RunCall {
    Delay,
    Notes,
    Outputs,
    Puts,
    Reads,
    Retries,
    Scope,
    Wait,
}

impl RunCall {
    /// The call with this name.
    pub fn named(name: &str) -> Option<RunCall> {
        Some(match name {
            "delay" => RunCall::Delay,
            "notes" => RunCall::Notes,
            "outputs" => RunCall::Outputs,
            "puts" => RunCall::Puts,
            "reads" => RunCall::Reads,
            "retries" => RunCall::Retries,
            "scope" => RunCall::Scope,
            "wait" => RunCall::Wait,
            _ => return None,
        })
    }

    /// What the call comes to over what the case describes.
    pub fn outcome(self, alloc: Global, case: &Case<'_>) -> Result<Outcome, CaseFault> {
        match self {
            RunCall::Delay => retries::delay(alloc, case),
            RunCall::Notes => outside::notes(alloc, case),
            RunCall::Outputs => messages::outputs(alloc, case),
            RunCall::Puts => outside::puts(alloc, case),
            RunCall::Reads => outside::reads(alloc, case),
            RunCall::Retries => retries::retries(alloc, case),
            RunCall::Scope => messages::scope(alloc, case),
            RunCall::Wait => messages::wait(alloc, case),
        }
    }
}
