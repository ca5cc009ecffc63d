// The calls that cases name.
use crate::{builds, criteria};
use arz_cases::{Case, CaseFault, Outcome};
use std::alloc::Global;

/// What a case calls.
#[derive(Clone, Copy, Debug, PartialEq, Eq)]
pub enum StepCall {
    Build,
    Criterion,
}

impl StepCall {
    /// The call with this name.
    pub fn named(name: &str) -> Option<StepCall> {
        Some(match name {
            "build" => StepCall::Build,
            "criterion" => StepCall::Criterion,
            _ => return None,
        })
    }

    /// What the call comes to over what the case describes.
    pub fn outcome(self, alloc: Global, case: &Case<'_>) -> Result<Outcome, CaseFault> {
        match self {
            StepCall::Build => builds::build(alloc, case),
            StepCall::Criterion => criteria::criterion(alloc, case),
        }
    }
}
