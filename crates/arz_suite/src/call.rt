// The calls that cases name.
use crate::top;
use arz_calls::LibraryCall;
use arz_cases::{Case, CaseFault, Outcome};
use arz_query_calls::QueryCall;
use arz_run_calls::RunCall;
use arz_step_calls::StepCall;
use arz_tree_calls::TreeCall;
use std::alloc::Global;

/// What a case calls.
#[derive(Clone, Copy, Debug, PartialEq, Eq)]
pub enum Call {
    /// The top call.
    Words,
    /// A call of `arz_tree_calls`.
    Tree(TreeCall),
    /// A call of `arz_query_calls`.
    Query(QueryCall),
    /// A call of `arz_run_calls`.
    Run(RunCall),
    /// A call of `arz_step_calls`.
    Step(StepCall),
    /// A call of `arz_calls`.
    Library(LibraryCall),
}

impl Call {
    /// The call with this name.
    pub fn named(name: &str) -> Option<Call> {
        if name == "words" {
            return Some(Call::Words);
        }
        if let Some(call) = TreeCall::named(name) {
            return Some(Call::Tree(call));
        }
        if let Some(call) = QueryCall::named(name) {
            return Some(Call::Query(call));
        }
        if let Some(call) = RunCall::named(name) {
            return Some(Call::Run(call));
        }
        if let Some(call) = StepCall::named(name) {
            return Some(Call::Step(call));
        }
        Some(Call::Library(LibraryCall::named(name)?))
    }

    /// What the call comes to over what the case describes.
    pub fn outcome(self, alloc: Global, case: &Case<'_>) -> Result<Outcome, CaseFault> {
        match self {
            Call::Words => top::words(alloc, case),
            Call::Tree(call) => call.outcome(alloc, case),
            Call::Query(call) => call.outcome(alloc, case),
            Call::Run(call) => call.outcome(alloc, case),
            Call::Step(call) => call.outcome(alloc, case),
            Call::Library(call) => call.outcome(alloc, case),
        }
    }
}
