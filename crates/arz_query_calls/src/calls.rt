// The calls that cases name.
use crate::{overlays, patterns, queries};
use arz_cases::{Case, CaseFault, Outcome};
use std::alloc::Global;

/// What a case calls.
#[derive(Clone, Copy, Debug, PartialEq, Eq)]
pub enum QueryCall {
    Any,
    Compare,
    Count,
    Found,
    IRegexp,
    Overlay,
    Path,
    Search,
}

impl QueryCall {
    /// The call with this name.
    pub fn named(name: &str) -> Option<QueryCall> {
        Some(match name {
            "any" => QueryCall::Any,
            "compare" => QueryCall::Compare,
            "count" => QueryCall::Count,
            "found" => QueryCall::Found,
            "iregexp" => QueryCall::IRegexp,
            "overlay" => QueryCall::Overlay,
            "path" => QueryCall::Path,
            "search" => QueryCall::Search,
            _ => return None,
        })
    }

    /// What the call comes to over what the case describes.
    pub fn outcome(self, alloc: Global, case: &Case<'_>) -> Result<Outcome, CaseFault> {
        match self {
            QueryCall::Any => queries::any(alloc, case),
            QueryCall::Compare => queries::compare(alloc, case),
            QueryCall::Count => queries::count(alloc, case),
            QueryCall::Found => queries::found(alloc, case),
            QueryCall::IRegexp => patterns::iregexp(alloc, case),
            QueryCall::Overlay => overlays::overlay(alloc, case),
            QueryCall::Path => queries::path(alloc, case),
            QueryCall::Search => patterns::search(alloc, case),
        }
    }
}
