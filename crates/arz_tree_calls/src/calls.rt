// The calls that cases name.
use crate::{expressions, trees};
use arz_cases::{Case, CaseFault, Outcome};
use std::alloc::Global;

/// What a case calls.
#[derive(Clone, Copy, Debug, PartialEq, Eq)]
pub enum TreeCall {
    At,
    Copy,
    Deeper,
    Expression,
    Fill,
    Get,
    Json,
    Put,
    Same,
    Types,
    Value,
}

impl TreeCall {
    /// The call with this name.
    pub fn named(name: &str) -> Option<TreeCall> {
        Some(match name {
            "at" => TreeCall::At,
            "copy" => TreeCall::Copy,
            "deeper" => TreeCall::Deeper,
            "expression" => TreeCall::Expression,
            "fill" => TreeCall::Fill,
            "get" => TreeCall::Get,
            "json" => TreeCall::Json,
            "put" => TreeCall::Put,
            "same" => TreeCall::Same,
            "types" => TreeCall::Types,
            "value" => TreeCall::Value,
            _ => return None,
        })
    }

    /// What the call comes to over what the case describes.
    pub fn outcome(self, alloc: Global, case: &Case<'_>) -> Result<Outcome, CaseFault> {
        match self {
            TreeCall::At => trees::at(alloc, case),
            TreeCall::Copy => trees::copied(alloc, case),
            TreeCall::Deeper => trees::deeper(alloc, case),
            TreeCall::Expression => expressions::expression(alloc, case),
            TreeCall::Fill => expressions::fill(alloc, case),
            TreeCall::Get => trees::get(alloc, case),
            TreeCall::Json => trees::json(alloc, case),
            TreeCall::Put => trees::put(alloc, case),
            TreeCall::Same => trees::same(alloc, case),
            TreeCall::Types => trees::types(alloc, case),
            TreeCall::Value => expressions::value(alloc, case),
        }
    }
}
