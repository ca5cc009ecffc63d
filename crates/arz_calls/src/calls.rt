// The calls that cases name.
use crate::{descriptions, operations, styles};
use arz_cases::{Case, CaseFault, Outcome};
use arz_device_calls::DeviceCall;
use std::alloc::Global;

/// What a case calls.
#[derive(Clone, Copy, Debug, PartialEq, Eq)]
pub enum LibraryCall {
    Description,
    Form,
    OpenApi,
    Operation,
    Style,
    /// A call of `arz_device_calls`.
    Device(DeviceCall),
}

impl LibraryCall {
    /// The call with this name.
    pub fn named(name: &str) -> Option<LibraryCall> {
        Some(match name {
            "description" => LibraryCall::Description,
            "form" => LibraryCall::Form,
            "openapi" => LibraryCall::OpenApi,
            "operation" => LibraryCall::Operation,
            "style" => LibraryCall::Style,
            _ => LibraryCall::Device(DeviceCall::named(name)?),
        })
    }

    /// What the call comes to over what the case describes.
    pub fn outcome(self, alloc: Global, case: &Case<'_>) -> Result<Outcome, CaseFault> {
        match self {
            LibraryCall::Description => descriptions::description(alloc, case),
            LibraryCall::Form => styles::form(alloc, case),
            LibraryCall::OpenApi => operations::openapi(alloc, case),
            LibraryCall::Operation => operations::operation(alloc, case),
            LibraryCall::Style => styles::style(alloc, case),
            LibraryCall::Device(call) => call.outcome(alloc, case),
        }
    }
}
