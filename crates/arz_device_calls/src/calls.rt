// The calls that cases name.
use crate::{conversations, journals, replies, requests, wires};
use arz_cases::{Case, CaseFault, Outcome};
use std::alloc::Global;

/// What a case calls.
#[derive(Clone, Copy, Debug, PartialEq, Eq)]
pub enum DeviceCall {
    Converse,
    Decode,
    Journal,
    Reply,
    RequestBytes,
    Unwire,
    WholeReply,
    Wire,
}

impl DeviceCall {
    /// The call with this name.
    pub fn named(name: &str) -> Option<DeviceCall> {
        Some(match name {
            "converse" => DeviceCall::Converse,
            "decode" => DeviceCall::Decode,
            "journal" => DeviceCall::Journal,
            "reply" => DeviceCall::Reply,
            "request_bytes" => DeviceCall::RequestBytes,
            "unwire" => DeviceCall::Unwire,
            "whole_reply" => DeviceCall::WholeReply,
            "wire" => DeviceCall::Wire,
            _ => return None,
        })
    }

    /// What the call comes to over what the case describes.
    pub fn outcome(self, alloc: Global, case: &Case<'_>) -> Result<Outcome, CaseFault> {
        match self {
            DeviceCall::Converse => conversations::conversation(alloc, case),
            DeviceCall::Decode => wires::decode(alloc, case),
            DeviceCall::Journal => journals::journal(alloc, case),
            DeviceCall::Reply => replies::reply(alloc, case),
            DeviceCall::RequestBytes => requests::request_bytes(alloc, case),
            DeviceCall::Unwire => wires::unwire(alloc, case),
            DeviceCall::WholeReply => replies::whole_reply(alloc, case),
            DeviceCall::Wire => wires::wire(alloc, case),
        }
    }
}
