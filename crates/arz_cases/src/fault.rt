// Why a case can't be tried.
use arz_json::JsonFault;
use std::alloc::{AllocError, AllocFailed};
use thiserror::Error;

/// Why a case can't be tried.
#[derive(Clone, Copy, Debug, PartialEq, Eq, Error)]
pub enum CaseFault {
    /// What the case lacks, or what of it has another form.
    #[error("malformed: {0}")]
    Malformed(&'static str),
    /// Memory ran out.
    #[error("out of memory")]
    Memory,
}

impl From<AllocError> for CaseFault {
    fn from(_: AllocError) -> CaseFault {
        CaseFault::Memory
    }
}

impl<T: Drop> From<AllocFailed<T>> for CaseFault {
    fn from(_: AllocFailed<T>) -> CaseFault {
        CaseFault::Memory
    }
}

impl From<JsonFault> for CaseFault {
    fn from(fault: JsonFault) -> CaseFault {
        match fault {
            JsonFault::Memory => CaseFault::Memory,
            JsonFault::TooLarge | JsonFault::NotJson => CaseFault::Malformed("a JSON text"),
        }
    }
}
