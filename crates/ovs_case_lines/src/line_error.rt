//! Why a line has no answer.

use ovs_json::NoMemory;
use std::alloc::{AllocError, AllocFailed};
use thiserror::Error;

/// Why a line has no answer, whatever it asks.
#[derive(Clone, Copy, Debug, PartialEq, Eq, Error)]
pub enum LineError {
    /// The line is no case: it isn't JSON, or asks for nothing that is known.
    #[error("no such case")]
    Malformed,
    /// Memory ran out.
    #[error("no memory")]
    NoMemory,
}

impl From<NoMemory> for LineError {
    fn from(_error: NoMemory) -> LineError {
        LineError::NoMemory
    }
}

impl From<AllocError> for LineError {
    fn from(_error: AllocError) -> LineError {
        LineError::NoMemory
    }
}

impl<T: Drop> From<AllocFailed<T>> for LineError {
    fn from(_error: AllocFailed<T>) -> LineError {
        LineError::NoMemory
    }
}

impl From<serde_json::Error> for LineError {
    fn from(error: serde_json::Error) -> LineError {
        if error.is_memory() {
            LineError::NoMemory
        } else {
            LineError::Malformed
        }
    }
}
