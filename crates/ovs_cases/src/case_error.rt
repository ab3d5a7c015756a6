//! Why a case has no answer.

use ovs_case_lines::LineError;
use ovs_reader::ShownError;
use ovs_types::NoMemory;
use std::alloc::AllocError;
use thiserror::Error;

#[derive(Clone, Copy, Debug, Error)]
pub(crate) enum CaseError {
    /// The line can't be read.
    #[error(transparent)]
    Line(#[from] LineError),
    /// The line is no case.
    #[error("no such case")]
    Malformed,
    /// No link has such ids.
    #[error("bad-id")]
    BadId,
    /// What is shown begins anew.
    #[error("epoch")]
    Epoch,
    /// Memory ran out.
    #[error("no memory")]
    NoMemory(#[from] NoMemory),
    /// A growth was refused.
    #[error("no memory")]
    Ungrown(#[from(alloc)] AllocError),
    /// Memory ran out within the call that the case asks for.
    #[error("no memory")]
    Refused,
    /// It ran out within a call, and what the call says then isn't so.
    #[error("changed for want of memory")]
    Changed,
}

/// What a call answered that can fail by memory alone.
pub(crate) fn called<T>(answer: Result<T, NoMemory>) -> Result<T, CaseError> {
    match answer {
        Ok(answer) => Ok(answer),
        Err(NoMemory) => Err(CaseError::Refused),
    }
}

/// Whether memory ran out within the call that was asked for.
pub(crate) fn is_refused<T>(answer: &Result<T, CaseError>) -> bool {
    matches!(answer, Err(CaseError::Refused))
}

/// What is so where memory ran out within a call.
pub(crate) fn is_so(holds: bool) -> Result<(), CaseError> {
    if holds {
        Ok(())
    } else {
        Err(CaseError::Changed)
    }
}

impl From<ShownError> for CaseError {
    fn from(error: ShownError) -> CaseError {
        match error {
            ShownError::Epoch => CaseError::Epoch,
            ShownError::NoMemory => CaseError::Refused,
        }
    }
}
