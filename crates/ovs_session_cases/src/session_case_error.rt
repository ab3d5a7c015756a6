//! Why a line has no answer.

use ovs_case_lines::LineError;
use ovs_node::NodeError;
use ovs_types::NoMemory;
use std::alloc::AllocError;
use thiserror::Error;

#[derive(Clone, Copy, Debug, Error)]
pub(crate) enum SessionCaseError {
    /// The line can't be read.
    #[error(transparent)]
    Line(#[from] LineError),
    /// The line asks for nothing that is known here.
    #[error("no such case")]
    Malformed,
    /// The relay's node has no view to read by.
    #[error("no view")]
    NoView,
    /// The relay has no node.
    #[error(transparent)]
    Node(#[from] NodeError),
    /// What was answered isn't of the protocol.
    #[error("not of the protocol")]
    Garbled,
    /// A device was called so often that its calls can't be tried in turn.
    #[error("too many calls")]
    Endless,
    /// Memory ran out.
    #[error("no memory")]
    NoMemory(#[from] NoMemory),
    /// A growth was refused.
    #[error("no memory")]
    Refused(#[from(alloc)] AllocError),
}
