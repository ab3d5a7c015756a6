//! Why a line has no answer.

use ovs_case_lines::LineError;
use ovs_node::NodeError;
use ovs_node_threads::RunError;
use ovs_types::NoMemory;
use std::alloc::AllocError;
use thiserror::Error;

#[derive(Clone, Copy, Debug, Error)]
pub(crate) enum StreamCaseError {
    /// The line can't be read.
    #[error(transparent)]
    Line(#[from] LineError),
    /// The line asks for nothing that is known here.
    #[error("no such case")]
    Malformed,
    /// The links are none of a history.
    #[error("no history")]
    NoHistory,
    /// A message is above the limits of one.
    #[error("too large")]
    TooLarge,
    /// The relay has no node.
    #[error(transparent)]
    Node(#[from] NodeError),
    /// The relay wasn't run to its end.
    #[error("not run")]
    NotRun,
    /// Its threads weren't.
    #[error(transparent)]
    Run(#[from] RunError),
    /// Memory ran out.
    #[error("no memory")]
    NoMemory(#[from] NoMemory),
    /// A growth was refused.
    #[error("no memory")]
    Refused(#[from(alloc)] AllocError),
}
