//! Why a line has no answer.

use ovs_case_lines::LineError;
use ovs_node::{Gone, NodeError, ViewError};
use ovs_node_threads::RunError;
use ovs_server::ServerError;
use ovs_types::NoMemory;
use std::alloc::AllocError;
use std::io;
use thiserror::Error;

#[derive(Clone, Copy, Debug, Error)]
pub(crate) enum NodeCaseError {
    /// The line can't be read.
    #[error(transparent)]
    Line(#[from] LineError),
    /// The line asks for nothing that is known here.
    #[error("no such case")]
    Malformed,
    /// A node isn't made of so many parts.
    #[error("bad count")]
    BadCount,
    /// A view has no place.
    #[error("no view")]
    NoView,
    /// There is nothing to read by a view.
    #[error(transparent)]
    Gone(#[from] Gone),
    /// A view gives no answer.
    #[error(transparent)]
    View(#[from] ViewError),
    /// What an end waited for didn't come, or a link wasn't sent.
    #[error("not sent")]
    Unsent,
    /// An end didn't come back, or what it sent wasn't taken.
    #[error("not drained")]
    NotDrained,
    /// The node's threads couldn't be run to their ends.
    #[error(transparent)]
    NotRun(#[from] RunError),
    /// The system refuses what a node over sockets needs.
    #[error("no sockets")]
    System,
    /// A client's connection failed, or a node closed it.
    #[error("no connection")]
    Disconnected,
    /// What a node answered isn't of the protocol.
    #[error("not of the protocol")]
    Garbled,
    /// What a client waited for was never shown.
    #[error("not shown")]
    NotShown,
    /// Memory ran out.
    #[error("no memory")]
    NoMemory(#[from] NoMemory),
    /// A growth was refused.
    #[error("no memory")]
    Refused(#[from(alloc)] AllocError),
}

impl From<NodeError> for NodeCaseError {
    fn from(error: NodeError) -> NodeCaseError {
        match error {
            NodeError::BadCount => NodeCaseError::BadCount,
            NodeError::NoPlace => NodeCaseError::NoView,
            NodeError::NoMemory => NodeCaseError::NoMemory(NoMemory),
        }
    }
}

impl From<ServerError> for NodeCaseError {
    fn from(error: ServerError) -> NodeCaseError {
        match error {
            ServerError::Listening(_) | ServerError::System(_) => NodeCaseError::System,
            ServerError::Node(error) => NodeCaseError::from(error),
            ServerError::NoSchema(_) => NodeCaseError::Disconnected,
            ServerError::NotBack => NodeCaseError::NotDrained,
            ServerError::NoMemory => NodeCaseError::NoMemory(NoMemory),
        }
    }
}

impl From<io::Error> for NodeCaseError {
    fn from(_error: io::Error) -> NodeCaseError {
        NodeCaseError::Disconnected
    }
}
