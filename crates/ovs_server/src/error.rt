//! Why a node over sockets can't be run.

use ovs_address::Address;
use ovs_node::NodeError;
use ovs_node_threads::RunError;
use ovs_types::NoMemory;
use std::alloc::{AllocError, AllocFailed};
use std::io;
use thiserror::Error;

/// Why a node over sockets isn't run, or didn't come to its end as it should.
#[derive(Debug, Drop, Error)]
pub enum ServerError {
    /// Connections can't be taken at the address.
    #[error("{0}")]
    Listening(io::Error),
    /// The system refuses what the threads wait with.
    #[error("{0}")]
    System(io::Error),
    /// There is no node of so many upstreams and workers.
    #[error("{0}")]
    Node(NodeError),
    /// The upstream, which was tried at this address last, told no schema, and isn't tried any more.
    #[error("upstream {0} told no schema, and isn't tried any more")]
    NoSchema(Address),
    /// Not all that the node's threads had came back.
    #[error("a thread was lost")]
    NotBack,
    /// Memory ran out before anybody was served, or for the thread that sends a source's links.
    #[error("out of memory")]
    NoMemory,
}

impl From<AllocError> for ServerError {
    fn from(_want: AllocError) -> ServerError {
        ServerError::NoMemory
    }
}

impl<T: Drop> From<AllocFailed<T>> for ServerError {
    fn from(_want: AllocFailed<T>) -> ServerError {
        ServerError::NoMemory
    }
}

impl From<NoMemory> for ServerError {
    fn from(_want: NoMemory) -> ServerError {
        ServerError::NoMemory
    }
}

impl From<NodeError> for ServerError {
    fn from(error: NodeError) -> ServerError {
        match error {
            NodeError::NoMemory => ServerError::NoMemory,
            other => ServerError::Node(other),
        }
    }
}

impl From<RunError> for ServerError {
    fn from(error: RunError) -> ServerError {
        match error {
            RunError::NoMemory => ServerError::NoMemory,
            RunError::NotBack => ServerError::NotBack,
        }
    }
}

impl From<io::Error> for ServerError {
    fn from(error: io::Error) -> ServerError {
        ServerError::System(error)
    }
}
