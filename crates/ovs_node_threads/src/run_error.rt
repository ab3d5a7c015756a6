//! Why a node gives no report.

use ovs_json::NoMemory;
use thiserror::Error;

/// Why a node that was to run gives no report.
#[derive(Clone, Copy, Debug, PartialEq, Eq, Error)]
pub enum RunError {
    /// Memory ran out before a thread was started, or for a thread without which nothing is sent. What the node and its threads had is
    /// gone.
    #[error("out of memory")]
    NoMemory,
    /// Not all that the node's threads send with came back, or not in the order in which it was given.
    #[error("a thread was lost")]
    NotBack,
}

impl From<NoMemory> for RunError {
    fn from(_want: NoMemory) -> RunError {
        RunError::NoMemory
    }
}
