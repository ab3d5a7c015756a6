//! What can keep a request from being passed on or answered.

use ovs_authority::Request;
use ovs_wire::Id;
use thiserror::Error;

/// Why a request isn't passed on. Nothing is changed then.
#[derive(Clone, Copy, Debug, PartialEq, Eq, Error)]
pub enum ForwardError {
    /// As many requests wait to be answered and collected as may.
    #[error("too many requests wait")]
    Full,
    /// All numbers have been used.
    #[error("all numbers are used")]
    Spent,
    /// Memory ran out.
    #[error("out of memory")]
    NoMemory,
}

/// A request that isn't passed on, handed back with its id.
#[derive(Drop)]
pub struct ForwardRefused {
    /// Why it isn't.
    pub error: ForwardError,
    /// The session's own id for the request.
    pub id: Id,
    /// The request.
    pub request: Request,
}

/// No request of this number waits for its answer.
#[derive(Clone, Copy, Debug, PartialEq, Eq, Error)]
#[error("no such request")]
pub struct Unknown;

/// A reply that may not come: that to a Lock or Steal which is open is `{"locked": BOOL}`, or an error. Nothing is
/// changed then.
#[derive(Clone, Copy, Debug, PartialEq, Eq, Error)]
#[error("a reply that may not come")]
pub struct BadReply;
