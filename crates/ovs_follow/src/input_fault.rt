//! What was wrong with what an upstream said.

use ovs_upstream::UpError;
use ovs_wire::FrameError;
use thiserror::Error;

/// Why a session with an upstream ended for what the upstream said.
#[derive(Clone, Copy, Debug, PartialEq, Eq, Error)]
pub enum InputFault {
    /// Its bytes are no stream of messages within the limits (RFC 7047 section 4).
    #[error("{0}")]
    Stream(FrameError),
    /// An object of the stream is no message of JSON-RPC 1.0.
    #[error("no message")]
    NoMessage,
    /// A message may not come, or says what the session refuses.
    #[error("{0}")]
    Message(UpError),
    /// The handler refuses what a message says, as a reply to a request that wasn't made.
    #[error("a reply that may not come")]
    Reply,
}
