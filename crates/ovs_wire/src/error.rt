//! Why a stream or its bytes are refused.
use ovs_json::NoMemory;
use std::alloc::AllocError;
use thiserror::Error;

/// Why a stream of bytes can't be split into messages any further.
#[derive(Clone, Copy, Debug, PartialEq, Eq, Error)]
pub enum FrameError {
    /// A message begins with a byte other than `{` (RFC 7047 section 4: each message is a JSON object).
    #[error("a message that is no object")]
    NotObject,
    /// A message nests deeper than [`MAX_NESTING`](crate::MAX_NESTING).
    #[error("a message nested too deep")]
    TooDeep,
    /// A message is longer than the framer's limit, which is [`MAX_MESSAGE_BYTES`](crate::MAX_MESSAGE_BYTES) unless
    /// another was given. Where the byte that is one too many also nests too deep, the fault is `TooDeep`.
    #[error("a message too long")]
    TooLong,
    /// Memory ran out.
    #[error("out of memory")]
    NoMemory,
}

impl From<AllocError> for FrameError {
    ghost use Rattle.std.specs.Prelude.{◌≡◌};
    ghost use Rattle.ovs_wire.specs.declared.error.FrameError.TheVariants as faults;

    ghost from_gives = { λ _ e. e ≡ faults.NoMemory };

    fn from(_error: AllocError) -> FrameError {
        FrameError::NoMemory
    }
}

impl From<NoMemory> for FrameError {
    ghost use Rattle.std.specs.Prelude.{◌≡◌};
    ghost use Rattle.ovs_wire.specs.declared.error.FrameError.TheVariants as faults;

    ghost from_gives = { λ _ e. e ≡ faults.NoMemory };

    fn from(_error: NoMemory) -> FrameError {
        FrameError::NoMemory
    }
}

/// Why bytes are no message.
#[derive(Clone, Copy, Debug, PartialEq, Eq, Error)]
pub enum MessageError {
    /// `serde_json` reads no value from the bytes: they are no JSON text in UTF-8 (RFC 8259), nest deeper than 127, or
    /// have a number too large for a double or an escaped surrogate without its pair.
    #[error("no JSON")]
    NotJson,
    /// The JSON is no request, reply or notification (JSON-RPC 1.0, RFC 7047 section 4).
    #[error("no message")]
    BadShape,
    /// Memory ran out.
    #[error("out of memory")]
    NoMemory,
}
