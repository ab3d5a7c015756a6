//! What passes over a connection between OVSDB peers (RFC 7047 section 4): a stream of bytes as JSON objects, and
//! these as JSON-RPC 1.0 messages; and the devices that it passes through, whose calls and failures are counted.
#![tactic(auto)]

mod device;
mod error;
mod framing;
mod message;

pub use device::{Counted, is_passing};
pub use error::{FrameError, MessageError};
pub use framing::{
    Framer, MAX_MESSAGE_BYTES, MAX_NESTING, balanced_text_laws, frame_laws, framer_laws, limit_laws,
};
pub use message::{Id, Message, Method, Params, text_laws, writing_laws};
pub use ovs_json::{Json, NoMemory};
