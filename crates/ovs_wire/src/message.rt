//! A JSON-RPC message: JSON read as one, and one written as JSON.
ghost use Rattle.std.specs.Prelude.{◌≡◌, IfOk, false};
ghost use Rattle.serde_json.specs.View.{view};
ghost use Rattle.serde_json.specs.Written.{has_float, compact_text};

mod id;
mod laws;
mod method;
mod params;
mod reading;
mod writing;

use crate::error::MessageError;
use crate::message::reading::message_of;
use crate::message::writing::{text_of, value_of};
pub use id::Id;
pub use laws::{text_laws, writing_laws};
pub use method::Method;
use ovs_json::{Json, NoMemory};
pub use params::Params;
use serde_json::Value;
use std::alloc::Global;

/// A message of JSON-RPC 1.0 (RFC 7047 section 4).
#[derive(Debug, Drop)]
pub enum Message {
    /// It asks for a reply, which bears its id.
    Request {
        method: Method,
        params: Params,
        id: Id,
    },
    /// It answers the request of this id. A member that was absent is null.
    Reply {
        result: Json,
        error: Json,
        id: Id,
    },
    /// A notification: a request whose id is null or absent, and which has no reply.
    Notice {
        method: Method,
        params: Params,
    },
}

impl Message {
    ghost use Rattle.ovs_wire.specs.Message.{Reads, IsWritten, json};

    /// The message that a text spells. Members that it doesn't know are ignored.
    ///
    /// - `NotJson`: `serde_json` reads no value from the bytes: they are no JSON text in UTF-8 (RFC 8259), nest deeper
    ///   than 127, or have a number too large for a double or an escaped surrogate without its pair.
    /// - `BadShape`: they are JSON that spells no message.
    /// - `NoMemory`.
    #[tactic(auto, using(crate::proofs::Lists::items_again, crate::proofs::Lists::list_again))]
    pub fn read(alloc: Global, bytes: &[u8]) -> Result<Message, MessageError>
        ensures reads { Reads bytes.now result }
    {
        match Value::from_slice(alloc, bytes) {
            Ok(value) => message_of(value).ok_or(MessageError::BadShape),
            Err(error) => Err(if error.is_memory() {
                MessageError::NoMemory
            } else {
                MessageError::NotJson
            }),
        }
    }

    /// The message as compact JSON text, its members in ascending order of their names. It reads back as this
    /// message, where that nests at most 127 deep. `NoMemory` is its only error.
    pub fn write(&self, alloc: Global) -> Result<Vec<u8>, NoMemory>
        ensures written { IfOk result (λ b. IsWritten self.now b.items) }
        ensures text { IfOk result (λ b. has_float (json self.now) ≡ false
            → b.items ≡ compact_text (json self.now)) }
    {
        match value_of(alloc, self.copy()?) {
            Ok(value) => text_of(alloc, &value),
            Err(_) => Err(NoMemory),
        }
    }

    /// The message, and what `write` gives for it. Of a message that is owned no copy is made, so that a long one takes
    /// no more memory than its text.
    pub fn write_owned(self, alloc: Global) -> (Message, Result<Vec<u8>, NoMemory>)
        ensures same { result.0 ≡ self }
        ensures written { IfOk result.1 (λ b. IsWritten self b.items) }
        ensures text { IfOk result.1 (λ b. has_float (json self) ≡ false
            → b.items ≡ compact_text (json self)) }
    {
        let value = match value_of(alloc, self) {
            Ok(value) => value,
            Err(message) => return (message, Err(NoMemory)),
        };
        let text = text_of(alloc, &value);
        match message_of(value) {
            Some(message) => (message, text),
            None => unreachable!(),
        }
    }

    /// An equal message, or `NoMemory` where memory ran out.
    pub fn copy(&self) -> Result<Message, NoMemory>
        ensures value { IfOk result (λ m. m ≡ self.now) }
    {
        match self {
            Message::Request { method, params, id } => Ok(Message::Request {
                method: method.copy()?,
                params: params.copy()?,
                id: id.copy()?,
            }),
            Message::Reply { result, error, id } => Ok(Message::Reply {
                result: result.copy()?,
                error: error.copy()?,
                id: id.copy()?,
            }),
            Message::Notice { method, params } => Ok(Message::Notice {
                method: method.copy()?,
                params: params.copy()?,
            }),
        }
    }
}
