//! Answers.

ghost use Rattle.std.specs.Prelude.{◌≡◌, IfOk};
ghost use Rattle.serde_json.specs.View.{view};
ghost use Rattle.ovs_authority.specs.Answers.{replied, refused, reply_of};

use ovs_json::{Json, NoMemory, error_json};
use ovs_wire::{Id, Message};
use serde_json::Value;
use std::alloc::Global;

/// A result or an error; the other is null (RFC 7047 section 4).
#[derive(Drop)]
pub struct Response {
    /// The result.
    pub result: Json,
    /// The error.
    pub error: Json,
}

/// A result and no error.
pub fn replied(value: Value) -> Response
    ensures value { result ≡ replied (view value) }
{
    Response {
        result: Json::new(value),
        error: Json::new(Value::Null),
    }
}

/// No result, and `{"error": TEXT}` as the error.
///
/// # Errors
/// `NoMemory` alone.
pub fn refused(alloc: Global, text: &str) -> Result<Response, NoMemory>
    ensures value { IfOk result (λ a. a ≡ refused text.now) }
{
    Ok(Response {
        result: Json::new(Value::Null),
        error: Json::new(error_json(alloc, text)?),
    })
}

impl Response {
    /// The reply with this answer.
    pub fn into_reply(self, id: Id) -> Message
        ensures value { result ≡ reply_of self id }
    {
        Message::Reply {
            result: self.result,
            error: self.error,
            id,
        }
    }
}
