//! What a message says to the request for a schema.

ghost use Rattle.std.specs.Prelude.{◌≡◌, IfOk, Err};
ghost use Rattle.ovs_follow.specs.SchemaQuery.{IsHeard, IsSaid};
ghost use Rattle.ovs_session.specs.Messages.{SaysNothing};

use crate::schema_query::reply::{SchemaReply, reply_of};
use crate::schema_query::request::REQUEST_ID;
use ovs_json::{NoMemory, is_word};
use ovs_session::{ServiceError, read_message};
use ovs_wire::Message;
use std::alloc::Global;

// What a message says to the request: `None` where it isn't the reply.
fn reply_in(alloc: Global, message: &Message) -> Result<Option<SchemaReply>, NoMemory>
    ensures value { IfOk result (IsSaid message.now) }
{
    match message {
        Message::Reply { result, error, id } if is_word(REQUEST_ID, id.as_value()) => {
            Ok(Some(reply_of(alloc, result.as_value(), error.as_value())?))
        }
        _ => Ok(None),
    }
}

/// What the text of a message says to the request: `None` where it isn't the reply.
///
/// - `BadInput`: the text says no message.
/// - `NoMemory`.
pub(crate) fn hear(alloc: Global, text: &[u8]) -> Result<Option<SchemaReply>, ServiceError>
    ensures heard { IfOk result (IsHeard text.now) }
    ensures none { result ≡ Err ServiceError.BadInput → SaysNothing text.now }
    ensures never_gone { result ≡ Err ServiceError.Gone → ⊥ }
    ensures never_epoch { result ≡ Err ServiceError.Epoch → ⊥ }
{
    match read_message(alloc, text) {
        Ok(message) => Ok(reply_in(alloc, &message)?),
        Err(refusal) => Err(refusal),
    }
}
