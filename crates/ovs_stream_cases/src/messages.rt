//! What a source says in a session with a relay, message by message.

ghost use Rattle.std.specs.Prelude.{◌≡◌, Ok, Some, Bool, IfOk, OnOk};
ghost use Rattle.ovs_types.specs.Id.{id_text, read_id};
ghost use Rattle.ovs_types.specs.SchemaReading.{read_description};
ghost use Rattle.ovs_links.specs.Sets.{IsOfTables};
ghost use Rattle.ovs_wire.specs.Frames.{IsObject};
ghost use Rattle.ovs_wire.specs.Limits.{most_bytes};
ghost use Rattle.ovs_wire.specs.Message.{Says};
ghost use Rattle.ovs_stream_cases.specs.Said.{schema_reply, place_reply, update_notice, IsTold};

use crate::stream_case_error::StreamCaseError;
use ovs_json::{Json, NoMemory, text_json};
use ovs_links::Link;
use ovs_types::{Schema, TxnId};
use ovs_wire::{FrameError, Framer, Id, Message, Method, Params};
use serde_json::{Map, Value};
use std::alloc::Global;

/// The reply to the request for the schema (RFC 7047 section 4.1.2).
///
/// # Errors
/// `NoMemory` alone.
pub(crate) fn schema_reply(alloc: Global, schema: &Schema) -> Result<Message, NoMemory>
    ensures value { IfOk result (λ m. m ≡ schema_reply schema.now) }
    ensures told { OnOk result (read_description schema.now.json ≡ Ok schema.now.description) }
{
    Ok(Message::Reply {
        result: Json::new(schema.to_json()?),
        error: Json::new(Value::Null),
        id: Id::from_text(alloc, "schema")?,
    })
}

/// The answer to the request for the monitor: whether the id is known that was asked, where the updates go on, and no update yet
/// (ovsdb-server(7), `monitor_cond_since`).
///
/// # Errors
/// `NoMemory` alone.
pub(crate) fn place_reply(alloc: Global, is_known: bool, id: TxnId) -> Result<Message, NoMemory>
    ensures value { IfOk result (λ m. m ≡ place_reply is_known id) }
    ensures told { OnOk result (read_id (id_text id) ≡ Some id) }
{
    let mut parts = Vec::with_capacity(alloc, 3)?;
    parts.push_reserved(Value::Bool(is_known));
    parts.push_reserved(Value::String(id.to_text(alloc)?));
    parts.push_reserved(Value::Object(Map::new(alloc)));
    Ok(Message::Reply {
        result: Json::new(Value::Array(parts)),
        error: Json::new(Value::Null),
        id: Id::from_text(alloc, "monitor")?,
    })
}

/// The notification of a link (ovsdb-server(7), `update3`).
///
/// # Errors
/// `NoMemory` alone.
pub(crate) fn update_notice(
    alloc: Global,
    schema: &Schema,
    link: &Link,
) -> Result<Message, NoMemory>
    requires tables { IsOfTables schema.now.description.tables link.now }
    ensures value { IfOk result (λ m. m ≡ update_notice schema.now.description.tables link.now) }
    ensures told { OnOk result (IsTold schema.now.description.tables link.now) }
{
    let mut params = Vec::with_capacity(alloc, 3)?;
    params.push_reserved(text_json(alloc, "relay")?);
    params.push_reserved(Value::String(link.id().to_text(alloc)?));
    params.push_reserved(link.change().to_json(alloc, schema)?);
    Ok(Message::Notice {
        method: Method::new(String::from_str(alloc, "update3")?),
        params: Params::new(params),
    })
}

/// The text of a message, which is one frame of a stream.
///
/// # Errors
/// `TooLarge` where it is above the limits of a message, and `NoMemory`.
pub(crate) fn text_of(alloc: Global, message: &Message) -> Result<Vec<u8>, StreamCaseError>
    ensures frame { IfOk result (λ text. IsObject most_bytes text.items) }
    ensures says { IfOk result (λ text. Says text.items message.now) }
{
    let text = message.write(alloc)?;
    let mut framer = Framer::new(alloc);
    match framer.feed(text.as_slice()) {
        Ok(()) => Ok(text),
        Err(FrameError::NoMemory) => Err(StreamCaseError::NoMemory(NoMemory)),
        Err(_) => Err(StreamCaseError::TooLarge),
    }
}
