//! The JSON that spells a message.
ghost use Rattle.std.specs.Prelude.{◌≡◌, codes, false, IfOk, IfErr, OnOk};
ghost use Rattle.serde_json.specs.Data.{object, array, string, member, no_members, put};
ghost use Rattle.serde_json.specs.View.{view, items_of, members_view};
ghost use Rattle.serde_json.specs.Written.{has_float, compact_text};
ghost use Rattle.ovs_wire.specs.Message.{Spells, IsWritten, json};
ghost use Rattle.ovs_wire.specs.declared.message.Message.{Message};

use crate::message::{Id, Json, Message, Method, Params};
use ovs_json::{NoMemory, put, text_json};
use serde_json::{Map, Value};
use std::alloc::Global;

// Puts a member into an object, or hands it back where memory runs out.
fn put_or_keep(
    alloc: Global,
    members: &mut Map<String, Value>,
    name: &str,
    value: Value,
) -> Result<(), Value>
    ensures value { OnOk result (members_view members.new.entries ≡ put name.now (view value) (members_view members.old.entries)) }
    ensures kept { IfErr result (λ kept. kept ≡ value) }
{
    let Ok(name) = String::from_str(alloc, name) else {
        return Err(value);
    };
    match members.insert(name, value) {
        Ok(_) => Ok(()),
        Err(failed) => Err(failed.value.1),
    }
}

// The members of a call but its params.
fn call_members(alloc: Global, id: Value, method: &Method) -> Result<Map<String, Value>, NoMemory>
    ensures value { IfOk result (λ m. members_view m.entries ≡ member (codes "id") (view id) (member (codes "method") (string method.now) no_members)) }
{
    let mut members = Map::new(alloc);
    put(alloc, &mut members, "id", id)?;
    put(
        alloc,
        &mut members,
        "method",
        text_json(alloc, method.as_str())?,
    )?;
    Ok(members)
}

// The JSON of a call, or its params again where memory runs out.
fn call_of(alloc: Global, id: Value, method: &Method, params: Params) -> Result<Value, Params>
    ensures value { IfOk result (λ v. view v ≡ object (member (codes "id") (view id) (member (codes "method") (string method.now) (member (codes "params") (array (items_of params)) no_members)))) }
    ensures kept { IfErr result (λ kept. kept ≡ params) }
{
    let Ok(mut members) = call_members(alloc, id, method) else {
        return Err(params);
    };
    let params = Value::Array(params.into_values());
    match put_or_keep(alloc, &mut members, "params", params) {
        Ok(()) => Ok(Value::Object(members)),
        Err(Value::Array(values)) => Err(Params::new(values)),
        Err(_) => unreachable!(),
    }
}

// The members of a reply but its result.
fn reply_members(alloc: Global, error: &Json, id: &Id) -> Result<Map<String, Value>, NoMemory>
    ensures value { IfOk result (λ m. members_view m.entries ≡ member (codes "error") error.now (member (codes "id") id.now no_members)) }
{
    let mut members = Map::new(alloc);
    put(alloc, &mut members, "error", error.copy()?.into_value())?;
    put(alloc, &mut members, "id", id.copy()?.into_value())?;
    Ok(members)
}

// The JSON of a reply, or its result again where memory runs out.
fn reply_of(alloc: Global, error: &Json, id: &Id, answer: Json) -> Result<Value, Json>
    ensures value { IfOk result (λ v. view v ≡ object (member (codes "error") error.now (member (codes "id") id.now (member (codes "result") answer no_members)))) }
    ensures kept { IfErr result (λ kept. kept ≡ answer) }
{
    let Ok(mut members) = reply_members(alloc, error, id) else {
        return Err(answer);
    };
    match put_or_keep(alloc, &mut members, "result", answer.into_value()) {
        Ok(()) => Ok(Value::Object(members)),
        Err(value) => Err(Json::new(value)),
    }
}

// The JSON of a request, or the request again where memory runs out.
fn request_of(alloc: Global, method: Method, params: Params, id: Id) -> Result<Value, Message>
    ensures value { IfOk result (λ v. view v ≡ json (Message.Request method params id)) }
    ensures kept { IfErr result (λ kept. kept ≡ Message.Request method params id) }
{
    let copy = match id.copy() {
        Ok(copy) => copy.into_value(),
        Err(NoMemory) => return Err(Message::Request { method, params, id }),
    };
    match call_of(alloc, copy, &method, params) {
        Ok(value) => Ok(value),
        Err(params) => Err(Message::Request { method, params, id }),
    }
}

/// The JSON that spells the message, or the message again where memory runs out.
pub(crate) fn value_of(alloc: Global, message: Message) -> Result<Value, Message>
    ensures value { IfOk result (λ v. view v ≡ json message) }
    ensures spelled { IfOk result (λ v. Spells (json message) message) }
    ensures kept { IfErr result (λ kept. kept ≡ message) }
{
    match message {
        Message::Request { method, params, id } => request_of(alloc, method, params, id),
        Message::Reply {
            result: answer,
            error,
            id,
        } => match reply_of(alloc, &error, &id, answer) {
            Ok(value) => Ok(value),
            Err(result) => Err(Message::Reply { result, error, id }),
        },
        Message::Notice { method, params } => match call_of(alloc, Value::Null, &method, params) {
            Ok(value) => Ok(value),
            Err(params) => Err(Message::Notice { method, params }),
        },
    }
}

/// The text of the JSON that spells a message.
pub(crate) fn text_of(alloc: Global, value: &Value) -> Result<Vec<u8>, NoMemory>
    ensures written { (m : Message) → view value.now ≡ json m → Spells (json m) m → IfOk result (λ b. IsWritten m b.items) }
    ensures text { IfOk result (λ b. has_float (view value.now) ≡ false → b.items ≡ compact_text (view value.now)) }
{
    Ok(value.to_vec(alloc)?)
}
