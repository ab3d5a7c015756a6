//! The message that JSON spells.
ghost use Rattle.std.specs.Prelude.{◌≡◌, ℕ, List, codes, option_map, string_bytes};
ghost use Rattle.serde_json.specs.Find.{get_member};
ghost use Rattle.serde_json.specs.View.{view, items_view, members_view};
ghost use Rattle.ovs_wire.specs.Message.{or_null};
ghost use Rattle.ovs_wire.specs.Reading.{list_of, message_of, called, replied};

use crate::message::{Id, Json, Message, Method, Params};
use serde_json::{Map, Value};

// Takes a member out of an object.
fn take(members: &mut Map<String, Value>, name: &str) -> Option<Value>
    ensures found { option_map view result ≡ get_member name.now (members_view members.old.entries) }
    ensures others { (k : List ℕ) → (k ≡ name.now → ⊥)
        → get_member k (members_view members.new.entries) ≡ get_member k (members_view members.old.entries) }
{
    members.remove(name)
}

// An absent member counts as null.
fn or_null(value: Option<Value>) -> Value
    ensures value { view result ≡ or_null (option_map view value) }
{
    value.unwrap_or(Value::Null)
}

#[tactic(auto, using(crate::proofs::Lists::list_again))]
fn params_of(values: Vec<Value>) -> Params
    ensures value { result ≡ list_of (items_view values.items) }
{
    Params::new(values)
}

// A request, or with a null id a notification.
fn called(method: String, params: Option<Value>, id: Value) -> Option<Message>
    ensures value { result ≡ called (string_bytes method) (option_map view params) (view id) }
{
    let Some(Value::Array(params)) = params else {
        return None;
    };
    let method = Method::new(method);
    let params = params_of(params);
    match Id::new(id) {
        Some(id) => Some(Message::Request { method, params, id }),
        None => Some(Message::Notice { method, params }),
    }
}

fn replied(answer: Option<Value>, error: Option<Value>, id: Value) -> Option<Message>
    ensures value { result ≡ replied (option_map view answer) (option_map view error) (view id) }
{
    if answer.is_none() && error.is_none() {
        return None;
    }
    let id = Id::new(id)?;
    let result = Json::new(or_null(answer));
    let error = Json::new(or_null(error));
    Some(Message::Reply { result, error, id })
}

/// The message that JSON spells, if it spells one.
pub(crate) fn message_of(value: Value) -> Option<Message>
    ensures value { result ≡ message_of (view value) }
{
    let Value::Object(mut members) = value else {
        return None;
    };
    let id = or_null(take(&mut members, "id"));
    match take(&mut members, "method") {
        Some(Value::String(method)) => called(method, take(&mut members, "params"), id),
        Some(_) => None,
        None => replied(
            take(&mut members, "result"),
            take(&mut members, "error"),
            id,
        ),
    }
}
