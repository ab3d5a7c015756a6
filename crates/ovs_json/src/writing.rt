//! JSON values put together.

ghost use Rattle.std.specs.Prelude.{◌≡◌, IfOk, OnOk};
ghost use Rattle.serde_json.specs.View.{view, items_view, members_view};
ghost use Rattle.serde_json.specs.Data.{string, put};
ghost use Rattle.ovs_json.specs.Putting.{two, listed, under_name, error_json};

use crate::no_memory::NoMemory;
use serde_json::{Map, Value};
use std::alloc::Global;

/// A text.
///
/// # Errors
/// `NoMemory` alone.
pub fn text_json(alloc: Global, text: &str) -> Result<Value, NoMemory>
    ensures value { IfOk result (λ v. view v ≡ string text.now) }
{
    Ok(Value::String(String::from_str(alloc, text)?))
}

/// A list of two values.
///
/// # Errors
/// `NoMemory` alone.
pub fn two(alloc: Global, first: Value, second: Value) -> Result<Value, NoMemory>
    ensures value { IfOk result (λ v. view v ≡ two (view first) (view second)) }
{
    let mut items = Vec::with_capacity(alloc, 2)?;
    items.push(first)?;
    items.push(second)?;
    Ok(Value::Array(items))
}

/// A list under a word, as in `["set", [..]]`.
///
/// # Errors
/// `NoMemory` alone.
pub fn listed(alloc: Global, word: &str, items: Vec<Value>) -> Result<Value, NoMemory>
    ensures value { IfOk result (λ v. view v ≡ listed word.now (items_view items.items)) }
{
    two(alloc, text_json(alloc, word)?, Value::Array(items))
}

/// Puts a member into an object, in place of one of the same name.
///
/// # Errors
/// `NoMemory` alone.
pub fn put(
    alloc: Global,
    members: &mut Map<String, Value>,
    name: &str,
    value: Value,
) -> Result<(), NoMemory>
    ensures value { OnOk result (members_view members.new.entries ≡ put name.now (view value) (members_view members.old.entries)) }
{
    members.insert(String::from_str(alloc, name)?, value)?;
    Ok(())
}

/// An object of one member.
///
/// # Errors
/// `NoMemory` alone.
pub fn under_name(alloc: Global, name: &str, value: Value) -> Result<Value, NoMemory>
    ensures value { IfOk result (λ v. view v ≡ under_name name.now (view value)) }
{
    let mut members = Map::new(alloc);
    put(alloc, &mut members, name, value)?;
    Ok(Value::Object(members))
}

/// What a refusal is told as, `{"error": TEXT}` (RFC 7047 section 4.1.3).
///
/// # Errors
/// `NoMemory` alone.
pub fn error_json(alloc: Global, text: &str) -> Result<Value, NoMemory>
    ensures value { IfOk result (λ v. view v ≡ error_json text.now) }
{
    under_name(alloc, "error", text_json(alloc, text)?)
}
