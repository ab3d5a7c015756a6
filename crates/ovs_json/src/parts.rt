//! JSON values taken apart.

ghost use Rattle.std.specs.Prelude.{◌≡◌, IfOk, option_map};
ghost use Rattle.serde_json.specs.View.{view, items_view};
ghost use Rattle.ovs_json.specs.Parts.{is_word, begins_with, both_of, all_three_of, two_items, three_items, is_empty_object, under, list_under, json_of};

use crate::no_memory::NoMemory;
use serde_json::Value;
use std::alloc::Global;

/// Whether a value is this text.
pub fn is_word(word: &str, value: &Value) -> bool
    ensures value { result ≡ is_word word.now (view value.now) }
{
    match value.as_str() {
        Some(text) => text == word,
        None => false,
    }
}

/// Whether a value is a list that begins with this text.
pub fn begins_with(word: &str, value: &Value) -> bool
    ensures value { result ≡ begins_with word.now (view value.now) }
{
    match value {
        Value::Array(items) => match items.as_slice() {
            [first, ..] => is_word(word, first),
            [] => false,
        },
        _ => false,
    }
}

// Both of two items.
fn both_of<T>(items: &[T]) -> Option<(&T, &T)>
    ensures value { option_map (λ p. (p.0.now, p.1.now)) result ≡ both_of items.now }
{
    match items {
        [first, second] => Some((first, second)),
        _ => None,
    }
}

/// The two items of a list of two.
pub fn two_items(value: &Value) -> Option<(&Value, &Value)>
    ensures value { option_map (λ p. (view p.0.now, view p.1.now)) result ≡ two_items (view value.now) }
{
    match value {
        Value::Array(items) => both_of(items),
        _ => None,
    }
}

/// All of three items, where there are three.
pub fn all_three_of<T>(items: &[T]) -> Option<(&T, &T, &T)>
    ensures value { option_map (λ p. (p.0.now, p.1.now, p.2.now)) result ≡ all_three_of items.now }
{
    match items {
        [first, second, third] => Some((first, second, third)),
        _ => None,
    }
}

/// The three items of a list of three.
pub fn three_items(value: &Value) -> Option<(&Value, &Value, &Value)>
    ensures value { option_map (λ p. (view p.0.now, view p.1.now, view p.2.now)) result ≡ three_items (view value.now) }
{
    match value {
        Value::Array(items) => all_three_of(items),
        _ => None,
    }
}

/// Whether a value is the object without members.
pub fn is_empty_object(value: &Value) -> bool
    ensures value { result ≡ is_empty_object (view value.now) }
{
    match value {
        Value::Object(members) => members.is_empty(),
        _ => false,
    }
}

/// The second item of a list of two whose first is this text.
pub fn under<'a>(word: &str, value: &'a Value) -> Option<&'a Value>
    ensures value { option_map (λ v. view v.now) result ≡ under word.now (view value.now) }
{
    let (tag, rest) = two_items(value)?;
    if is_word(word, tag) { Some(rest) } else { None }
}

/// The list under a word, as in `["set", [..]]`.
pub fn list_under<'a>(word: &str, value: &'a Value) -> Option<&'a Vec<Value>>
    ensures value { option_map (λ v. items_view v.now.items) result ≡ list_under word.now (view value.now) }
{
    under(word, value)?.as_array()
}

/// The value that bytes stand for, if they are a JSON text in UTF-8.
///
/// # Errors
/// `NoMemory` alone.
pub fn read_json(alloc: Global, bytes: &[u8]) -> Result<Option<Value>, NoMemory>
    ensures value { IfOk result (λ value. option_map view value ≡ json_of bytes.now) }
{
    match Value::from_slice(alloc, bytes) {
        Ok(value) => Ok(Some(value)),
        Err(error) => {
            if error.is_memory() {
                Err(NoMemory)
            } else {
                Ok(None)
            }
        }
    }
}
