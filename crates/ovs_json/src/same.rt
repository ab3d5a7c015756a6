//! Equality of JSON values: `==` of a type that holds itself has no clause.

ghost use Rattle.std.specs.Prelude.{◌≡◌, ◌↔◌, IsTrue};
ghost use Rattle.serde_json.specs.View.{view, number_view, items_view, members_view};
ghost use Rattle.ovs_json.specs.JsonCode.{json_code};
ghost use Rattle.ovs_json.specs.Same.{is_same};

use serde_json::{Map, Number, Value};
use std::num::f64_to_bits_with_nan;

/// Whether two JSON values are equal: the same texts, numbers, truths, lists in their order and members by name. A
/// number is equal only to one of the same kind and sign: 1 isn't 1.0, and 0.0 isn't -0.0.
pub fn same_json(left: &Value, right: &Value) -> bool
    ensures value { result ≡ is_same json_code (view left.now) (view right.now) }
    ensures same { IsTrue result ↔ (view left.now ≡ view right.now) }
{
    same_value(left, right)
}

// Whether two values are equal.
#[cycle(same)]
fn same_value(left: &Value, right: &Value) -> bool
    ensures same { IsTrue result ↔ (view left.now ≡ view right.now) }
{
    match (left, right) {
        (Value::Null, Value::Null) => true,
        (Value::Bool(left), Value::Bool(right)) => *left == *right,
        (Value::Number(left), Value::Number(right)) => same_number(left, right),
        (Value::String(left), Value::String(right)) => left == right,
        (Value::Array(left), Value::Array(right)) => same_items(left, right),
        (Value::Object(left), Value::Object(right)) => same_members(left, right),
        _ => false,
    }
}

// Whether two lists have equal items, in the same order.
#[cycle(same)]
fn same_items(left: &[Value], right: &[Value]) -> bool
    ensures same { IsTrue result ↔ (items_view left.now ≡ items_view right.now) }
{
    let mut other_items = right.iter();
    for item in left {
        let Some(other) = other_items.next() else {
            return false;
        };
        if !same_value(item, other) {
            return false;
        }
    }
    other_items.next().is_none()
}

// Whether two objects have equal members under the same names.
#[cycle(same)]
fn same_members(left: &Map<String, Value>, right: &Map<String, Value>) -> bool
    ensures same { IsTrue result ↔ (members_view left.now.entries ≡ members_view right.now.entries) }
{
    let mut other_members = right.iter();
    for (name, member) in left.iter() {
        let Some((other_name, other)) = other_members.next() else {
            return false;
        };
        if name != other_name || !same_value(member, other) {
            return false;
        }
    }
    other_members.next().is_none()
}

// Whether two numbers are equal, and of the same kind.
fn same_number(left: &Number, right: &Number) -> bool
    ensures same { IsTrue result ↔ (number_view left.now ≡ number_view right.now) }
{
    match (left.as_i128(), right.as_i128()) {
        (Some(integer), Some(other)) => integer == other,
        (None, None) => match (left.as_f64(), right.as_f64()) {
            (Some(float), Some(other)) => same_float(float, other),
            _ => false,
        },
        _ => false,
    }
}

// By their bits, which tell 0.0 from -0.0 as `==` doesn't.
fn same_float(left: f64, right: f64) -> bool
    ensures same { IsTrue result ↔ (left ≡ right) }
{
    f64_to_bits_with_nan(left) == f64_to_bits_with_nan(right)
}
