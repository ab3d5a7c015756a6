//! What the lines of the script `world` say behind the schema's: how many relays there are, and events.

ghost use Rattle.std.specs.Prelude.{◌≡◌, IfOk, option_map};
ghost use Rattle.serde_json.specs.View.{view};
ghost use Rattle.ovs_world_script.specs.Reading.{number_of, relays_of_line, numbers_of, operations_of, commit_of, trim_of, read_of, event_of_number, event_of_two, event_of_numbers, event_of_three, event_of_json, event_of_line};

use crate::words::EventRefusal;
use ovs_json::{is_word, read_json, three_items, two_items};
use ovs_script::json_of_line;
use ovs_types::{NoMemory, TxnId};
use ovs_wire::Params;
use ovs_world::Event;
use serde_json::Value;
use std::alloc::Global;

// A whole number from 0 on.
fn number_of(value: &Value) -> Option<usize>
    ensures value { result ≡ number_of (view value.now) }
{
    match value.as_u64() {
        Some(number) => Some(number as usize),
        None => None,
    }
}

/// How many relays a line asks for, if it is a number. `None` is a line above the limit.
pub(crate) fn relays_of_line(alloc: Global, line: Option<&[u8]>) -> Result<Option<usize>, NoMemory>
    ensures value { IfOk result (λ count. count ≡ relays_of_line (option_map (λ l. l.now) line.entry)) }
{
    let Some(line) = line else {
        return Ok(None);
    };
    match read_json(alloc, line)? {
        None => Ok(None),
        Some(value) => Ok(number_of(&value)),
    }
}

// Two numbers.
fn numbers_of(first: &Value, second: &Value) -> Result<(usize, usize), EventRefusal>
    ensures value { result ≡ numbers_of (view first.now) (view second.now) }
{
    match (number_of(first), number_of(second)) {
        (Some(first), Some(second)) => Ok((first, second)),
        _ => Err(EventRefusal::BadShape),
    }
}

// The operations that an array holds.
fn operations_of(value: &Value) -> Result<Option<Params>, NoMemory>
    ensures value { IfOk result (λ operations. operations ≡ operations_of (view value.now)) }
{
    match value.as_array() {
        None => Ok(None),
        Some(values) => Ok(Some(Params::new(values.clone()?))),
    }
}

fn commit_of(id: &Value, operations: &Value) -> Result<Result<Event, EventRefusal>, NoMemory>
    ensures value { IfOk result (λ event. event ≡ commit_of (view id.now) (view operations.now)) }
{
    let Some(id) = id.as_str() else {
        return Ok(Err(EventRefusal::BadShape));
    };
    let Some(operations) = operations_of(operations)? else {
        return Ok(Err(EventRefusal::BadShape));
    };
    match TxnId::read(id) {
        Ok(id) => Ok(Ok(Event::Commit { id, operations })),
        Err(_) => Ok(Err(EventRefusal::BadId)),
    }
}

fn read_of(node: &Value, operations: &Value) -> Result<Result<Event, EventRefusal>, NoMemory>
    ensures value { IfOk result (λ event. event ≡ read_of (view node.now) (view operations.now)) }
{
    let Some(node) = number_of(node) else {
        return Ok(Err(EventRefusal::BadShape));
    };
    match operations_of(operations)? {
        Some(operations) => Ok(Ok(Event::Read { node, operations })),
        None => Ok(Err(EventRefusal::BadShape)),
    }
}

fn trim_of(id: &Value) -> Result<Event, EventRefusal>
    ensures value { result ≡ trim_of (view id.now) }
{
    let Some(id) = id.as_str() else {
        return Err(EventRefusal::BadShape);
    };
    match TxnId::read(id) {
        Ok(id) => Ok(Event::Trim { id }),
        Err(_) => Err(EventRefusal::BadId),
    }
}

// The event of a name and one number.
fn event_of_number(name: &Value, value: &Value) -> Result<Event, EventRefusal>
    ensures value { result ≡ event_of_number (view name.now, view value.now) }
{
    let Some(number) = number_of(value) else {
        return Err(EventRefusal::BadShape);
    };
    if is_word("cut", name) {
        Ok(Event::Cut { session: number })
    } else if is_word("restart", name) {
        Ok(Event::Restart { relay: number })
    } else if is_word("prune", name) {
        Ok(Event::Prune { relay: number })
    } else {
        Err(EventRefusal::BadShape)
    }
}

// The event of a name and one value.
fn event_of_two(name: &Value, value: &Value) -> Result<Event, EventRefusal>
    ensures value { result ≡ event_of_two (view name.now, view value.now) }
{
    if is_word("trim", name) {
        trim_of(value)
    } else {
        event_of_number(name, value)
    }
}

// The event of a name and two numbers.
fn event_of_numbers(name: &Value, first: &Value, second: &Value) -> Result<Event, EventRefusal>
    ensures value { result ≡ event_of_numbers (view name.now) (view first.now) (view second.now) }
{
    let (first, second) = numbers_of(first, second)?;
    if is_word("connect", name) {
        Ok(Event::Connect {
            relay: first,
            upstream: second,
        })
    } else if is_word("deliver", name) {
        Ok(Event::Deliver {
            session: first,
            bytes: second,
        })
    } else if is_word("merge", name) {
        Ok(Event::MergeFrom {
            into: first,
            from: second,
        })
    } else {
        Err(EventRefusal::BadShape)
    }
}

// The event of a name and two values.
fn event_of_three(
    name: &Value,
    first: &Value,
    second: &Value,
) -> Result<Result<Event, EventRefusal>, NoMemory>
    ensures value { IfOk result (λ event. event ≡ event_of_three (view name.now, view first.now, view second.now)) }
{
    if is_word("commit", name) {
        commit_of(first, second)
    } else if is_word("read", name) {
        read_of(first, second)
    } else {
        Ok(event_of_numbers(name, first, second))
    }
}

fn event_of_json(value: &Value) -> Result<Result<Event, EventRefusal>, NoMemory>
    ensures value { IfOk result (λ event. event ≡ event_of_json (view value.now)) }
{
    if let Some((name, value)) = two_items(value) {
        return Ok(event_of_two(name, value));
    }
    match three_items(value) {
        Some((name, first, second)) => event_of_three(name, first, second),
        None => Ok(Err(EventRefusal::BadShape)),
    }
}

/// The event that a line spells, or why it is refused before it happens. `None` is a line above the limit.
pub(crate) fn event_of_line(
    alloc: Global,
    line: Option<&[u8]>,
) -> Result<Result<Event, EventRefusal>, NoMemory>
    ensures value { IfOk result (λ event. event ≡ event_of_line (option_map (λ l. l.now) line.entry)) }
{
    match json_of_line(alloc, line)? {
        Ok(value) => event_of_json(&value),
        Err(fault) => Ok(Err(EventRefusal::BadLine(fault))),
    }
}
