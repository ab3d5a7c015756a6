//! Asserts of locks in what goes up.

ghost use Rattle.std.specs.Prelude.{◌≡◌, IfOk, OnOk, map, option_map};
ghost use Rattle.serde_json.specs.View.{view};
ghost use Rattle.ovs_desk.specs.Asserts.{asserted, owns, put_lock, rewritten};

use ovs_json::{NoMemory, SessionId, Text, is_word, put, text_json};
use ovs_lock_desk::LockDesk;
use serde_json::Value;
use std::alloc::Global;
use std::mem;

// The name of the lock that an operation asserts, if it is an assert.
fn asserted(operation: &Value) -> Option<&str>
    ensures value { option_map (λ s. s.now) result ≡ asserted (view operation.now) }
{
    match operation.get("op") {
        Some(op) => {
            if is_word("assert", op) {
                operation.get("lock")?.as_str()
            } else {
                None
            }
        }
        None => None,
    }
}

// Whether a session owns a lock here.
fn owns(locks: &LockDesk, session: SessionId, name: &Text) -> bool
    ensures value { result ≡ owns locks.now.locks session name.now }
{
    match locks.owner(name) {
        Some(owner) => owner == session,
        None => false,
    }
}

// Puts the lock that no session holds in the place of an operation's.
fn put_lock(alloc: Global, operation: Value) -> Result<Value, NoMemory>
    ensures value { IfOk result (λ op. view op ≡ put_lock (view operation)) }
{
    match operation {
        Value::Object(members) => {
            let mut members = members;
            put(alloc, &mut members, "lock", text_json(alloc, "_none")?)?;
            Ok(Value::Object(members))
        }
        other => Ok(other),
    }
}

fn rewrite_one(
    alloc: Global,
    operation: Value,
    session: SessionId,
    locks: &LockDesk,
) -> Result<Value, NoMemory>
    ensures value { IfOk result (λ op. view op ≡ rewritten locks.now.locks session (view operation)) }
{
    let name = match asserted(&operation) {
        Some(name) => Text::new(alloc, name)?,
        None => return Ok(operation),
    };
    if owns(locks, session, &name) {
        return Ok(operation);
    }
    put_lock(alloc, operation)
}

fn rewrite_all(
    alloc: Global,
    operations: &mut [Value],
    session: SessionId,
    locks: &LockDesk,
) -> Result<(), NoMemory>
    ensures value { OnOk result (map view operations.new ≡ map (rewritten locks.now.locks session) (map view operations.old)) }
{
    for operation in operations.iter_mut() {
        let taken = mem::replace(operation, Value::Null);
        *operation = rewrite_one(alloc, taken, session, locks)?;
    }
    Ok(())
}

/// The operations as they go up: an assert of a lock that the asker doesn't own here asserts one that no session holds.
///
/// # Errors
/// `NoMemory` alone.
pub(crate) fn rewrite(
    alloc: Global,
    operations: Vec<Value>,
    session: SessionId,
    locks: &LockDesk,
) -> Result<Vec<Value>, NoMemory>
    ensures value { IfOk result (λ ops. map view ops.items ≡ map (rewritten locks.now.locks session) (map view operations.items)) }
{
    let mut operations = operations;
    rewrite_all(alloc, &mut operations, session, locks)?;
    Ok(operations)
}
