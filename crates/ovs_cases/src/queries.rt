//! Read-only transactions and monitors. The first change of a list has the id `a`, the second `b`, and so on.

ghost use Rattle.std.specs.Prelude.{◌≡◌, IfOk};
ghost use Rattle.ovs_query.specs.Updates.{AreTouchedOf};
ghost use Rattle.ovs_query.specs.View.{IsMonitorOf};

use crate::case::{add, list, part, text, word};
use crate::case_error::CaseError;
use crate::changes::{after, applied};
use ovs_query::{Monitor, Notation, QueryError, read_only, transact_read};
use ovs_rows::{Applied, Database};
use ovs_types::{NoMemory, Schema};
use serde_json::Value;
use std::alloc::Global;

/// `["transact", [CHANGE, ..], [OPERATION, ..]]`: the results from the database after the changes.
pub(crate) fn transact(
    alloc: Global,
    schema: &Schema,
    parts: &[Value],
) -> Result<String, CaseError> {
    let operations = list(parts, 2)?;
    if !read_only(operations) {
        return word(alloc, "not read-only");
    }
    let database = after(alloc, schema, list(parts, 1)?)?;
    // Where there is no memory for it, it is asked again.
    let results = match transact_read(alloc, &database, operations) {
        Ok(results) => results,
        Err(_) => transact_read(alloc, &database, operations)?,
    };
    Ok(results.to_string(alloc)?)
}

fn notation(parts: &[Value]) -> Result<Notation, CaseError> {
    match text(parts, 1)? {
        "update" => Ok(Notation::Update),
        "update2" => Ok(Notation::Update2),
        "update3" => Ok(Notation::Update3),
        _ => Err(CaseError::Malformed),
    }
}

/// `["monitor", NOTATION, REQUESTS]`: `ok`, or why there is no such monitor.
pub(crate) fn monitor(
    alloc: Global,
    schema: &Schema,
    parts: &[Value],
) -> Result<String, CaseError> {
    match Monitor::read(alloc, notation(parts)?, part(parts, 2)?, schema) {
        Ok(_) => word(alloc, "ok"),
        Err(QueryError::NoMemory) => Err(NoMemory.into()),
        Err(fault) => word(alloc, fault.text()),
    }
}

fn read(alloc: Global, schema: &Schema, parts: &[Value]) -> Result<Monitor, CaseError>
    ensures tables { IfOk result (λ monitor. IsMonitorOf schema.now.description.tables monitor.watches) }
{
    match Monitor::read(alloc, notation(parts)?, part(parts, 2)?, schema) {
        Ok(monitor) => Ok(monitor),
        Err(_) => Err(CaseError::Malformed),
    }
}

fn shown(alloc: Global, monitor: &Monitor, database: &Database) -> Result<String, CaseError>
    requires monitor { IsMonitorOf database.now.schema.description.tables monitor.now.watches }
{
    Ok(monitor.initial(alloc, database)?.to_string(alloc)?)
}

/// `["initial", NOTATION, REQUESTS, [CHANGE, ..]]`: what a monitor shows at first of the database after the changes.
pub(crate) fn initial(
    alloc: Global,
    schema: &Schema,
    parts: &[Value],
) -> Result<String, CaseError> {
    let monitor = read(alloc, schema, parts)?;
    let database = after(alloc, schema, list(parts, 3)?)?;
    shown(alloc, &monitor, &database)
}

// What the monitor tells of a step in its notation.
fn told(
    alloc: Global,
    schema: &Schema,
    monitor: &Monitor,
    notation: Notation,
    applied: &Applied,
) -> Result<String, CaseError>
    requires monitor { IsMonitorOf schema.now.description.tables monitor.now.watches }
    requires touched { AreTouchedOf schema.now.description.tables applied.now }
{
    let updates = match notation {
        Notation::Update => monitor.update1(alloc, applied)?,
        Notation::Update2 | Notation::Update3 => monitor.update2(alloc, applied)?,
    };
    Ok(updates.to_string(alloc)?)
}

fn step(
    alloc: Global,
    database: &mut Database,
    monitor: &Monitor,
    notation: Notation,
    change: &Value,
    number: usize,
) -> Result<String, CaseError>
    requires monitor { IsMonitorOf database.old.schema.description.tables monitor.now.watches }
    ensures schema { database.new.schema ≡ database.old.schema }
{
    let done = applied(alloc, database, change, number)?;
    told(alloc, database.schema(), monitor, notation, &done)
}

// What the monitor tells of each of the changes, the first of which is the one of this number.
fn steps(
    alloc: Global,
    database: &mut Database,
    monitor: &Monitor,
    notation: Notation,
    changes: &[Value],
    first: usize,
) -> Result<String, CaseError>
    requires monitor { IsMonitorOf database.old.schema.description.tables monitor.now.watches }
{
    let mut lines = String::new(alloc);
    for (number, change) in changes.iter().enumerate() {
        let number = first.saturating_add(number);
        let line = step(alloc, database, monitor, notation, change, number)?;
        add(&mut lines, line.as_str())?;
    }
    Ok(lines)
}

/// `["updates", NOTATION, REQUESTS, [CHANGE, ..], [CHANGE, ..]]`: what a monitor tells of each of the last changes.
pub(crate) fn updates(
    alloc: Global,
    schema: &Schema,
    parts: &[Value],
) -> Result<String, CaseError> {
    let notation = notation(parts)?;
    let before = list(parts, 3)?;
    let changes = list(parts, 4)?;
    let monitor = read(alloc, schema, parts)?;
    let mut database = after(alloc, schema, before)?;
    steps(
        alloc,
        &mut database,
        &monitor,
        notation,
        changes,
        before.len(),
    )
}
