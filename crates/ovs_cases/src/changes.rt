//! Changes, and databases after them. The first change of a list has the id `a`, the second `b`, and so on.

ghost use Rattle.std.specs.Prelude.{◌≡◌, IfOk};
ghost use Rattle.ovs_rows.specs.Change.{IsChangeOf};
ghost use Rattle.ovs_query.specs.Updates.{AreTouchedOf};

use crate::case::{list, part, truth, word};
use crate::case_error::{CaseError, is_refused};
use ovs_case_lines::commit;
use ovs_rows::{Applied, ApplyError, Change, Database};
use ovs_types::{Schema, TxnId};
use serde_json::Value;
use std::alloc::Global;

const IDS: [&str; 4] = ["a", "b", "c", "d"];

// The id of the commit of this number, the first of which is 0. Those past the letters count down from the last id.
fn commit_at(number: usize) -> Result<TxnId, CaseError> {
    match IDS.get(number) {
        Some(letter) => Ok(commit(letter)?),
        None => Ok(TxnId::from(u128::MAX - number as u128)),
    }
}

fn read(alloc: Global, schema: &Schema, value: &Value) -> Result<Change, CaseError>
    ensures tables { IfOk result (IsChangeOf schema.now.description.tables) }
{
    match Change::read(alloc, value, schema) {
        Ok(change) => Ok(change),
        Err(_) => Err(CaseError::Malformed),
    }
}

fn text(alloc: Global, json: &Value) -> Result<String, CaseError> {
    Ok(json.to_string(alloc)?)
}

// What a change is written as, where that reads back as a clone of the change.
fn written(alloc: Global, schema: &Schema, change: &Change) -> Result<String, CaseError>
    requires tables { IsChangeOf schema.now.description.tables change.now }
{
    let json = change.to_json(alloc, schema)?;
    if is_read_as(alloc, schema, &json, &change.clone()?)? {
        text(alloc, &json)
    } else {
        word(alloc, "reads back as another change")
    }
}

fn is_read_as(
    alloc: Global,
    schema: &Schema,
    json: &Value,
    change: &Change,
) -> Result<bool, CaseError> {
    Ok(read(alloc, schema, json)?.same(change))
}

/// `["change", JSON]`: what the change is written as.
pub(crate) fn change(alloc: Global, schema: &Schema, parts: &[Value]) -> Result<String, CaseError> {
    match Change::read(alloc, part(parts, 1)?, schema) {
        Ok(change) => written(alloc, schema, &change),
        Err(fault) => word(alloc, fault.word()),
    }
}

/// `["same change", JSON, JSON]`.
pub(crate) fn same(alloc: Global, schema: &Schema, parts: &[Value]) -> Result<String, CaseError> {
    let one = read(alloc, schema, part(parts, 1)?)?;
    let same = is_read_as(alloc, schema, part(parts, 2)?, &one)?;
    truth(alloc, same)
}

// For each touched row, by a copy of what was told, a letter: `i` it was inserted, `d` deleted, `m` modified.
fn letters(alloc: Global, applied: &Applied) -> Result<String, CaseError> {
    let mut told = String::new(alloc);
    for row in applied.rows() {
        told.push(match (row.before.is_some(), row.after.is_some()) {
            (false, true) => 'i',
            (true, false) => 'd',
            (true, true) => 'm',
            (false, false) => '-',
        })?;
    }
    Ok(told)
}

// The letters of the rows, or why the change doesn't fit.
fn answer(alloc: Global, applied: &Result<Applied, ApplyError>) -> Result<String, CaseError> {
    match applied {
        Ok(applied) => letters(alloc, &applied.copy()?),
        Err(ApplyError::RowThere) => word(alloc, "row-there"),
        Err(ApplyError::NoRow) => word(alloc, "no-row"),
        Err(ApplyError::NoMemory) => Err(CaseError::Refused),
    }
}

fn apply(
    alloc: Global,
    database: &mut Database,
    change: &Change,
    id: TxnId,
) -> Result<String, CaseError>
    requires tables { IsChangeOf database.old.schema.description.tables change.now }
    ensures schema { database.new.schema ≡ database.old.schema }
{
    let applied = database.apply(alloc, change, id);
    answer(alloc, &applied)
}

/// Carries out a change as the commit of this number, and gives what it did.
pub(crate) fn applied(
    alloc: Global,
    database: &mut Database,
    value: &Value,
    number: usize,
) -> Result<Applied, CaseError>
    ensures schema { database.new.schema ≡ database.old.schema }
    ensures touched { IfOk result (AreTouchedOf database.old.schema.description.tables) }
{
    let id = commit_at(number)?;
    let change = read(alloc, database.schema(), value)?;
    match database.apply(alloc, &change, id) {
        Ok(applied) => Ok(applied),
        Err(_) => Err(CaseError::Malformed),
    }
}

fn step(
    alloc: Global,
    database: &mut Database,
    value: &Value,
    number: usize,
) -> Result<String, CaseError>
    ensures schema { database.new.schema ≡ database.old.schema }
{
    let id = commit_at(number)?;
    let change = read(alloc, database.schema(), value)?;
    apply(alloc, database, &change, id)
}

// Takes a step (`step`). Where there is no memory to apply its change nothing is changed, and it is applied again.
fn step_again(
    alloc: Global,
    database: &mut Database,
    value: &Value,
    number: usize,
) -> Result<String, CaseError>
    ensures schema { database.new.schema ≡ database.old.schema }
{
    let answer = step(alloc, database, value, number);
    if !is_refused(&answer) {
        return answer;
    }
    step(alloc, database, value, number)
}

fn steps(alloc: Global, database: &mut Database, changes: &[Value]) -> Result<(), CaseError>
    ensures schema { database.new.schema ≡ database.old.schema }
{
    for (number, change) in changes.iter().enumerate() {
        let _ = step_again(alloc, database, change, number)?;
    }
    Ok(())
}

/// The database after the changes that fit, one after the other.
pub(crate) fn after(
    alloc: Global,
    schema: &Schema,
    changes: &[Value],
) -> Result<Box<Database>, CaseError>
    ensures schema { IfOk result (λ database. database.value.schema ≡ schema.now) }
{
    let mut database = Box::new(alloc, Database::empty(alloc, schema)?)?;
    steps(alloc, &mut database, changes)?;
    Ok(database)
}

/// `["database", [CHANGE, ..]]`: the database after those of the changes that fit.
pub(crate) fn database(
    alloc: Global,
    schema: &Schema,
    parts: &[Value],
) -> Result<String, CaseError> {
    let json = after(alloc, schema, list(parts, 1)?)?.to_json(alloc)?;
    text(alloc, &json)
}

/// `["told", [CHANGE, ..], CHANGE]`: what applying the last one tells, or why it doesn't fit.
pub(crate) fn told(alloc: Global, schema: &Schema, parts: &[Value]) -> Result<String, CaseError> {
    let changes = list(parts, 1)?;
    let last = part(parts, 2)?;
    let mut database = after(alloc, schema, changes)?;
    step(alloc, &mut database, last, changes.len())
}

// What the difference of two databases is written as.
fn difference_of(alloc: Global, old: &Database, new: &Database) -> Result<String, CaseError>
    requires schema { old.now.schema ≡ new.now.schema }
{
    let change = Database::diff(alloc, old, new)?;
    written(alloc, old.schema(), &change)
}

// The difference to the database that a step leads to.
fn difference_by(
    alloc: Global,
    old: &Database,
    changes: &[Value],
    last: &Value,
) -> Result<String, CaseError> {
    let mut new = after(alloc, old.schema(), changes)?;
    let _ = step(alloc, &mut new, last, changes.len())?;
    difference_of(alloc, old, &new)
}

/// `["difference of databases", [CHANGE, ..], CHANGE]`: the difference from the database before the last change to
/// the one after it.
pub(crate) fn difference(
    alloc: Global,
    schema: &Schema,
    parts: &[Value],
) -> Result<String, CaseError> {
    let changes = list(parts, 1)?;
    let last = part(parts, 2)?;
    let old = after(alloc, schema, changes)?;
    difference_by(alloc, &old, changes, last)
}
