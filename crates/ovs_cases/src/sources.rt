//! Transactions of a source, one after the other.

ghost use Rattle.std.specs.Prelude.{IfSome};
ghost use Rattle.ovs_rows.specs.Change.{IsChangeOf};

use crate::case::{add, count, list, text};
use crate::case_error::{CaseError, is_refused, is_so};
use ovs_case_lines::list_in;
use ovs_links::Link;
use ovs_locks::LockTable;
use ovs_rows::Change;
use ovs_source::{FreshRows, Outcome, Source, SourceError};
use ovs_types::{RowId, Schema, Text, TxnId};
use serde_json::Value;
use std::alloc::Global;

fn commit_id(parts: &[Value]) -> Result<TxnId, CaseError> {
    TxnId::read(text(parts, 0)?).ok().ok_or(CaseError::BadId)
}

fn row_id(parts: &[Value]) -> Result<RowId, CaseError> {
    RowId::read(text(parts, 1)?).ok().ok_or(CaseError::BadId)
}

// The locks that sessions asked for, each a list of the session and the name.
fn locks_of(alloc: Global, asked: &[Value]) -> Result<LockTable, CaseError> {
    let mut locks = LockTable::new(alloc);
    for one in asked {
        let parts = list_in(one)?;
        let name = Text::new(alloc, text(parts, 1)?)?;
        if locks.lock(alloc, count(parts, 0)?, &name).is_err() {
            return Err(CaseError::Malformed);
        }
    }
    Ok(locks)
}

fn refusal(error: SourceError) -> Result<&'static str, CaseError> {
    match error {
        SourceError::IdTaken => Ok("id taken"),
        SourceError::RowIdsSpent => Ok("row ids spent"),
        SourceError::Full => Ok("full"),
        SourceError::NoMemory => Err(CaseError::Refused),
    }
}

fn change_text(alloc: Global, schema: &Schema, change: &Change) -> Result<String, CaseError>
    requires tables { IsChangeOf schema.now.description.tables change.now }
{
    Ok(change.to_json(alloc, schema)?.to_string(alloc)?)
}

/// The link's ids and its change.
pub(crate) fn link_text(alloc: Global, schema: &Schema, link: &Link) -> Result<String, CaseError>
    requires tables { IsChangeOf schema.now.description.tables link.now.change }
{
    let change = change_text(alloc, schema, link.change())?;
    let prev = link.prev().to_text(alloc)?;
    let id = link.id().to_text(alloc)?;
    Ok(format!(in alloc;
        " link {} {} {}",
        prev.as_str(),
        id.as_str(),
        change.as_str()
    )?)
}

fn outcome(alloc: Global, schema: &Schema, outcome: &Outcome) -> Result<String, CaseError>
    requires tables { IfSome outcome.now.link (λ l. IsChangeOf schema.now.description.tables l.change) }
{
    let mut told = outcome.results.as_value().to_string(alloc)?;
    if let Some(link) = &outcome.link {
        told.push_str(link_text(alloc, schema, link)?.as_str())?;
    }
    Ok(told)
}

fn transaction(
    alloc: Global,
    source: &mut Source,
    fresh: &mut FreshRows,
    locks: &LockTable,
    parts: &[Value],
) -> Result<String, CaseError> {
    let id = commit_id(parts)?;
    let session_id = count(parts, 1)?;
    match source.transact(alloc, session_id, list(parts, 2)?, id, fresh, locks) {
        Ok(done) => outcome(alloc, source.store().schema(), &done),
        Err(error) => Ok(String::from_str(alloc, refusal(error)?)?),
    }
}

// Carries out a transaction (`transaction`). Where there is no memory for it nothing is committed, and it is asked again.
fn transaction_again(
    alloc: Global,
    source: &mut Source,
    fresh: &mut FreshRows,
    locks: &LockTable,
    parts: &[Value],
) -> Result<String, CaseError> {
    let held = source.store().len();
    let answer = transaction(alloc, source, fresh, locks, parts);
    if !is_refused(&answer) {
        return answer;
    }
    is_so(source.store().len() == held)?;
    transaction(alloc, source, fresh, locks, parts)
}

// What each transaction answers, one after another.
fn transactions(
    alloc: Global,
    source: &mut Source,
    fresh: &mut FreshRows,
    locks: &LockTable,
    asked: &[Value],
) -> Result<String, CaseError> {
    let mut told = String::new(alloc);
    for one in asked {
        let parts = list_in(one)?;
        let answer = transaction_again(alloc, source, fresh, locks, parts)?;
        add(&mut told, answer.as_str())?;
    }
    Ok(told)
}

/// `["source", ROW-ID, [[SESSION, LOCK], ..], [[ID, SESSION, [OPERATION, ..]], ..]]`: what each transaction answers, with the link that
/// it makes, if it makes one. Rows get ids from the first on.
pub(crate) fn source(alloc: Global, schema: &Schema, parts: &[Value]) -> Result<String, CaseError> {
    let asked = list(parts, 3)?;
    let mut fresh = FreshRows::new(row_id(parts)?);
    let locks = locks_of(alloc, list(parts, 2)?)?;
    let mut source = Source::new(alloc, schema)?;
    transactions(alloc, &mut source, &mut fresh, &locks, asked)
}
