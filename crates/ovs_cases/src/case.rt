//! A case by its first word.

use crate::case_error::CaseError;
use crate::{
    authorities, changes, commands, data, desks, devices, folds, forwards, full_stores, ids, locks,
    messages, queries, readers, relay_desks, schemas, scripts, sources, stores, stories, streams,
    upstreams,
};
use ovs_case_lines::{CaseTable, count_in, list_in, text_in};
use ovs_types::Schema;
use serde_json::Value;
use std::alloc::Global;

/// The argument at a place; the word is at 0.
pub(crate) fn part(parts: &[Value], at: usize) -> Result<&Value, CaseError> {
    parts.get(at).ok_or(CaseError::Malformed)
}

/// The same where it is a text.
pub(crate) fn text(parts: &[Value], at: usize) -> Result<&str, CaseError> {
    Ok(text_in(part(parts, at)?)?)
}

/// The same where it is a list.
pub(crate) fn list(parts: &[Value], at: usize) -> Result<&[Value], CaseError> {
    Ok(list_in(part(parts, at)?)?)
}

/// The same where it is a number.
pub(crate) fn count(parts: &[Value], at: usize) -> Result<u64, CaseError> {
    Ok(count_in(part(parts, at)?)?)
}

/// A word as an answer.
pub(crate) fn word(alloc: Global, word: &str) -> Result<String, CaseError> {
    Ok(String::from_str(alloc, word)?)
}

/// Puts an answer behind those before it.
pub(crate) fn add(answers: &mut String, answer: &str) -> Result<(), CaseError> {
    if !answers.is_empty() {
        answers.push_str(" | ")?;
    }
    answers.push_str(answer)?;
    Ok(())
}

/// `true` or `false`.
pub(crate) fn truth(alloc: Global, truth: bool) -> Result<String, CaseError> {
    word(alloc, if truth { "true" } else { "false" })
}

// The cases that are asked of the schema in use.
fn of_schema(
    alloc: Global,
    schema: &Schema,
    what: &str,
    parts: &[Value],
) -> Result<String, CaseError> {
    match what {
        "find" => schemas::find(alloc, schema, parts),
        "change" => changes::change(alloc, schema, parts),
        "same change" => changes::same(alloc, schema, parts),
        "database" => changes::database(alloc, schema, parts),
        "told" => changes::told(alloc, schema, parts),
        "difference of databases" => changes::difference(alloc, schema, parts),
        "store" => stores::store(alloc, schema, parts),
        "fold" => folds::fold(alloc, schema, parts),
        "world" => stories::world(alloc, schema, parts),
        "transact" => queries::transact(alloc, schema, parts),
        "monitor" => queries::monitor(alloc, schema, parts),
        "initial" => queries::initial(alloc, schema, parts),
        "updates" => queries::updates(alloc, schema, parts),
        "source" => sources::source(alloc, schema, parts),
        "desk" => desks::desk(alloc, schema, parts),
        "authorities" => authorities::authorities(alloc, schema, parts),
        "upstream" => upstreams::upstream(alloc, schema, parts),
        "resumed" => upstreams::resumed(alloc, schema, parts),
        "reader" => readers::reader(alloc, schema, parts),
        _ => Err(CaseError::Malformed),
    }
}

// The cases that need none.
fn alone(alloc: Global, what: &str, parts: &[Value]) -> Result<Option<String>, CaseError> {
    let answer = match what {
        "id" => ids::id(alloc, parts)?,
        "row id" => ids::row_id(alloc, parts)?,
        "name" => ids::name(alloc, parts)?,
        "schema" => schemas::schema(alloc, parts)?,
        "schema as JSON" => schemas::json(alloc, parts)?,
        "same schema" => schemas::same(alloc, parts)?,
        "datum" => data::datum(alloc, parts)?,
        "atom" => data::atom(alloc, parts)?,
        "same datum" => data::same(alloc, parts)?,
        "difference" => data::difference(alloc, parts)?,
        "default" => data::default(alloc, parts)?,
        "contains" => data::contains(alloc, parts)?,
        "get" => data::get(alloc, parts)?,
        "includes" => data::includes(alloc, parts)?,
        "has keys" => data::has_keys(alloc, parts)?,
        "frames" => streams::frames(alloc, parts)?,
        "cut anywhere" => streams::cut_anywhere(alloc, parts)?,
        "message" => messages::message(alloc, parts)?,
        "locks" => locks::locks(alloc, parts)?,
        "forwards" => forwards::forwards(alloc, parts)?,
        "relay desk" => relay_desks::relay_desk(alloc, parts)?,
        "counted" => devices::counted(alloc, parts)?,
        "fold bytes" => folds::fold_bytes(alloc, parts)?,
        "world bytes" => stories::world_bytes(alloc, parts)?,
        "script" => scripts::script(alloc, parts)?,
        "silent script" => scripts::over_silence(alloc)?,
        "command line" => commands::command_line(alloc, parts)?,
        "run end" => commands::run_end(alloc, parts)?,
        "unopened" => commands::unopened(alloc, parts)?,
        "unopened for" => commands::unopened_for(alloc, parts)?,
        "unlistened" | "untaken" | "unreached" => commands::unreached(alloc, parts)?,
        "not UTF-8" => commands::not_utf8(alloc)?,
        "full store" => full_stores::full_store(alloc)?,
        _ => return Ok(None),
    };
    Ok(Some(answer))
}

/// The cases of the crates.
pub(crate) struct CrateCases;

impl CaseTable for CrateCases {
    type Error = CaseError;

    fn answer(
        &self,
        alloc: Global,
        schema: Option<&Schema>,
        case: &[Value],
    ) -> Result<String, CaseError> {
        let what = text(case, 0)?;
        match alone(alloc, what, case)? {
            Some(answer) => Ok(answer),
            None => of_schema(alloc, schema.ok_or(CaseError::Malformed)?, what, case),
        }
    }
}
