//! A source's desk, and what it answers to sessions.

use crate::case::{add, count, list, part, text, word};
use crate::case_error::CaseError;
use crate::messages::text_of;
use ovs_authority::{Ask, Authority, Verb};
use ovs_case_lines::list_in;
use ovs_json::SessionId;
use ovs_source::{FreshRows, Source, SourceDesk};
use ovs_types::{RowId, Schema, Text, TxnId};
use ovs_wire::{Id, Message};
use serde_json::Value;
use std::alloc::Global;

/// The session of an event.
pub(crate) fn session(parts: &[Value]) -> Result<SessionId, CaseError> {
    count(parts, 1)
}

fn name(alloc: Global, parts: &[Value]) -> Result<Text, CaseError> {
    Ok(Text::new(alloc, text(parts, 2)?)?)
}

fn operations(parts: &[Value]) -> Result<Vec<Value>, CaseError> {
    match part(parts, 2)?.clone()? {
        Value::Array(operations) => Ok(operations),
        _ => Err(CaseError::Malformed),
    }
}

/// What an event asks.
pub(crate) fn verb(alloc: Global, what: &str, parts: &[Value]) -> Result<Verb, CaseError> {
    match what {
        "transact" => Ok(Verb::Transact(operations(parts)?)),
        "lock" => Ok(Verb::Lock(name(alloc, parts)?)),
        "steal" => Ok(Verb::Steal(name(alloc, parts)?)),
        "unlock" => Ok(Verb::Unlock(name(alloc, parts)?)),
        _ => Err(CaseError::Malformed),
    }
}

/// A message as text.
pub(crate) fn told(alloc: Global, message: &Option<Message>) -> Result<String, CaseError> {
    match message {
        Some(message) => text_of(alloc, message),
        None => word(alloc, "nothing"),
    }
}

/// What a session is told at once; the request's id is the session's number.
pub(crate) fn asked<A: Authority>(
    alloc: Global,
    authority: &mut A,
    session_id: SessionId,
    verb: Verb,
) -> Result<String, CaseError> {
    let id = Id::from_number(session_id);
    told(alloc, &authority.ask(alloc, session_id, Ask { id, verb })?)
}

/// What a session is told next.
pub(crate) fn collected<A: Authority>(
    alloc: Global,
    authority: &mut A,
    session_id: SessionId,
) -> Result<String, CaseError> {
    told(alloc, &authority.collect(alloc, session_id)?)
}

/// A session ends.
pub(crate) fn ended<A: Authority>(
    alloc: Global,
    authority: &mut A,
    session_id: SessionId,
) -> Result<String, CaseError> {
    authority.end_session(session_id);
    word(alloc, "ended")
}

// The ids of the next link, from which commit to which.
fn link(alloc: Global, desk: &mut SourceDesk) -> Result<String, CaseError> {
    match desk.next_link() {
        Some(link) => {
            let prev = link.prev().to_text(alloc)?;
            let id = link.id().to_text(alloc)?;
            Ok(format!(in alloc; "link {} {}", prev.as_str(), id.as_str())?)
        }
        None => word(alloc, "no link"),
    }
}

fn event(alloc: Global, desk: &mut SourceDesk, parts: &[Value]) -> Result<String, CaseError> {
    match text(parts, 0)? {
        "link" => link(alloc, desk),
        "told" => collected(alloc, desk, session(parts)?),
        "end" => ended(alloc, desk, session(parts)?),
        what => asked(alloc, desk, session(parts)?, verb(alloc, what, parts)?),
    }
}

fn opened(alloc: Global, schema: &Schema, parts: &[Value]) -> Result<SourceDesk, CaseError> {
    let row = RowId::read(text(parts, 1)?).ok().ok_or(CaseError::BadId)?;
    let commit = TxnId::read(text(parts, 2)?).ok().ok_or(CaseError::BadId)?;
    let source = Source::new(alloc, schema)?;
    Ok(SourceDesk::new(alloc, source, FreshRows::new(row), commit))
}

// What the desk answers to the events, one after another.
fn answers(alloc: Global, desk: &mut SourceDesk, events: &[Value]) -> Result<String, CaseError> {
    let mut answers = String::new(alloc);
    for one in events {
        let parts = list_in(one)?;
        let answer = event(alloc, desk, parts)?;
        add(&mut answers, answer.as_str())?;
    }
    Ok(answers)
}

/// `["desk", ROW-ID, COMMIT-ID, [EVENT, ..]]`, where an event is `["transact", SESSION, [OPERATION, ..]]`, `["lock", SESSION,
/// NAME]`, `["steal", SESSION, NAME]`, `["unlock", SESSION, NAME]`, `["told", SESSION]`, `["end", SESSION]` or `["link"]`: the
/// message that each answers, or the ids of the link. Rows and commits get ids from the first ones on.
pub(crate) fn desk(alloc: Global, schema: &Schema, parts: &[Value]) -> Result<String, CaseError> {
    let events = list(parts, 3)?;
    let mut desk = opened(alloc, schema, parts)?;
    answers(alloc, &mut desk, events)
}
