//! What every authority answers, whichever it is: the source's desk and a relay's.

use crate::case::{add, list, text, word};
use crate::case_error::CaseError;
use crate::desks::{ended, session, verb};
use ovs_authority::{Ask, Authority, Verb};
use ovs_case_lines::list_in;
use ovs_desk::RelayDesk;
use ovs_json::SessionId;
use ovs_source::{FreshRows, Source, SourceDesk};
use ovs_types::{RowId, Schema, Text, TxnId};
use ovs_wire::{Id, Message};
use serde_json::Value;
use std::alloc::Global;

// What a message is, in a word.
fn kind(message: &Option<Message>) -> &'static str {
    match message {
        Some(Message::Reply { error, .. }) => {
            if error.as_value().is_null() {
                "reply"
            } else {
                "refusal"
            }
        }
        Some(Message::Notice { .. }) => "notice",
        Some(Message::Request { .. }) => "request",
        None => "nothing",
    }
}

fn asked<A: Authority>(
    alloc: Global,
    authority: &mut A,
    session_id: SessionId,
    verb: Verb,
) -> Result<String, CaseError> {
    let id = Id::from_number(session_id);
    word(
        alloc,
        kind(&authority.ask(alloc, session_id, Ask { id, verb })?),
    )
}

fn collected<A: Authority>(
    alloc: Global,
    authority: &mut A,
    session_id: SessionId,
) -> Result<String, CaseError> {
    word(alloc, kind(&authority.collect(alloc, session_id)?))
}

fn event<A: Authority>(
    alloc: Global,
    authority: &mut A,
    parts: &[Value],
) -> Result<String, CaseError> {
    match text(parts, 0)? {
        "told" => collected(alloc, authority, session(parts)?),
        "end" => ended(alloc, authority, session(parts)?),
        what => asked(alloc, authority, session(parts)?, verb(alloc, what, parts)?),
    }
}

fn answers<A: Authority>(
    alloc: Global,
    authority: &mut A,
    events: &[Value],
) -> Result<String, CaseError> {
    let mut answers = String::new(alloc);
    for one in events {
        let parts = list_in(one)?;
        let answer = event(alloc, authority, parts)?;
        add(&mut answers, answer.as_str())?;
    }
    Ok(answers)
}

fn of_source(alloc: Global, schema: &Schema, events: &[Value]) -> Result<String, CaseError> {
    let source = Source::new(alloc, schema)?;
    let first = TxnId::from(1u128 << 64);
    let mut desk = SourceDesk::new(alloc, source, FreshRows::new(RowId::from(1u128)), first);
    answers(alloc, &mut desk, events)
}

fn of_relay(alloc: Global, events: &[Value]) -> Result<String, CaseError> {
    let mut desk = RelayDesk::new(alloc, Text::new(alloc, "net")?);
    desk.found_source();
    answers(alloc, &mut desk, events)
}

/// `["authorities", [EVENT, ..]]`, where an event is `["lock", SESSION, NAME]`, `["steal", SESSION, NAME]`, `["unlock", SESSION,
/// NAME]`, `["told", SESSION]` or `["end", SESSION]`: what kind of answer each gets from the source's desk,
/// and the same from a relay's.
pub(crate) fn authorities(
    alloc: Global,
    schema: &Schema,
    parts: &[Value],
) -> Result<String, CaseError> {
    let events = list(parts, 1)?;
    let source = of_source(alloc, schema, events)?;
    let relay = of_relay(alloc, events)?;
    if source.as_str() == relay.as_str() {
        Ok(source)
    } else {
        Ok(format!(in alloc; "{} / {}", source.as_str(), relay.as_str())?)
    }
}
