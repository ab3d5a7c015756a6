//! Requests that are passed on, and their answers.

use crate::case::{add, count, list, part, text, word};
use crate::case_error::{CaseError, called, is_refused, is_so};
use crate::messages::text_of;
use ovs_authority::{Request, Response};
use ovs_case_lines::list_in;
use ovs_desk::{ForwardError, Forwards, StandingAnswer};
use ovs_json::{Json, NoMemory, SessionId};
use ovs_types::TxnId;
use ovs_wire::{Id, Message, Method, Params};
use serde_json::Value;
use std::alloc::Global;

fn refusal(error: ForwardError) -> Result<&'static str, CaseError> {
    match error {
        ForwardError::Full => Ok("full"),
        ForwardError::Spent => Ok("spent"),
        ForwardError::NoMemory => Err(NoMemory.into()),
    }
}

fn request(alloc: Global) -> Result<Request, CaseError> {
    Ok(Request {
        method: Method::new(String::from_str(alloc, "transact")?),
        params: Params::new(Vec::new(alloc)),
    })
}

fn send(alloc: Global, forwards: &mut Forwards, parts: &[Value]) -> Result<String, CaseError> {
    let id = Id::new(part(parts, 2)?.clone()?).ok_or(CaseError::Malformed)?;
    match forwards.send(count(parts, 1)?, id, request(alloc)?) {
        Ok(number) => Ok(format!(in alloc; "{number}")?),
        Err(unsent) => word(alloc, refusal(unsent.error)?),
    }
}

// Sends so many requests of one session, and tells what the last of them is answered.
fn send_many(alloc: Global, forwards: &mut Forwards, parts: &[Value]) -> Result<String, CaseError> {
    let mut told = word(alloc, "none")?;
    for _ in 0..count(parts, 3)? {
        told = send(alloc, forwards, parts)?;
    }
    Ok(told)
}

/// Where the answers of the cases stand, so that one that tells that the source was lost stands elsewhere.
pub(crate) fn standing() -> Result<TxnId, CaseError> {
    TxnId::read("00000000-0000-0001-0000-000000000000")
        .ok()
        .ok_or(CaseError::BadId)
}

/// Whether an answer is due, which tells that the source was lost.
pub(crate) fn is_lost(standing: Option<TxnId>) -> bool {
    match standing {
        Some(id) => id.is_start(),
        None => false,
    }
}

fn told(alloc: Global, message: &Option<Message>) -> Result<String, CaseError> {
    match message {
        Some(message) => text_of(alloc, message),
        None => word(alloc, "nothing"),
    }
}

fn reply(alloc: Global, forwards: &mut Forwards, parts: &[Value]) -> Result<String, CaseError> {
    let answer = Response {
        result: Json::new(part(parts, 2)?.clone()?),
        error: Json::new(Value::Null),
    };
    let answer = StandingAnswer {
        answer,
        standing: standing()?,
    };
    match forwards.reply(count(parts, 1)?, answer) {
        Ok(()) => word(alloc, "ok"),
        Err(_) => word(alloc, "unknown"),
    }
}

// What a session is given. Where there is no memory for it nothing is changed, and it was to be told that the source was lost: an
// answer that came is given without memory.
fn collect(
    alloc: Global,
    forwards: &mut Forwards,
    session_id: SessionId,
) -> Result<String, CaseError> {
    let answer = called(forwards.collect(alloc, session_id));
    if is_refused(&answer) {
        is_so(is_lost(forwards.standing(session_id)))?;
    }
    told(alloc, &answer?)
}

fn event(alloc: Global, forwards: &mut Forwards, parts: &[Value]) -> Result<String, CaseError> {
    match text(parts, 0)? {
        "send" => send(alloc, forwards, parts),
        "send many" => send_many(alloc, forwards, parts),
        "up" => told(alloc, &forwards.take_up()),
        "reply" => reply(alloc, forwards, parts),
        "collect" => collect(alloc, forwards, count(parts, 1)?),
        "lost" => {
            forwards.source_lost();
            word(alloc, "lost")
        }
        "end" => {
            forwards.end_session(count(parts, 1)?);
            word(alloc, "ended")
        }
        _ => Err(CaseError::Malformed),
    }
}

/// `["forwards", [EVENT, ..]]`, where an event is `["send", SESSION, ID]`, `["send many", SESSION, ID, TIMES]`, `["up"]`,
/// `["reply", NUMBER, RESULT]`, `["collect", SESSION]`, `["lost"]` or `["end", SESSION]`: what each answers.
pub(crate) fn forwards(alloc: Global, parts: &[Value]) -> Result<String, CaseError> {
    let mut forwards = Forwards::new(alloc);
    let mut answers = String::new(alloc);
    for one in list(parts, 1)? {
        let parts = list_in(one)?;
        let answer = event(alloc, &mut forwards, parts)?;
        add(&mut answers, answer.as_str())?;
    }
    Ok(answers)
}
