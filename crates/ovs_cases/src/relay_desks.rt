//! A relay's desk: what goes up, and what it answers to sessions.

use crate::case::{add, count, list, part, text, word};
use crate::case_error::{CaseError, called, is_refused, is_so};
use crate::desks::{ended, session, told, verb};
use crate::forwards::{is_lost, standing};
use ovs_authority::{Ask, Authority, Response};
use ovs_case_lines::list_in;
use ovs_desk::{BadReply, RelayDesk, SourceMessage, StandingAnswer};
use ovs_json::{Json, SessionId};
use ovs_types::Text;
use ovs_wire::Id;
use serde_json::Value;
use std::alloc::Global;

// The result of a reply and its error, which is null where it isn't given.
fn answer(parts: &[Value]) -> Result<Response, CaseError> {
    let result = part(parts, 2)?.clone()?;
    let error = match parts.get(3) {
        Some(error) => error.clone()?,
        None => Value::Null,
    };
    Ok(Response {
        result: Json::new(result),
        error: Json::new(error),
    })
}

fn name(alloc: Global, parts: &[Value]) -> Result<Text, CaseError> {
    Ok(Text::new(alloc, text(parts, 1)?)?)
}

// What the source says.
fn said(alloc: Global, what: &str, parts: &[Value]) -> Result<SourceMessage, CaseError> {
    match what {
        "reply" => Ok(SourceMessage::ReplyFor {
            number: count(parts, 1)?,
            answer: StandingAnswer {
                answer: answer(parts)?,
                standing: standing()?,
            },
        }),
        "locked" => Ok(SourceMessage::Locked(name(alloc, parts)?)),
        _ => Ok(SourceMessage::Stolen(name(alloc, parts)?)),
    }
}

fn heard(alloc: Global, desk: &mut RelayDesk, message: SourceMessage) -> Result<String, CaseError> {
    match desk.heard(message) {
        Ok(()) => word(alloc, "ok"),
        Err(BadReply) => word(alloc, "bad reply"),
    }
}

fn up(alloc: Global, desk: &mut RelayDesk) -> Result<String, CaseError> {
    told(alloc, &called(desk.take_up(alloc))?)
}

// What a session asks; the request's id is the session's number.
fn asked(
    alloc: Global,
    desk: &mut RelayDesk,
    what: &str,
    parts: &[Value],
) -> Result<String, CaseError> {
    let session_id = session(parts)?;
    let verb = verb(alloc, what, parts)?;
    let ask = Ask {
        id: Id::from_number(session_id),
        verb,
    };
    told(alloc, &called(desk.ask(alloc, session_id, ask))?)
}

// What a session is told next. An answer of the source that came is told without memory.
fn collected(
    alloc: Global,
    desk: &mut RelayDesk,
    session_id: SessionId,
) -> Result<String, CaseError> {
    let answer = called(desk.collect(alloc, session_id));
    if is_refused(&answer) {
        let due = desk.standing(session_id);
        is_so(due.is_none() || is_lost(due))?;
    }
    told(alloc, &answer?)
}

// What becomes of the desk and its source.
fn of_source(alloc: Global, desk: &mut RelayDesk, what: &str) -> Result<String, CaseError> {
    match what {
        "found" => desk.found_source(),
        _ => desk.lost_source(),
    }
    word(alloc, what)
}

fn event(alloc: Global, desk: &mut RelayDesk, parts: &[Value]) -> Result<String, CaseError> {
    match text(parts, 0)? {
        "up" => up(alloc, desk),
        "told" => collected(alloc, desk, session(parts)?),
        "end" => ended(alloc, desk, session(parts)?),
        what => match what {
            "found" | "lost" => of_source(alloc, desk, what),
            "reply" | "locked" | "stolen" => heard(alloc, desk, said(alloc, what, parts)?),
            _ => asked(alloc, desk, what, parts),
        },
    }
}

// Whether memory isn't taken for an event: a transaction goes up, or nothing, or a session leaves a lock.
fn is_done_at_once(parts: &[Value], answer: &str) -> Result<bool, CaseError> {
    match text(parts, 0)? {
        "up" => Ok(answer == "nothing" || answer.split_once("\"transact\"").is_some()),
        "unlock" => Ok(answer.split_once("\"error\":null").is_some()),
        _ => Ok(false),
    }
}

// Carries out an event (`event`). Where there is no memory for its call nothing is changed, and it is called again.
fn event_again(alloc: Global, desk: &mut RelayDesk, parts: &[Value]) -> Result<String, CaseError> {
    let answer = event(alloc, desk, parts);
    if !is_refused(&answer) {
        return answer;
    }
    let answer = event(alloc, desk, parts)?;
    is_so(!is_done_at_once(parts, answer.as_str())?)?;
    Ok(answer)
}

/// `["relay desk", DATABASE, [EVENT, ..]]`, where an event is `["transact", SESSION, [OPERATION, ..]]`, `["lock", SESSION,
/// NAME]`, `["steal", SESSION, NAME]`, `["unlock", SESSION, NAME]`, `["told", SESSION]`, `["end", SESSION]`, `["up"]`, `["found"]`,
/// `["lost"]`, `["reply", NUMBER, RESULT]` with perhaps an error behind it, `["locked", NAME]` or `["stolen", NAME]`: what each
/// answers, sends up or comes to.
pub(crate) fn relay_desk(alloc: Global, parts: &[Value]) -> Result<String, CaseError> {
    let mut desk = RelayDesk::new(alloc, name(alloc, parts)?);
    let mut answers = String::new(alloc);
    for one in list(parts, 2)? {
        let parts = list_in(one)?;
        let answer = event_again(alloc, &mut desk, parts)?;
        add(&mut answers, answer.as_str())?;
    }
    Ok(answers)
}
