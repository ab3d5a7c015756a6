//! Sessions with an upstream. In what is heard and in what is told a letter stands for the id that is written with it, `0`
//! for the id of zeros and `r` for a row's.

ghost use Rattle.std.specs.Prelude.{◌≡◌};
ghost use Rattle.ovs_links.specs.Sets.{AllOf, IsOfTables};
ghost use Rattle.ovs_upstream.specs.Hearing.{links_in};

use crate::case::{list, text, word};
use crate::case_error::{CaseError, is_refused, is_so};
use crate::changes::after;
use crate::folds::{shortened, spelled_out};
use crate::messages::text_of;
use crate::sources::link_text;
use ovs_authority::Response;
use ovs_case_lines::commit;
use ovs_links::Link;
use ovs_types::{NoMemory, Schema};
use ovs_upstream::{UpError, UpEvent, UpSession};
use ovs_wire::{Message, MessageError};
use serde_json::Value;
use std::alloc::Global;

/// The message that a value is, its ids spelled out.
pub(crate) fn message_of(alloc: Global, value: &Value) -> Result<Message, CaseError> {
    let text = spelled_out(alloc, value)?;
    match Message::read(alloc, text.as_bytes()) {
        Ok(message) => Ok(message),
        Err(MessageError::NoMemory) => Err(NoMemory.into()),
        Err(_) => Err(CaseError::Malformed),
    }
}

fn refusal(error: UpError) -> Result<&'static str, CaseError> {
    match error {
        UpError::Ended => Ok("ended"),
        UpError::OtherSchema => Ok("other schema"),
        UpError::BadReply => Ok("bad reply"),
        UpError::BadId => Ok("bad id"),
        UpError::Change(fault) => Ok(fault.word()),
        UpError::NoMemory => Err(CaseError::Refused),
    }
}

fn links_text(alloc: Global, schema: &Schema, links: &[Link]) -> Result<String, CaseError>
    requires tables { AllOf (IsOfTables schema.now.description.tables) links.now }
{
    match links {
        [link] => link_text(alloc, schema, link),
        _ => Err(CaseError::Malformed),
    }
}

// An answer to a request that was passed on.
fn reply_text(alloc: Global, number: u64, answer: &Response) -> Result<String, CaseError> {
    let value = answer.result.as_value().to_string(alloc)?;
    let error = answer.error.as_value().to_string(alloc)?;
    Ok(format!(in alloc; "reply for {number}: {} {}", value.as_str(), error.as_str())?)
}

fn event_text(alloc: Global, schema: &Schema, event: &UpEvent) -> Result<String, CaseError>
    requires tables { AllOf (IsOfTables schema.now.description.tables) (links_in event.now) }
{
    match event {
        UpEvent::Links(links) => links_text(alloc, schema, links.as_slice()),
        UpEvent::Send(message) => text_of(alloc, message),
        UpEvent::ReplyFor { number, answer } => reply_text(alloc, *number, answer),
        UpEvent::Locked(name) => Ok(format!(in alloc; "locked {}", name.as_str())?),
        UpEvent::Stolen(name) => Ok(format!(in alloc; "stolen {}", name.as_str())?),
        UpEvent::Nothing => word(alloc, "nothing"),
    }
}

// What a message comes to.
fn heard(
    alloc: Global,
    schema: &Schema,
    session: &mut UpSession,
    message: Message,
) -> Result<String, CaseError>
    requires schema { session.old.schema ≡ schema.now }
    ensures schema { session.new.schema ≡ schema.now }
{
    match session.take_message(alloc, message) {
        Ok(event) => event_text(alloc, schema, &event),
        Err(error) => word(alloc, refusal(error)?),
    }
}

// How a message is heard, which changes nothing.
#[derive(Clone, Copy, PartialEq, Eq)]
enum HeardAs {
    // There is no memory to hear it.
    Unheard,
    // Without memory: it may not come, leads to an id that may not be, means nothing, or is handed on as it came.
    AtOnce,
    // All else.
    Made,
}

fn heard_as(came: &Result<ovs_upstream::Heard, UpError>) -> HeardAs {
    match came {
        Err(UpError::NoMemory) => HeardAs::Unheard,
        Err(UpError::BadReply | UpError::BadId | UpError::Ended) => HeardAs::AtOnce,
        Err(UpError::OtherSchema | UpError::Change(_)) => HeardAs::Made,
        Ok(heard) => match &heard.event {
            UpEvent::ReplyFor { .. } | UpEvent::Nothing => HeardAs::AtOnce,
            _ => HeardAs::Made,
        },
    }
}

fn hears_as(alloc: Global, session: &UpSession, message: &Value) -> Result<HeardAs, CaseError> {
    let message = message_of(alloc, message)?;
    Ok(heard_as(&session.hear(alloc, message)))
}

// Whether the session is over, which each message is answered then.
fn is_over(alloc: Global, session: &UpSession, message: &Value) -> Result<bool, CaseError> {
    let message = message_of(alloc, message)?;
    Ok(matches!(session.hear(alloc, message), Err(UpError::Ended)))
}

// What a message comes to. Where there is no memory to hear it, it is heard again; where there is none to take it the session is over.
// Neither is so of what is heard without memory.
fn heard_again(
    alloc: Global,
    schema: &Schema,
    session: &mut UpSession,
    message: &Value,
) -> Result<String, CaseError>
    requires schema { session.old.schema ≡ schema.now }
    ensures schema { session.new.schema ≡ schema.now }
{
    let first = hears_as(alloc, session, message)?;
    if first == HeardAs::Unheard {
        is_so(hears_as(alloc, session, message)? == HeardAs::Made)?;
    }
    let taken = message_of(alloc, message)?;
    let answer = heard(alloc, schema, session, taken);
    if is_refused(&answer) {
        is_so(first != HeardAs::AtOnce && is_over(alloc, session, message)?)?;
    }
    answer
}

fn first(alloc: Global, session: &UpSession) -> Result<String, CaseError> {
    let requests = session.first_requests(alloc)?;
    match requests.as_slice() {
        [request] => text_of(alloc, request),
        _ => Err(CaseError::Malformed),
    }
}

fn all(
    alloc: Global,
    schema: &Schema,
    session: &mut UpSession,
    messages: &[Value],
) -> Result<String, CaseError>
    requires schema { session.old.schema ≡ schema.now }
{
    let mut answers = first(alloc, session)?;
    for message in messages {
        let answer = heard_again(alloc, schema, session, message)?;
        answers.push_str(" | ")?;
        answers.push_str(answer.as_str().trim())?;
    }
    shortened(alloc, answers.as_str())
}

/// `["upstream", ASKED, [MESSAGE, ..]]`: the first request of a session that asks for this id, and what each message comes to.
pub(crate) fn upstream(
    alloc: Global,
    schema: &Schema,
    parts: &[Value],
) -> Result<String, CaseError> {
    let mut session = UpSession::open(alloc, schema, commit(text(parts, 1)?)?)?;
    all(alloc, schema, &mut session, list(parts, 2)?)
}

fn taken(
    alloc: Global,
    schema: &Schema,
    session: &mut UpSession,
    messages: &[Value],
) -> Result<String, CaseError>
    requires schema { session.old.schema ≡ schema.now }
{
    let mut answers = first(alloc, session)?;
    for message in messages {
        let taken = message_of(alloc, message)?;
        let answer = heard(alloc, schema, session, taken)?;
        answers.push_str(" | ")?;
        answers.push_str(answer.as_str().trim())?;
    }
    shortened(alloc, answers.as_str())
}

/// `["resumed", ASKED, [CHANGE, ..], [MESSAGE, ..]]`: the same of a session that knows the database at that id, which is the one after these changes.
/// Each message is taken at once.
pub(crate) fn resumed(
    alloc: Global,
    schema: &Schema,
    parts: &[Value],
) -> Result<String, CaseError> {
    let database = after(alloc, schema, list(parts, 2)?)?;
    let asked = commit(text(parts, 1)?)?;
    let mut session = UpSession::resume(alloc, database.copy(alloc)?, asked)?;
    taken(alloc, schema, &mut session, list(parts, 3)?)
}
