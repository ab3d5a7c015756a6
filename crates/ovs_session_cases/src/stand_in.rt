//! What stands in for the source at a relay's desk, and what is looked at there once a session has ended.

use crate::session_case_error::SessionCaseError;
use ovs_authority::{Ask, Authority, Response, Verb};
use ovs_desk::{RelayDesk, SourceMessage, StandingAnswer};
use ovs_json::{Json, SessionId, Text};
use ovs_types::TxnId;
use ovs_wire::{Id, Message};
use serde_json::Value;
use std::alloc::Global;

/// The session that is looked at.
pub(crate) const WHO: SessionId = 1;

/// The lock that it asks for.
pub(crate) const LOCK: &str = "l";

// Another session, which asks for the same lock once that one has ended.
const OTHER: SessionId = 2;

// So many messages are taken from a desk at once.
const MOST_MESSAGES: u32 = 64;

/// What stands in for the source: it answers what goes up in order, as long as it has answers.
#[derive(Drop)]
pub(crate) struct StandIn<'a> {
    answers: &'a [Value],
    // The numbers of what it didn't answer.
    open: Vec<u64>,
}

// The number and the method of a request that goes up.
fn parts_of(message: &Message) -> Result<(u64, &str), SessionCaseError> {
    match message {
        Message::Request { method, id, .. } => {
            Ok((
                id.as_number().ok_or(SessionCaseError::Garbled)?,
                method.as_str(),
            ))
        }
        _ => Err(SessionCaseError::Garbled),
    }
}

// The source answers the request of this number.
fn answer(desk: &mut RelayDesk, number: u64, value: Value) -> Result<(), SessionCaseError> {
    let answer = StandingAnswer {
        answer: Response {
            result: Json::new(value),
            error: Json::new(Value::Null),
        },
        standing: TxnId::zero(),
    };
    let message = SourceMessage::ReplyFor { number, answer };
    desk.heard(message).map_err(|_| SessionCaseError::Garbled)
}

impl<'a> StandIn<'a> {
    /// It has these answers, and heard nothing yet.
    pub(crate) fn new(alloc: Global, answers: &'a [Value]) -> StandIn<'a> {
        StandIn {
            answers,
            open: Vec::new(alloc),
        }
    }

    // Answers the request of this number, or keeps it open.
    fn hear(&mut self, desk: &mut RelayDesk, number: u64) -> Result<(), SessionCaseError> {
        let Some((first, later)) = self.answers.split_first() else {
            self.open.push(number)?;
            return Ok(());
        };
        self.answers = later;
        answer(desk, number, first.clone()?)
    }

    /// Takes up what goes up, and answers it. Whether something went up.
    pub(crate) fn take_all(
        &mut self,
        alloc: Global,
        desk: &mut RelayDesk,
    ) -> Result<bool, SessionCaseError> {
        let mut is_any = false;
        for _taken in 0..MOST_MESSAGES {
            let Some(message) = desk.take_up(alloc)? else {
                break;
            };
            let (number, _method) = parts_of(&message)?;
            self.hear(desk, number)?;
            is_any = true;
        }
        Ok(is_any)
    }

    /// Answers all that is open.
    pub(crate) fn answer_open(&self, desk: &mut RelayDesk) -> Result<(), SessionCaseError> {
        for number in self.open.iter() {
            answer(desk, *number, Value::Null)?;
        }
        Ok(())
    }
}

// Whether a desk owes nothing to a session.
fn owes_nothing(
    alloc: Global,
    desk: &mut RelayDesk,
    session_id: SessionId,
) -> Result<bool, SessionCaseError> {
    Ok(desk.collect(alloc, session_id)?.is_none())
}

// Whether nothing goes up but that locks are left.
fn leaves_locks(alloc: Global, desk: &mut RelayDesk) -> Result<bool, SessionCaseError> {
    for _taken in 0..MOST_MESSAGES {
        let Some(message) = desk.take_up(alloc)? else {
            return Ok(true);
        };
        if parts_of(&message)?.1 != "unlock" {
            return Ok(false);
        }
    }
    Ok(false)
}

/// Asks for the lock for a session. What is replied at once is let go.
pub(crate) fn ask_for_lock(
    alloc: Global,
    desk: &mut RelayDesk,
    session_id: SessionId,
) -> Result<(), SessionCaseError> {
    let ask = Ask {
        id: Id::from_number(0),
        verb: Verb::Lock(Text::new(alloc, LOCK)?),
    };
    desk.ask(alloc, session_id, ask)?;
    Ok(())
}

// Whether another session that asks for the lock has it once the source gives it.
fn is_lock_had(alloc: Global, desk: &mut RelayDesk) -> Result<bool, SessionCaseError> {
    ask_for_lock(alloc, desk, OTHER)?;
    let Some(message) = desk.take_up(alloc)? else {
        return Ok(false);
    };
    let (number, method) = parts_of(&message)?;
    if method != "lock" {
        return Ok(false);
    }
    answer(
        desk,
        number,
        ovs_json::under_name(alloc, "locked", Value::Bool(true))?,
    )?;
    match desk.collect(alloc, OTHER)? {
        Some(Message::Notice { method, .. }) => Ok(method.as_str() == "locked"),
        _ => Ok(false),
    }
}

/// Whether nothing is owed to the session, which has ended, and nobody has its lock.
pub(crate) fn is_quiet(alloc: Global, desk: &mut RelayDesk) -> Result<bool, SessionCaseError> {
    let is_silent = owes_nothing(alloc, desk, WHO)?;
    let is_left = leaves_locks(alloc, desk)?;
    let is_had = is_lock_had(alloc, desk)?;
    Ok(is_silent && is_left && is_had && owes_nothing(alloc, desk, WHO)?)
}
