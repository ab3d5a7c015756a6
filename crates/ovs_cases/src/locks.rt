//! Locks of a server, asked for one after the other.

use crate::case::{add, count, list, text, word};
use crate::case_error::{CaseError, is_refused};
use ovs_case_lines::list_in;
use ovs_json::SessionId;
use ovs_locks::{LockError, LockNotice, LockTable};
use ovs_types::Text;
use serde_json::Value;
use std::alloc::Global;

fn name(alloc: Global, parts: &[Value], at: usize) -> Result<Text, CaseError> {
    Ok(Text::new(alloc, text(parts, at)?)?)
}

fn asked(alloc: Global, answer: Result<bool, LockError>) -> Result<String, CaseError> {
    match answer {
        Ok(true) => word(alloc, "true"),
        Ok(false) => word(alloc, "false"),
        Err(LockError::NoMemory) => Err(CaseError::Refused),
        Err(LockError::BadLock) => word(alloc, "bad lock"),
        Err(LockError::AlreadyAsked) => word(alloc, "already asked"),
        Err(LockError::TooMany) => word(alloc, "too many requests"),
    }
}

fn owner(alloc: Global, locks: &LockTable, parts: &[Value]) -> Result<String, CaseError> {
    match locks.owner(&name(alloc, parts, 1)?) {
        Some(session_id) => Ok(format!(in alloc; "{session_id}")?),
        None => word(alloc, "nobody"),
    }
}

fn notice(alloc: Global, notice: &LockNotice) -> Result<String, CaseError> {
    match notice {
        LockNotice::Locked(name) => Ok(format!(in alloc; "locked {}", name.as_str())?),
        LockNotice::Stolen(name) => Ok(format!(in alloc; "stolen {}", name.as_str())?),
    }
}

fn notices(
    alloc: Global,
    locks: &mut LockTable,
    session_id: SessionId,
) -> Result<String, CaseError> {
    let mut told = String::from_str(alloc, "told")?;
    for one in locks
        .notices(alloc, session_id)
        .ok()
        .ok_or(CaseError::Refused)?
    {
        told.push(' ')?;
        told.push_str(notice(alloc, &one)?.as_str())?;
    }
    Ok(told)
}

fn unlock(alloc: Global, locks: &mut LockTable, parts: &[Value]) -> Result<String, CaseError> {
    match locks.unlock(count(parts, 1)?, &name(alloc, parts, 2)?) {
        Ok(()) => word(alloc, "ok"),
        Err(_) => word(alloc, "never asked"),
    }
}

fn event(alloc: Global, locks: &mut LockTable, parts: &[Value]) -> Result<String, CaseError> {
    match text(parts, 0)? {
        "lock" => {
            let name = name(alloc, parts, 2)?;
            asked(alloc, locks.lock(alloc, count(parts, 1)?, &name))
        }
        "steal" => {
            let name = name(alloc, parts, 2)?;
            asked(alloc, locks.steal(alloc, count(parts, 1)?, &name))
        }
        "unlock" => unlock(alloc, locks, parts),
        "owner" => owner(alloc, locks, parts),
        "told" => notices(alloc, locks, count(parts, 1)?),
        "end" => {
            locks.end_session(count(parts, 1)?);
            word(alloc, "ok")
        }
        _ => Err(CaseError::Malformed),
    }
}

// Carries out an event (`event`). Where there is no memory for its call nothing is changed, and it is called again.
fn event_again(alloc: Global, locks: &mut LockTable, parts: &[Value]) -> Result<String, CaseError> {
    let answer = event(alloc, locks, parts);
    if !is_refused(&answer) {
        return answer;
    }
    event(alloc, locks, parts)
}

/// `["locks", [EVENT, ..]]`, where an event is `["lock", SESSION, NAME]`, `["steal", SESSION, NAME]`, `["unlock", SESSION,
/// NAME]`, `["owner", NAME]`, `["told", SESSION]` or `["end", SESSION]`: what each answers.
pub(crate) fn locks(alloc: Global, parts: &[Value]) -> Result<String, CaseError> {
    let mut locks = LockTable::new(alloc);
    let mut answers = String::new(alloc);
    for one in list(parts, 1)? {
        let parts = list_in(one)?;
        let answer = event_again(alloc, &mut locks, parts)?;
        add(&mut answers, answer.as_str())?;
    }
    Ok(answers)
}
