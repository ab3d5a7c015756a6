//! What the sessions of a worker send, and what is to come of it.

use crate::node_case_error::NodeCaseError;
use ovs_case_lines::list_in;
use serde_json::Value;
use std::alloc::Global;
use std::sync::atomic::{AtomicBool, AtomicU64, Ordering};

/// What one session sends, what is to be written to it, and how far that has come.
#[derive(Drop)]
pub(crate) struct ReaderScript {
    /// What its reader gives.
    pub(crate) text: String,
    /// What is to be written.
    pub(crate) wanted: String,
    /// How many bytes of that are still to come.
    pub(crate) left: AtomicU64,
    /// Something else was written.
    pub(crate) is_wrong: AtomicBool,
}

impl ReaderScript {
    /// Whether all that is to be written was, and nothing else.
    pub(crate) fn is_right(&self) -> bool {
        self.left.load(Ordering::SeqCst) == 0 && !self.is_wrong.load(Ordering::SeqCst)
    }
}

// The request of this number in its session, which `#` stands for.
fn request_of(
    alloc: Global,
    number: usize,
    method: &Value,
    params: &Value,
) -> Result<String, NodeCaseError> {
    let method = method.to_string(alloc)?;
    let params = params.to_string(alloc)?;
    Ok(format!(in alloc; "{{\"method\":{method},\"params\":{params},\"id\":\"{number} of #\"}}")?)
}

// The reply to the request of this number.
fn reply_of(alloc: Global, number: usize, answer: &Value) -> Result<String, NodeCaseError> {
    let answer = answer.to_string(alloc)?;
    Ok(format!(in alloc; "{{\"error\":null,\"id\":\"{number} of #\",\"result\":{answer}}}")?)
}

// Adds the request `[METHOD, PARAMS, RESULT]` of this number to what is sent, and the reply to it to what is to be written.
fn add_exchange(
    alloc: Global,
    number: usize,
    json: &Value,
    text: &mut String,
    wanted: &mut String,
) -> Result<(), NodeCaseError> {
    let [method, params, result] = list_in(json)? else {
        return Err(NodeCaseError::Malformed);
    };
    text.push_str(request_of(alloc, number, method, params)?.as_str())?;
    wanted.push_str(reply_of(alloc, number, result)?.as_str())?;
    Ok(())
}

// What each session sends, and what is to be written to it, where `#` stands for its number.
fn read_talk(alloc: Global, json: &Value) -> Result<(String, String), NodeCaseError> {
    let mut text = String::new(alloc);
    let mut wanted = String::new(alloc);
    let exchanges = list_in(json)?;
    for (number, json) in exchanges.iter().enumerate() {
        add_exchange(alloc, number, json, &mut text, &mut wanted)?;
    }
    Ok((text, wanted))
}

// The script of the session of this number.
fn script_of(
    alloc: Global,
    number: u64,
    text: &str,
    wanted: &str,
) -> Result<ReaderScript, NodeCaseError> {
    let number = format!(in alloc; "{number}")?;
    let text = text.replace(alloc, '#', number.as_str())?;
    let wanted = wanted.replace(alloc, '#', number.as_str())?;
    Ok(ReaderScript {
        text,
        left: AtomicU64::new(wanted.len() as u64),
        wanted,
        is_wrong: AtomicBool::new(false),
    })
}

/// The scripts of so many sessions.
pub(crate) fn read_scripts(
    alloc: Global,
    count: u64,
    talk: &Value,
) -> Result<Vec<ReaderScript>, NodeCaseError> {
    let (text, wanted) = read_talk(alloc, talk)?;
    let mut scripts = Vec::new(alloc);
    for number in 0..count {
        scripts.push(script_of(alloc, number, text.as_str(), wanted.as_str())?)?;
    }
    Ok(scripts)
}
