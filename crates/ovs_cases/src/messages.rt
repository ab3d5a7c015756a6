//! Messages of JSON-RPC 1.0.

use crate::case::{part, word};
use crate::case_error::CaseError;
use crate::streams::bytes_of;
use ovs_wire::{Message, MessageError};
use serde_json::Value;
use std::alloc::Global;

// What a message is, in a word.
fn kind(message: &Message) -> &'static str {
    match message {
        Message::Request { .. } => "request",
        Message::Reply { .. } => "reply",
        Message::Notice { .. } => "notification",
    }
}

/// What a message is written as.
pub(crate) fn text_of(alloc: Global, message: &Message) -> Result<String, CaseError> {
    let bytes = message.write(alloc)?;
    match std::str::from_utf8(bytes.as_slice()) {
        Ok(text) => Ok(String::from_str(alloc, text)?),
        Err(_) => Err(CaseError::Malformed),
    }
}

fn fault_word(fault: MessageError) -> &'static str {
    match fault {
        MessageError::NotJson => "not-json",
        MessageError::BadShape => "bad-shape",
        MessageError::NoMemory => "no-memory",
    }
}

// Its kind, and what a copy of it is written as.
fn told(alloc: Global, message: &Message) -> Result<String, CaseError> {
    let kind = kind(message);
    let text = text_of(alloc, &message.copy()?)?;
    Ok(format!(in alloc; "{kind} {text}")?)
}

/// `["message", PIECE]`: what kind of message the bytes say, and what it is written as.
pub(crate) fn message(alloc: Global, parts: &[Value]) -> Result<String, CaseError> {
    let bytes = bytes_of(alloc, part(parts, 1)?)?;
    match Message::read(alloc, bytes.as_slice()) {
        Ok(message) => told(alloc, &message),
        Err(fault) => word(alloc, fault_word(fault)),
    }
}
