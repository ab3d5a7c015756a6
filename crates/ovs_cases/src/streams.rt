//! Streams of bytes, cut into messages. A piece is a text, whose characters below 256 stand for bytes, or a list of a
//! text and how many times it comes.

use crate::case::{list, text};
use crate::case_error::CaseError;
use ovs_case_lines::{count_in, text_in};
use ovs_wire::{FrameError, Framer};
use serde_json::Value;
use std::alloc::Global;

fn add_bytes(bytes: &mut Vec<u8>, text: &str) -> Result<(), CaseError> {
    for character in text.chars() {
        match u8::try_from(u32::from(character)) {
            Ok(byte) => bytes.push(byte)?,
            Err(_) => return Err(CaseError::Malformed),
        }
    }
    Ok(())
}

/// Puts the bytes of a piece behind those that are there.
pub(crate) fn add_bytes_of(
    alloc: Global,
    bytes: &mut Vec<u8>,
    piece: &Value,
) -> Result<(), CaseError> {
    match piece {
        Value::String(text) => add_bytes(bytes, text.as_str()),
        Value::Array(parts) => {
            let [text, times] = parts.as_slice() else {
                return Err(CaseError::Malformed);
            };
            let text = text_in(text)?;
            add_repeated(alloc, bytes, text, count_in(times)?)
        }
        _ => Err(CaseError::Malformed),
    }
}

/// The bytes of a piece.
pub(crate) fn bytes_of(alloc: Global, piece: &Value) -> Result<Vec<u8>, CaseError> {
    let mut bytes = Vec::new(alloc);
    add_bytes_of(alloc, &mut bytes, piece)?;
    Ok(bytes)
}

fn add_repeated(
    alloc: Global,
    bytes: &mut Vec<u8>,
    text: &str,
    times: u64,
) -> Result<(), CaseError> {
    let mut once = Vec::new(alloc);
    add_bytes(&mut once, text)?;
    for _ in 0..times {
        bytes.extend_from_slice(once.as_slice())?;
    }
    Ok(())
}

fn fault_word(fault: FrameError) -> &'static str {
    match fault {
        FrameError::NotObject => "not-object",
        FrameError::TooDeep => "too-deep",
        FrameError::TooLong => "too-long",
        FrameError::NoMemory => "no-memory",
    }
}

fn add_message(alloc: Global, told: &mut String, message: &[u8]) -> Result<(), CaseError> {
    let len = message.len();
    let length = format!(in alloc; "{len} bytes")?;
    match std::str::from_utf8(message) {
        Ok(text) if len <= 200 => told.push_str(text)?,
        _ => told.push_str(length.as_str())?,
    }
    told.push(' ')?;
    Ok(())
}

// The messages that wait, long ones by their length.
fn waiting(alloc: Global, framer: &mut Framer) -> Result<String, CaseError> {
    let mut told = String::new(alloc);
    for _ in 0..u64::MAX {
        match framer.next() {
            Some(message) => add_message(alloc, &mut told, message)?,
            None => break,
        }
    }
    Ok(told)
}

// What a piece is answered. Where there is no memory nothing of it was taken, and it is fed again.
fn feed_again(framer: &mut Framer, bytes: &[u8]) -> Result<(), FrameError> {
    match framer.feed(bytes) {
        Err(FrameError::NoMemory) => framer.feed(bytes),
        answer => answer,
    }
}

// The word of the answer to a piece.
fn feed(alloc: Global, framer: &mut Framer, piece: &Value) -> Result<&'static str, CaseError> {
    let bytes = bytes_of(alloc, piece)?;
    match feed_again(framer, bytes.as_slice()) {
        Ok(()) => Ok("ok"),
        Err(fault) => Ok(fault_word(fault)),
    }
}

// A framer of this limit, or of the one that stands where none is said.
fn framer_of(alloc: Global, limit: Option<&Value>) -> Result<Framer, CaseError> {
    match limit {
        None => Ok(Framer::new(alloc)),
        Some(limit) => {
            let limit = count_in(limit)?;
            Ok(Framer::with_limit(alloc, limit as usize))
        }
    }
}

/// `["frames", [PIECE, ..]]`, or with how many bytes a message may have: the messages, and the word of the answer to the last
/// feed.
pub(crate) fn frames(alloc: Global, parts: &[Value]) -> Result<String, CaseError> {
    let mut framer = framer_of(alloc, parts.get(2))?;
    let mut last = "ok";
    for piece in list(parts, 1)? {
        last = feed(alloc, &mut framer, piece)?;
    }
    let mut told = waiting(alloc, &mut framer)?;
    told.push_str(last)?;
    Ok(told)
}

// How many bytes the next message has, if one waits.
fn next_length(framer: &mut Framer) -> Option<usize> {
    match framer.next() {
        Some(message) => Some(message.len()),
        None => None,
    }
}

// Whether two pieces give the one message, and the first alone none.
fn is_one(alloc: Global, first: &[u8], second: &[u8]) -> bool {
    let mut framer = Framer::new(alloc);
    let before = framer.feed(first);
    let early = next_length(&mut framer);
    let after = framer.feed(second);
    let message = next_length(&mut framer);
    if before.is_err() || after.is_err() || framer.next().is_some() {
        return false;
    }
    let one = if second.is_empty() { early } else { message };
    one == Some(first.len() + second.len())
}

/// `["cut anywhere", TEXT]`: how many cuts of the text into two pieces there are, where each gives the text as the one
/// message.
pub(crate) fn cut_anywhere(alloc: Global, parts: &[Value]) -> Result<String, CaseError> {
    let text = text(parts, 1)?.as_bytes();
    for cut in 0..text.len() + 1 {
        if !is_one(alloc, &text[..cut], &text[cut..]) {
            return Ok(format!(in alloc; "not at {cut}")?);
        }
    }
    let cuts = text.len();
    Ok(format!(in alloc; "one message at {cuts} places")?)
}
