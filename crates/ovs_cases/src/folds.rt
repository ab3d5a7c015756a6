//! Runs of the script `fold`. In what it reads and in what it writes a letter stands for the id that is written with
//! it, `0` for the id of zeros and `r` for a row's.

use crate::case::list;
use crate::case_error::CaseError;
use crate::streams::add_bytes_of;
use ovs_fold_script::fold_run;
use ovs_script::RunEnd;
use ovs_types::Schema;
use ovs_wire::Counted;
use serde_json::Value;
use std::alloc::Global;

const IDS: [(&str, &str); 6] = [
    ("0", "00000000-0000-0000-0000-000000000000"),
    ("a", "aaaaaaaa-aaaa-4aaa-8aaa-aaaaaaaaaaaa"),
    ("b", "bbbbbbbb-bbbb-4bbb-8bbb-bbbbbbbbbbbb"),
    ("c", "cccccccc-cccc-4ccc-8ccc-cccccccccccc"),
    ("d", "dddddddd-dddd-4ddd-8ddd-dddddddddddd"),
    ("r", "11111111-1111-4111-8111-111111111111"),
];

// The text with one part in the place of another, wherever that stands.
fn replaced(alloc: Global, text: &str, part: &str, by: &str) -> Result<String, CaseError> {
    let mut told = String::new(alloc);
    for (number, between) in text.split(part).enumerate() {
        if number > 0 {
            told.push_str(by)?;
        }
        told.push_str(between)?;
    }
    Ok(told)
}

/// A line as it is read: each text of one letter is spelled out.
pub(crate) fn spelled_out(alloc: Global, line: &Value) -> Result<String, CaseError> {
    let mut text = line.to_string(alloc)?;
    for (letter, id) in IDS {
        let short = format!(in alloc; "\"{letter}\"")?;
        let long = format!(in alloc; "\"{id}\"")?;
        text = replaced(alloc, text.as_str(), short.as_str(), long.as_str())?;
    }
    Ok(text)
}

/// What was written in one line, the ids as letters.
pub(crate) fn shortened(alloc: Global, text: &str) -> Result<String, CaseError> {
    let mut text = replaced(alloc, text, "\n", " | ")?;
    for (letter, id) in IDS {
        text = replaced(alloc, text.as_str(), id, letter)?;
    }
    Ok(text)
}

/// Adds lines: a text is one as it stands, any other value its JSON.
pub(crate) fn add_lines(
    alloc: Global,
    text: &mut Vec<u8>,
    lines: &[Value],
) -> Result<(), CaseError> {
    for line in lines {
        match line {
            Value::String(line) => text.extend_from_slice(line.as_bytes())?,
            line => text.extend_from_slice(spelled_out(alloc, line)?.as_bytes())?,
        }
        text.push(b'\n')?;
    }
    Ok(())
}

/// How a run ended, in a word.
pub(crate) fn end_word(end: RunEnd) -> &'static str {
    match end {
        RunEnd::Clean => "clean",
        RunEnd::Refused => "refused",
        RunEnd::ReadFault => "read fault",
        RunEnd::WriteFault => "write fault",
        RunEnd::TurnsSpent => "turns spent",
        RunEnd::NoMemory => "no memory",
    }
}

/// The line that gives a schema.
pub(crate) fn schema_line(alloc: Global, schema: &Schema) -> Result<Vec<u8>, CaseError> {
    let mut line = Vec::new(alloc);
    let schema = schema.to_json()?;
    line.extend_from_slice(schema.to_string(alloc)?.as_bytes())?;
    line.push(b'\n')?;
    Ok(line)
}

/// The pieces one after another.
pub(crate) fn bytes_of_pieces(alloc: Global, pieces: &[Value]) -> Result<Vec<u8>, CaseError> {
    let mut bytes = Vec::new(alloc);
    for piece in pieces {
        add_bytes_of(alloc, &mut bytes, piece)?;
    }
    Ok(bytes)
}

/// What a run has written, and how it ended.
pub(crate) fn told(alloc: Global, written: Vec<u8>, end: RunEnd) -> Result<String, CaseError> {
    let Ok(text) = std::str::from_utf8(written.as_slice()) else {
        return Err(CaseError::Malformed);
    };
    let text = shortened(alloc, text)?;
    let end = end_word(end);
    Ok(format!(in alloc; "{text}{end}")?)
}

// What is written, how the run ended, and whether a second text stayed unread.
fn run(alloc: Global, input: &[u8], second: Option<&[u8]>) -> Result<String, CaseError> {
    let mut reader = Counted::new(input);
    let mut merge = second.map(Counted::new);
    let mut writer = Counted::new(Vec::new(alloc));
    let end = fold_run(alloc, &mut reader, &mut merge, &mut writer);
    let told = told(alloc, writer.into_inner(), end)?;
    let unread = match merge {
        Some(second) if second.calls() == 0 => ", file unread",
        _ => "",
    };
    Ok(format!(in alloc; "{told}{unread}")?)
}

/// `["fold", [LINK, ..]]`, or with the links of a file as a second list: the schema in use, and then these lines.
pub(crate) fn fold(alloc: Global, schema: &Schema, parts: &[Value]) -> Result<String, CaseError> {
    let mut input = schema_line(alloc, schema)?;
    add_lines(alloc, &mut input, list(parts, 1)?)?;
    if parts.len() == 2 {
        return run(alloc, input.as_slice(), None);
    }
    let mut second = Vec::new(alloc);
    add_lines(alloc, &mut second, list(parts, 2)?)?;
    run(alloc, input.as_slice(), Some(second.as_slice()))
}

/// `["fold bytes", [PIECE, ..]]`, or with a file's as a second list: the pieces one after another are what is read.
pub(crate) fn fold_bytes(alloc: Global, parts: &[Value]) -> Result<String, CaseError> {
    let input = bytes_of_pieces(alloc, list(parts, 1)?)?;
    if parts.len() == 2 {
        return run(alloc, input.as_slice(), None);
    }
    let second = bytes_of_pieces(alloc, list(parts, 2)?)?;
    run(alloc, input.as_slice(), Some(second.as_slice()))
}
