//! The run of a table of cases.

use crate::line_error::LineError;
use crate::parts::{list_in, read_json, read_schema};
use ovs_types::Schema;
use serde_json::Value;
use std::alloc::{AllocError, Global};
use std::fmt::Display;
use std::io::{self, BufRead, BufReader};

/// What answers the cases of a table.
pub trait CaseTable {
    /// Why a case has no answer. Its text is the answer then.
    type Error: Display + From<LineError> + Drop;

    /// What is answered to a case, whose first part is its word, where this schema is in use.
    fn answer(
        &self,
        alloc: Global,
        schema: Option<&Schema>,
        case: &[Value],
    ) -> Result<String, Self::Error>;
}

// The schema of `["use", SCHEMA]`; `None` where something else is asked.
fn used_schema(alloc: Global, case: &[Value]) -> Result<Option<Box<Schema>>, LineError> {
    match case {
        [word, json] if word.as_str() == Some("use") => Ok(Some(read_schema(alloc, json)?)),
        _ => Ok(None),
    }
}

// The answer that a schema is in use.
fn ok(alloc: Global) -> Result<String, LineError> {
    Ok(String::from_str(alloc, "ok")?)
}

// The answer to a line; to `["use", SCHEMA]` it is `ok`, and this schema is in use from now on.
fn answer_of<T: CaseTable>(
    alloc: Global,
    table: &T,
    schema: &mut Option<Box<Schema>>,
    line: &str,
) -> Result<String, T::Error> {
    let case = read_json(alloc, line)?;
    let parts = list_in(&case)?;
    match used_schema(alloc, parts)? {
        Some(used) => {
            *schema = Some(used);
            Ok(ok(alloc)?)
        }
        None => table.answer(alloc, schema.as_deref(), parts),
    }
}

// The answer to a line, or the text of the error where it has none.
fn told<T: CaseTable>(
    alloc: Global,
    table: &T,
    schema: &mut Option<Box<Schema>>,
    line: &str,
) -> Result<String, AllocError> {
    match answer_of(alloc, table, schema, line) {
        Ok(answer) => Ok(answer),
        Err(fault) => format!(in alloc; "{fault}"),
    }
}

/// Runs the table of cases on standard input: each line is `["WHAT", ARGUMENT, ..] => ANSWER`, and one without an answer is to be answered
/// `ok`. Empty lines and lines that begin with `#` are passed over; `["use", SCHEMA]` sets the schema for what comes after it. A line that
/// is answered otherwise is printed with its answer, and at last how many lines were as expected.
///
/// # Errors
/// Those of standard input and output; and `OutOfMemory` where an answer can't be told.
pub fn run_cases<R: Input + Print, T: CaseTable>(
    rt: &R,
    alloc: Global,
    table: &T,
) -> io::Result<()> {
    let mut schema = None;
    let mut right = 0u64;
    let mut wrong = 0u64;
    for line in BufReader::new(alloc, rt.reader())?.lines(alloc) {
        let line = line?;
        let line = line.as_str().trim();
        if line.is_empty() || line.starts_with('#') {
            continue;
        }
        let (case, want) = line.split_once(" => ").unwrap_or((line, "ok"));
        let Ok(answer) = told(alloc, table, &mut schema, case) else {
            return Err(io::ErrorKind::OutOfMemory.into());
        };
        if answer.as_str() == want {
            right = right.saturating_add(1);
        } else {
            wrong = wrong.saturating_add(1);
            println!(rt; "{line}\n  but: {answer}")?;
        }
    }
    println!(rt; "{right} as expected, {wrong} not")
}
