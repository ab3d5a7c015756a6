//! A line by its first word.

ghost use Rattle.std.specs.Prelude.{IfOk};
ghost use Rattle.std.specs.List.{All};
ghost use Rattle.ovs_links.specs.Sets.{IsOfTables};

use crate::relay::{RelayEnd, relayed};
use crate::stream_case_error::StreamCaseError;
use ovs_case_lines::{LineError, commit_in, count_in, list_in, read_json, read_schema};
use ovs_links::Link;
use ovs_rows::Change;
use ovs_types::Schema;
use serde_json::Value;
use std::alloc::{AllocError, Global};
use std::sync::Wait;
use std::thread::Threads;

/// What the lines are asked of: a host, and the schema that is in use.
#[derive(Drop)]
pub(crate) struct StreamCases<R: Drop> {
    rt: R,
    alloc: Global,
    schema: Option<Box<Schema>>,
}

impl<R: Threads + Wait + Drop + Sync> StreamCases<R> {
    /// No schema is in use yet.
    pub(crate) fn new(rt: R, alloc: Global) -> StreamCases<R> {
        StreamCases {
            rt,
            alloc,
            schema: None,
        }
    }

    /// The answer to a line, or the text of the error where it has none.
    pub(crate) fn told(&mut self, line: &str) -> Result<String, AllocError> {
        match self.answer(line) {
            Ok(answer) => Ok(answer),
            Err(error) => format!(in self.alloc; "{error}"),
        }
    }

    fn answer(&mut self, line: &str) -> Result<String, StreamCaseError> {
        let case = read_json(self.alloc, line)?;
        match list_in(&case)? {
            [word, json] if word.as_str() == Some("use") => {
                self.schema = Some(read_schema(self.alloc, json)?);
                Ok(String::from_str(self.alloc, "ok")?)
            }
            parts => self.of_schema(self.schema.as_deref().ok_or(LineError::Malformed)?, parts),
        }
    }

    // The lines that are asked of the schema in use.
    fn of_schema(&self, schema: &Schema, case: &[Value]) -> Result<String, StreamCaseError> {
        match case {
            [word, connections, links] if word.as_str() == Some("stream") => {
                let connections = count_in(connections)?;
                let links = read_links(self.alloc, schema, links)?;
                let relayed = relayed(&self.rt, self.alloc, schema, links, connections)?;
                held(self.alloc, &relayed)
            }
            _ => Err(StreamCaseError::Malformed),
        }
    }
}

// `[PREV, ID, CHANGE]`.
fn read_link(alloc: Global, schema: &Schema, json: &Value) -> Result<Link, StreamCaseError>
    ensures tables { IfOk result (IsOfTables schema.now.description.tables) }
{
    let [prev, id, change] = list_in(json)? else {
        return Err(StreamCaseError::Malformed);
    };
    let (prev, id) = (commit_in(prev)?, commit_in(id)?);
    let Ok(change) = Change::read(alloc, change, schema) else {
        return Err(StreamCaseError::Malformed);
    };
    match Link::new(prev, id, change) {
        Ok(link) => Ok(link),
        Err(_) => Err(StreamCaseError::Malformed),
    }
}

fn read_links(alloc: Global, schema: &Schema, json: &Value) -> Result<Vec<Link>, StreamCaseError>
    ensures tables { IfOk result (λ links. All (IsOfTables schema.now.description.tables) links.items) }
{
    let mut links = Vec::new(alloc);
    for link in list_in(json)? {
        links.push(read_link(alloc, schema, link)?)?;
    }
    Ok(links)
}

// What a relay holds at its end: its head, how many links, how many of them in the chain, how many were refused as contradictions; and its
// database.
fn held(alloc: Global, relayed: &RelayEnd) -> Result<String, StreamCaseError> {
    let store = &relayed.store;
    let (links, chain, forks) = (store.len(), store.chain_len(), relayed.forks);
    let head = store.head().to_text(alloc)?;
    let text = format!(in alloc; "head {head} links {links} chain {chain} forks {forks} | ")?;
    Ok(store.database().json_behind(alloc, text)?)
}
