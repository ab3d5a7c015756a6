//! A line by its first word.

use crate::node_case_error::NodeCaseError;
use crate::{engine, many, node, sendings, tier, worker};
use log::Log;
use ovs_case_lines::{LineError, count_in, list_in, read_json, read_schema};
use ovs_links::Step;
use ovs_node::Opened;
use ovs_types::Schema;
use serde_json::Value;
use std::alloc::{AllocError, Global};
use std::fs::Files;
use std::marker::Brand;
use std::net::{Net, TcpListener, TcpStream};
use std::sync::Wait;
use std::thread::Threads;

/// What the lines are asked of: a host, and the schema that is in use.
#[derive(Drop)]
pub(crate) struct NodeCases<R: Drop> {
    rt: R,
    alloc: Global,
    schema: Option<Box<Schema>>,
}

impl<
    R: Threads
        + Wait
        + Net<Listener = TcpListener, Stream = TcpStream>
        + Files
        + Log
        + Copy
        + Drop
        + Send
        + Sync,
> NodeCases<R> {
    /// No schema is in use yet.
    pub(crate) fn new(rt: R, alloc: Global) -> NodeCases<R> {
        NodeCases {
            rt,
            alloc,
            schema: None,
        }
    }

    /// The answer to a line, or the text of the error where it has none.
    pub(crate) fn told(&mut self, line: &str) -> Result<String, AllocError> {
        match self.answer(line) {
            Ok(answer) => Ok(answer),
            Err(error) => format!(in self.alloc; "{error}"),
        }
    }

    fn answer(&mut self, line: &str) -> Result<String, NodeCaseError> {
        let case = read_json(self.alloc, line)?;
        match list_in(&case)? {
            [word, json] if word.as_str() == Some("use") => {
                self.schema = Some(read_schema(self.alloc, json)?);
                Ok(String::from_str(self.alloc, "ok")?)
            }
            parts => self.of_schema(self.schema.as_deref().ok_or(LineError::Malformed)?, parts),
        }
    }

    // The lines that are asked of the schema in use.
    fn of_schema(&self, schema: &Schema, case: &[Value]) -> Result<String, NodeCaseError> {
        let (rt, alloc) = (&self.rt, self.alloc);
        let (word, arguments) = case.split_first().ok_or(LineError::Malformed)?;
        match (word.as_str().ok_or(LineError::Malformed)?, arguments) {
            ("node", [views, ends]) => {
                let scene = sendings::Scene::Listed(list_in(ends)?);
                of_node(rt, alloc, schema, count_in(views)? as usize, scene)
            }
            ("publish", [views, steps]) => {
                let scene = sendings::Scene::Many(count_in(steps)?);
                of_node(rt, alloc, schema, count_in(views)? as usize, scene)
            }
            ("store", [steps]) => many::stored(alloc, schema, count_in(steps)?),
            ("make", [steps]) => many::made(alloc, schema, count_in(steps)?),
            ("worker", [change, sessions, piece, talk]) => {
                let scene = worker::Scene {
                    change,
                    sessions: count_in(sessions)?,
                    piece: count_in(piece)? as usize,
                    talk,
                };
                of_worker(rt, alloc, schema, scene)
            }
            ("engine", scene) => {
                let scene = engine::Scene::read(alloc, schema, scene)?;
                of_engine(rt, alloc, schema, scene)
            }
            ("tier", scene) => {
                let scene = tier::Scene::read(alloc, scene)?;
                tier::run_tier(self.rt, alloc, schema, &scene)
            }
            _ => Err(NodeCaseError::Malformed),
        }
    }
}

// What a node answers, whose history is opened here.
fn of_node<R: Threads + Wait + Sync>(
    rt: &R,
    alloc: Global,
    schema: &Schema,
    views: usize,
    scene: sendings::Scene,
) -> Result<String, NodeCaseError> {
    let opened = Opened::<Step>::new();
    node::opened::<Brand, R>(rt, alloc, schema, opened, views, scene)
}

// What comes of a worker, for which a history is opened here.
fn of_worker<R: Wait>(
    rt: &R,
    alloc: Global,
    schema: &Schema,
    scene: worker::Scene,
) -> Result<String, NodeCaseError> {
    let opened = Opened::<Step>::new();
    worker::opened::<Brand, R>(rt, alloc, schema, opened, scene)
}

// What comes of a node with upstreams, for which a history is opened here.
fn of_engine<R: Threads + Wait + Sync>(
    rt: &R,
    alloc: Global,
    schema: &Schema,
    scene: engine::Scene,
) -> Result<String, NodeCaseError> {
    let opened = Opened::<Step>::new();
    engine::opened::<Brand, R>(rt, alloc, schema, opened, scene)
}
