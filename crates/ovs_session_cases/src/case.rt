//! A line by its first word.

use crate::session_case_error::SessionCaseError;
use crate::{reader_trials, relay_node, upstream_trials};
use ovs_case_lines::{CaseTable, LineError, count_in};
use ovs_links::Step;
use ovs_node::Opened;
use ovs_types::Schema;
use serde_json::Value;
use std::alloc::Global;
use std::marker::Brand;
use std::sync::Wait;

/// The host on which the lines are tried.
#[derive(Drop)]
pub(crate) struct SessionCases<R> {
    pub(crate) rt: R,
}

impl<R: Wait> CaseTable for SessionCases<R> {
    type Error = SessionCaseError;

    fn answer(
        &self,
        alloc: Global,
        schema: Option<&Schema>,
        case: &[Value],
    ) -> Result<String, SessionCaseError> {
        let schema = schema.ok_or(LineError::Malformed)?;
        let (word, arguments) = case.split_first().ok_or(LineError::Malformed)?;
        match (word.as_str(), arguments) {
            (Some("reader"), [kind, piece, change, parts, answers]) => {
                let scene = reader_trials::Scene {
                    kind,
                    piece: count_in(piece)? as usize,
                    parts,
                    answers,
                };
                of_reader(&self.rt, alloc, schema, change, scene)
            }
            (Some("upstream"), scene) => upstream_trials::told(alloc, schema, scene),
            _ => Err(SessionCaseError::Malformed),
        }
    }
}

// What comes of a reader's sessions with a relay that published this change, for whose node a history is opened here.
fn of_reader<R: Wait>(
    rt: &R,
    alloc: Global,
    schema: &Schema,
    change: &Value,
    scene: reader_trials::Scene,
) -> Result<String, SessionCaseError> {
    let opened = Opened::<Step>::new();
    relay_node::opened::<Brand, R>(rt, alloc, schema, opened, change, scene)
}
