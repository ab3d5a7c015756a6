//! Runs of the script `world`, in whose lines a letter stands for an id as in those of `fold`.

use crate::case::list;
use crate::case_error::CaseError;
use crate::folds::{add_lines, bytes_of_pieces, schema_line, told};
use ovs_types::Schema;
use ovs_wire::Counted;
use ovs_world_script::world_run;
use serde_json::Value;
use std::alloc::Global;

// What is written, and how the run ended.
fn run(alloc: Global, input: &[u8]) -> Result<String, CaseError> {
    let mut reader = Counted::new(input);
    let mut writer = Counted::new(Vec::new(alloc));
    let end = world_run(alloc, &mut reader, &mut writer);
    told(alloc, writer.into_inner(), end)
}

/// `["world", [LINE, ..]]`: the schema in use, and then these lines.
pub(crate) fn world(alloc: Global, schema: &Schema, parts: &[Value]) -> Result<String, CaseError> {
    let mut input = schema_line(alloc, schema)?;
    add_lines(alloc, &mut input, list(parts, 1)?)?;
    run(alloc, input.as_slice())
}

/// `["world bytes", [PIECE, ..]]`: the pieces one after another are what is read.
pub(crate) fn world_bytes(alloc: Global, parts: &[Value]) -> Result<String, CaseError> {
    let input = bytes_of_pieces(alloc, list(parts, 1)?)?;
    run(alloc, input.as_slice())
}
