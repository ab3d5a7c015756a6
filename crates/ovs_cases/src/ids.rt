//! Ids and names.

use crate::case::{text, word};
use crate::case_error::CaseError;
use ovs_types::{RowId, TxnId, is_id, is_name};
use serde_json::Value;
use std::alloc::Global;

/// `["id", TEXT]`: the id in lower case, and whether it is a start id or that of a commit.
pub(crate) fn id(alloc: Global, parts: &[Value]) -> Result<String, CaseError> {
    match TxnId::read(text(parts, 1)?) {
        Ok(id) => {
            let text = id.to_text(alloc)?;
            let kind = if id.is_start() { "start" } else { "commit" };
            Ok(format!(in alloc; "{text} {kind}")?)
        }
        Err(_) => word(alloc, "bad-id"),
    }
}

/// `["row id", TEXT]`: the id in lower case, and its number.
pub(crate) fn row_id(alloc: Global, parts: &[Value]) -> Result<String, CaseError> {
    match RowId::read(text(parts, 1)?) {
        Ok(id) => {
            let text = id.to_text(alloc)?;
            let number = u128::from(id);
            Ok(format!(in alloc; "{text} {number:x}")?)
        }
        Err(_) => word(alloc, "bad-id"),
    }
}

/// `["name", TEXT]`: whether it is an `<id>`, and one that isn't reserved.
pub(crate) fn name(alloc: Global, parts: &[Value]) -> Result<String, CaseError> {
    let text = text(parts, 1)?;
    match (is_id(text), is_name(text)) {
        (true, true) => word(alloc, "name"),
        (true, false) => word(alloc, "reserved"),
        (false, false) => word(alloc, "neither"),
        (false, true) => word(alloc, "a name that is no id"),
    }
}
