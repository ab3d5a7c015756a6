//! Links of a case.

ghost use Rattle.std.specs.Prelude.{◌≡◌, IfOk};
ghost use Rattle.ovs_links.specs.Sets.{IsOfTables};

use crate::line_error::LineError;
use ovs_links::Link;
use ovs_rows::Change;
use ovs_types::{Schema, TxnId};
use serde_json::Value;
use std::alloc::Global;

/// The link from one id to another that makes this change.
pub fn read_link(
    alloc: Global,
    schema: &Schema,
    prev: TxnId,
    id: TxnId,
    change: &Value,
) -> Result<Link, LineError>
    ensures ends { IfOk result (λ link. (link.prev ≡ prev) × (link.id ≡ id)) }
    ensures tables { IfOk result (IsOfTables schema.now.description.tables) }
{
    let Ok(change) = Change::read(alloc, change, schema) else {
        return Err(LineError::Malformed);
    };
    match Link::new(prev, id, change) {
        Ok(link) => Ok(link),
        Err(_) => Err(LineError::Malformed),
    }
}
