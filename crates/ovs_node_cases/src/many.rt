//! Links of many steps of one row, for measuring.

ghost use Rattle.std.specs.Prelude.{◌≡◌, IfOk};
ghost use Rattle.ovs_links.specs.Sets.{IsOfTables};
ghost use Rattle.ovs_links.specs.Store.{tables_of};

use crate::node_case_error::NodeCaseError;
use ovs_case_lines::{read_json, read_link};
use ovs_links::{Link, LinkStore};
use ovs_types::{Schema, TxnId};
use serde_json::Value;
use std::alloc::Global;

const ROW: &str = "11111111-1111-4111-8111-111111111111";

// The id after so many commits.
fn id_after(commits: u64) -> TxnId {
    if commits == 0 {
        TxnId::zero()
    } else {
        TxnId::from((1 << 64) + u128::from(commits))
    }
}

// The change of the commit that comes after so many: the first inserts the row, each later one names it anew.
fn change_after(alloc: Global, commits: u64) -> Result<Value, NodeCaseError> {
    let verb = if commits == 0 { "insert" } else { "modify" };
    let text = format!(in alloc;
        "{{\"Port\":{{\"{ROW}\":{{\"{verb}\":{{\"name\":\"p{commits}\"}}}}}}}}"
    )?;
    Ok(read_json(alloc, text.as_str())?)
}

/// The link that comes after so many commits.
pub(crate) fn link_after(
    alloc: Global,
    schema: &Schema,
    commits: u64,
) -> Result<Link, NodeCaseError>
    ensures tables { IfOk result (IsOfTables schema.now.description.tables) }
{
    let (prev, id) = (id_after(commits), id_after(commits.saturating_add(1)));
    let change = change_after(alloc, commits)?;
    Ok(read_link(alloc, schema, prev, id, &change)?)
}

/// Makes so many links, and does nothing with them.
pub(crate) fn made(alloc: Global, schema: &Schema, steps: u64) -> Result<String, NodeCaseError> {
    let mut links = Vec::new(alloc);
    for number in 0..steps {
        links.push(link_after(alloc, schema, number)?)?;
    }
    let count = links.len();
    Ok(format!(in alloc; "links {count}")?)
}

// Takes a link into a store, and folds it.
fn take_one(alloc: Global, store: &mut LinkStore, number: u64) -> Result<(), NodeCaseError>
    ensures tables { tables_of store.new ≡ tables_of store.old }
{
    let link = link_after(alloc, store.schema(), number)?;
    if store.take(link).is_err() {
        return Err(NodeCaseError::Unsent);
    }
    let _ = store.settle(alloc)?;
    Ok(())
}

/// Takes so many links into a store alone, each folded before the next is taken.
pub(crate) fn stored(alloc: Global, schema: &Schema, steps: u64) -> Result<String, NodeCaseError> {
    let mut store = LinkStore::new(alloc, schema)?;
    for number in 0..steps {
        take_one(alloc, &mut store, number)?;
    }
    let chain = store.chain_len();
    Ok(format!(in alloc; "chain {chain}")?)
}
