//! The node of a relay that has published one commit.

ghost use Rattle.std.specs.Prelude.{◌≡◌, ◌≤◌};
ghost use Rattle.ovs_node.specs.Nodes.{OpenNodeInStep};
ghost use Rattle.ovs_node.specs.Ledger.{IsFresh};

use crate::reader_trials;
use crate::session_case_error::SessionCaseError;
use ovs_case_lines::{commit, read_link};
use ovs_links::Step;
use ovs_node::{FeedName, Handle, NodeLink, NodeName, OpenNode, Opened, Parts};
use ovs_types::{Schema, TxnId};
use serde_json::Value;
use std::alloc::Global;
use std::marker::Brand;
use std::sync::Wait;

/// What comes of a scene, where this history was opened and the commit makes this change.
pub(crate) fn opened<K: NodeName, R: Wait>(
    rt: &R,
    alloc: Global,
    schema: &Schema,
    opened: Opened<Step>,
    change: &Value,
    scene: reader_trials::Scene,
) -> Result<String, SessionCaseError>
    requires name { (opened.seen.book ≡ K.book) × (schema.now ≡ K.schema) }
{
    let id = commit("a")?;
    let link = read_link(alloc, schema, TxnId::zero(), id, change)?;
    let link = NodeLink::new(link);
    let node = OpenNode::<K, Handle<K, &R>>::new(alloc, rt, schema, opened, 1, 1)?;
    published::<K, Brand, R>(rt, alloc, node, link, scene)
}

// The same, where the node is opened and is to publish this link.
fn published<K: NodeName, Q: FeedName, R: Wait>(
    rt: &R,
    alloc: Global,
    node: OpenNode<K, Handle<K, &R>>,
    link: NodeLink<K>,
    scene: reader_trials::Scene,
) -> Result<String, SessionCaseError>
    requires table { node.feed.items.table.shared.table_id ≡ Q.table }
    requires upstreams { node.upstreams ≤ 4 }
    requires store { IsFresh K.schema node.store }
    requires publisher { OpenNodeInStep node }
{
    let Parts {
        mut node,
        queue,
        mut ends,
        mut views,
        board,
    } = node.named::<Q>()?;
    let mut end = ends.pop().ok_or(SessionCaseError::NoView)?;
    let view = views.pop().ok_or(SessionCaseError::NoView)?;
    end.send(rt, &queue, link);
    node.fold_next(rt, &queue, &board)?;
    reader_trials::told(alloc, view, scene)
}
