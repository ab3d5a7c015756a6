//! Many sessions of one worker, in one thread, which a node's service answers.

ghost use Rattle.std.specs.Prelude.{◌≡◌, ◌≤◌, []};
ghost use Rattle.ovs_node.specs.Nodes.{OpenNodeInStep};
ghost use Rattle.ovs_node.specs.Ledger.{IsFresh};

use crate::node_case_error::NodeCaseError;
use crate::poller::MemoryPoller;
use crate::sessions::{ReaderScript, read_scripts};
use ovs_case_lines::{commit, read_link};
use ovs_desk::RelayDesk;
use ovs_json::Text;
use ovs_links::Step;
use ovs_node::{FeedName, Handle, NodeLink, NodeName, OpenNode, Opened, Parts, View};
use ovs_service::{NodeService, Unshared};
use ovs_session::Limits;
use ovs_types::{Schema, TxnId};
use ovs_worker::{SessionTotals, serve_many};
use serde_json::Value;
use std::alloc::Global;
use std::marker::Brand;
use std::sync::Wait;
use std::sync::atomic::AtomicBool;

// A session's turn answers two messages at most, and none while so much waits to be written.
const LIMITS: Limits = Limits {
    most_unsent: 256,
    messages: 2,
};

/// `[CHANGE, SESSIONS, PIECE, TALK]`: the change that is published, how many sessions there are, in what pieces they are read
/// and written, and what each of them says.
#[derive(Clone, Copy)]
pub(crate) struct Scene<'a> {
    pub(crate) change: &'a Value,
    pub(crate) sessions: u64,
    pub(crate) piece: usize,
    pub(crate) talk: &'a Value,
}

/// What comes of a scene, where this history was opened.
pub(crate) fn opened<K: NodeName, R: Wait>(
    rt: &R,
    alloc: Global,
    schema: &Schema,
    opened: Opened<Step>,
    scene: Scene,
) -> Result<String, NodeCaseError>
    requires name { (opened.seen.book ≡ K.book) × (schema.now ≡ K.schema) }
{
    let id = commit("a")?;
    let link = read_link(alloc, schema, TxnId::zero(), id, scene.change)?;
    let link = NodeLink::new(link);
    let node = OpenNode::<K, Handle<K, &R>>::new(alloc, rt, schema, opened, 1, 1)?;
    published::<K, Brand, R>(rt, alloc, node, link, scene)
}

// The same, where the node is opened and is to publish this link.
fn published<K: NodeName, Q: FeedName, R: Wait>(
    rt: &R,
    alloc: Global,
    node: OpenNode<K, Handle<K, &R>>,
    link: NodeLink<K>,
    scene: Scene,
) -> Result<String, NodeCaseError>
    requires table { node.feed.items.table.shared.table_id ≡ Q.table }
    requires upstreams { node.upstreams ≤ 4 }
    requires store { IsFresh K.schema node.store }
    requires publisher { OpenNodeInStep node }
{
    let Parts {
        mut node,
        queue,
        mut ends,
        mut views,
        board,
    } = node.named::<Q>()?;
    let mut end = ends.pop().ok_or(NodeCaseError::BadCount)?;
    let view = views.pop().ok_or(NodeCaseError::BadCount)?;
    end.send(rt, &queue, link);
    node.fold_next(rt, &queue, &board)?;
    served(rt, alloc, view, scene)
}

// Serves all sessions of the scene, and tells what came of it.
fn served<K: NodeName, R: Wait>(
    rt: &R,
    alloc: Global,
    view: View<K>,
    scene: Scene,
) -> Result<String, NodeCaseError> {
    if scene.piece == 0 {
        return Err(NodeCaseError::Malformed);
    }
    let scripts = read_scripts(alloc, scene.sessions, scene.talk)?;
    let desk = Unshared::new(RelayDesk::new(alloc, Text::new(alloc, "net")?));
    let have_all_come = AtomicBool::new(false);
    let poller = MemoryPoller::new(scripts.as_slice(), scene.piece, &have_all_come);
    let mut service = NodeService::new(alloc, view, desk, 0);
    let (totals, _poller, _served) = serve_many(rt, alloc, &mut service, poller, LIMITS);
    let (_view, desk) = service.into_parts();
    let _desk = desk.into_inner();
    told(alloc, totals, scripts.as_slice())
}

// How many sessions ended, how many messages they answered, and how many of them were written what they were to be.
fn told(
    alloc: Global,
    totals: SessionTotals,
    scripts: &[ReaderScript],
) -> Result<String, NodeCaseError> {
    let right = scripts.iter().filter(|script| script.is_right()).count();
    let SessionTotals { sessions, counts } = totals;
    let (messages, bytes) = (counts.messages, counts.bytes_out);
    Ok(format!(in alloc; "sessions {sessions} messages {messages} bytes {bytes} right {right}")?)
}
