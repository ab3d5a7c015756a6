//! A relay in threads behind a source that has a history.

ghost use Rattle.std.specs.Prelude.{◌≡◌, [], IfOk};
ghost use Rattle.std.specs.List.{All, AllByRecursion};
ghost use Rattle.ovs_node.specs.Nodes.{NodeInStep, OpenNodeInStep};
ghost use Rattle.ovs_node.specs.Ledger.{IsFresh};
ghost use Rattle.ovs_rows.specs.Row.{no_rows};
ghost use Rattle.ovs_links.specs.History.{IsHistory};
ghost use Rattle.ovs_links.specs.Sets.{IsOfTables};
ghost use Rattle.ovs_stream_cases.specs.Made.{IsHistoryOf, IsMade, commits_of};
ghost use Rattle.ovs_stream_cases.specs.Relayed.{HasOf};

use crate::connector::HistoryConnector;
use crate::history::are_of_history;
use crate::history_links::{HistoryLinks, HistoryName};
use crate::no_poller::NoPoller;
use crate::no_waker::NoWaker;
use crate::stream_case_error::StreamCaseError;
use ovs_json::Text;
use ovs_links::{Link, LinkStore, Step};
use ovs_node::{
    Board, FeedName, FeedQueue, Handle, Node, NodeLink, NodeName, OpenNode, Opened, Parts, Report,
    View,
};
use ovs_node_threads::{
    Counters, LockedForwarder, NoObserver, NodeThreads, RelayThreads, Shared,
    SharedUpstreamHandler, Upstream, UpstreamSender, run_relay,
};
use ovs_recorded_desk::{DeskName, DeskStep, RecordedDesk, relay_desk_sends};
use ovs_session::Limits;
use ovs_types::Schema;
use std::alloc::Global;
use std::marker::Brand;
use std::sync::{Mutex, Wait};
use std::thread::Threads;

const LIMITS: Limits = Limits {
    most_unsent: 65_536,
    messages: 64,
};

/// What is left of a relay.
#[derive(Drop)]
pub(crate) struct RelayEnd {
    /// The links that it holds, with the longest chain folded.
    pub(crate) store: LinkStore,
    /// How many links were refused as contradictions.
    pub(crate) forks: u64,
}

/// Runs a relay until so many connections with a source of these links have ended, one after another. It refuses no link as a
/// contradiction, and has the source's database after the longest chain of the links that it holds.
///
/// # Errors
/// `NoHistory` where no source may have made these links; and where the relay couldn't be run to its end.
pub(crate) fn relayed<R: Threads + Wait + Sync>(
    rt: &R,
    alloc: Global,
    schema: &Schema,
    links: Vec<Link>,
    connections: u64,
) -> Result<RelayEnd, StreamCaseError>
    requires tables { All (IsOfTables schema.now.description.tables) links.items }
    ensures made { IfOk result (λ r. IsMade schema.now.description.tables links.items) }
    ensures headline { IfOk result (λ r. HasOf schema.now.description.tables (commits_of schema.now.description.tables no_rows links.items) r.store r.forks) }
{
    if !are_of_history(alloc, schema, links.as_slice())? {
        return Err(StreamCaseError::NoHistory);
    }
    let opened = Opened::<Step>::new();
    behind::<Brand, Brand, R>(rt, alloc, schema, opened, links, connections)
}

// The same, where the links are those of a history that has a name.
fn behind<K: NodeName + Send + Sync, J: HistoryName + Send + Sync, R: Threads + Wait + Sync>(
    rt: &R,
    alloc: Global,
    schema: &Schema,
    opened: Opened<Step>,
    links: Vec<Link>,
    connections: u64,
) -> Result<RelayEnd, StreamCaseError>
    requires name { (opened.seen.book ≡ K.book) × (schema.now ≡ K.schema) }
    requires history { IsHistoryOf K.schema.description.tables J.commits links.items }
    ensures headline { IfOk result (λ r. HasOf K.schema.description.tables J.commits r.store r.forks) }
{
    let links = HistoryLinks::<K, J>::new(links);
    let connector = HistoryConnector::new(alloc, schema, links, connections);
    let node = OpenNode::<K, Handle<K, &R>>::new(alloc, rt, schema, opened, 1, 1)?;
    named::<K, J, Brand, R>(rt, alloc, schema, node, connector)
}

// The same, where the node is opened.
fn named<
    's,
    K: NodeName + Send + Sync,
    J: HistoryName + Send + Sync,
    Q: FeedName + Send + Sync,
    R: Threads + Wait + Sync,
>(
    rt: &R,
    alloc: Global,
    schema: &'s Schema,
    node: OpenNode<K, Handle<K, &R>>,
    connector: HistoryConnector<'s, K, J>,
) -> Result<RelayEnd, StreamCaseError>
    requires schema { schema.now ≡ K.schema }
    requires table { node.feed.items.table.shared.table_id ≡ Q.table }
    requires upstreams { node.upstreams ≡ 1 }
    requires store { IsFresh K.schema node.store }
    requires publisher { OpenNodeInStep node }
    requires history { IsHistory K.schema.description.tables no_rows J.commits }
    ensures headline { IfOk result (λ r. HasOf K.schema.description.tables J.commits r.store r.forks) }
{
    let parts = node.named::<Q>()?;
    let desk = DeskOf {
        database: Text::new(alloc, schema.name())?,
        opened: Opened::new(),
    };
    run::<K, J, Q, Brand, R>(rt, alloc, schema, parts, desk, connector)
}

// What the relay's desk is made of.
#[derive(Drop)]
struct DeskOf {
    database: Text,
    opened: Opened<DeskStep>,
}

// Runs the node, with a desk of which nobody asks anything.
fn run<
    'x,
    's,
    K: NodeName + Send + Sync,
    J: HistoryName + Send + Sync,
    Q: FeedName + Send + Sync,
    N: DeskName + Send,
    R: Threads + Wait + Sync,
>(
    rt: &'x R,
    alloc: Global,
    schema: &'s Schema,
    parts: Parts<K, Q, Handle<K, &'x R>>,
    desk: DeskOf,
    connector: HistoryConnector<'s, K, J>,
) -> Result<RelayEnd, StreamCaseError>
    requires desk { (desk.opened.seen.book ≡ N.book) × (desk.database ≡ N.database) }
    requires schema { schema.now ≡ K.schema }
    requires in_step { NodeInStep parts.node }
    requires none { parts.node.intake.feed.returned ≡ [] }
    requires unsent { AllByRecursion (λ e. e.1 ≡ []) parts.ends.items }
    requires history { IsHistory K.schema.description.tables no_rows J.commits }
    ensures headline { IfOk result (λ r. HasOf K.schema.description.tables J.commits r.store r.forks) }
{
    let Parts {
        node,
        queue,
        mut ends,
        mut views,
        board,
    } = parts;
    let Some(end) = ends.pop() else {
        return Err(StreamCaseError::NotRun);
    };
    let Some(view) = views.pop() else {
        return Err(StreamCaseError::NotRun);
    };
    let DeskOf { database, opened } = desk;
    let (desk, _known) = RecordedDesk::<N>::new(alloc, database, opened);
    let desk = LockedForwarder::new(rt, desk);
    let sender = UpstreamSender::new(end);
    run_threads(
        rt, alloc, schema, &queue, &board, &desk, node, sender, connector, view,
    )
}

// The threads of the relay: one for the upstream.
type SourceThreads<'a, 'x, 's, K, J, Q, N, R> = RelayThreads<
    'a,
    K,
    Q,
    HistoryConnector<'s, K, J>,
    NoPoller,
    LockedForwarder<'x, N, R>,
    NoWaker,
>;

// The same, where all is there that the threads share.
fn run_threads<
    'a,
    'x,
    's,
    K: NodeName + Send + Sync,
    J: HistoryName + Send + Sync,
    Q: FeedName + Send + Sync,
    N: DeskName + Send,
    R: Threads + Wait + Sync,
>(
    rt: &'a R,
    alloc: Global,
    schema: &'a Schema,
    queue: &'a FeedQueue<NodeLink<K>, Q>,
    board: &'a Mutex<Board<K>>,
    desk: &'a LockedForwarder<'x, N, R>,
    node: Node<K, Q, Handle<K, &'x R>>,
    sender: UpstreamSender<K, Q, HistoryConnector<'s, K, J>>,
    connector: HistoryConnector<'s, K, J>,
    view: View<K>,
) -> Result<RelayEnd, StreamCaseError>
    requires schema { schema.now ≡ K.schema }
    requires in_step { NodeInStep node }
    requires none { node.intake.feed.returned ≡ [] }
    requires history { IsHistory K.schema.description.tables no_rows J.commits }
    ensures headline { IfOk result (λ r. HasOf K.schema.description.tables J.commits r.store r.forks) }
{
    let mut threads: SourceThreads<'a, 'x, 's, K, J, Q, N, R> = NodeThreads::new(alloc);
    let upstream = Upstream {
        sender,
        connector,
        source: SharedUpstreamHandler::new(alloc, None),
    };
    threads.add_feed(upstream, view)?;
    let shared = Shared {
        rt,
        queue,
        board,
        desk,
        wakers: &[],
        uplink_waker: &NoWaker,
        counters: &Counters::new(),
        observer: &NoObserver,
        limits: LIMITS,
    };
    relay_desk_sends();
    let report = run_relay(alloc, &shared, schema, node, threads)?;
    let Report { store, forks, .. } = report;
    Ok(RelayEnd { store, forks })
}
