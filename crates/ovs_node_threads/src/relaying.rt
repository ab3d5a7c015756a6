//! A relay in threads, from its beginning to its end.

ghost use Rattle.std.specs.Prelude.{◌≡◌, [], IfOk};
ghost use Rattle.left_right.specs.Handles.{published};
ghost use Rattle.ovs_node.specs.Nodes.{NodeInStep};
ghost use Rattle.ovs_node.specs.Ledger.{steps_in};
ghost use Rattle.ovs_links.specs.Absorbing.{last_chain};
ghost use Rattle.ovs_links.specs.Epochs.{EpochHistory, IsEpochChain, IsEpochHistory, epochs_of, links_in};
ghost use Rattle.ovs_links.specs.Sets.{AllOf, Among, Holds};
ghost use Rattle.ovs_links.specs.declared.link.Link.{Link};
ghost use Rattle.ovs_node_threads.specs.Reporting.{HasAccount, IsReport};

use crate::connector::Connector;
use crate::desks::SharedUpstreamHandler;
use crate::node_threads::NodeThreads;
use crate::observer::FoldObserver;
use crate::run_error::RunError;
use crate::running::{Shared, run_node};
use crate::shared_authority::{KnownDesk, SharedAuthority, SharedForwarder};
use crate::upstreams::{Upstream, UpstreamFeeds};
use ovs_node::{Node, Report};
use ovs_sync::feed::FeedName;
use ovs_types::Schema;
use ovs_views::{Handle, NodeName};
use ovs_worker::{Poller, Wake};
use std::alloc::Global;
use std::sync::Wait;
use std::thread::Threads;

/// The threads of a relay: one for each upstream, and workers.
pub type RelayThreads<'a, K, Q, C, D, L, B> = NodeThreads<
    K,
    Upstream<K, Q, C, SharedUpstreamHandler<'a, L, B>>,
    D,
>;

/// Runs a relay of a database of this schema (`run_node`). Each link that it holds was sent by an end of the node's feed, and is one that
/// may come of the upstreams' connections.
///
/// # Errors
/// As `run_node`; a thread that couldn't be started is none of them, and told to the observer.
pub fn run_relay<
    'a,
    K: NodeName + Send + Sync,
    Q: FeedName + Send + Sync,
    C: Connector<In: Send, Out: Send> + Drop + Send,
    D: Poller<In: Send, Out: Send> + Drop + Send,
    L: KnownDesk<Known: Send> + SharedForwarder + SharedAuthority<K> + Sync,
    B: Wake + Sync,
    O: FoldObserver,
    H: Wait + Drop,
    R: Threads + Wait + Sync,
>(
    alloc: Global,
    shared: &'a Shared<'a, K, Q, L, B, B, O, R>,
    schema: &'a Schema,
    node: Node<K, Q, Handle<K, H>>,
    threads: RelayThreads<'a, K, Q, C, D, L, B>,
) -> Result<Report<K, Q, Handle<K, H>>, RunError>
    requires schema { schema.now ≡ K.schema }
    requires in_step { NodeInStep node }
    requires none { node.intake.feed.returned ≡ [] }
    ensures report { IfOk result (λ r. IsReport (AllOf (C.admits K.schema)) node.intake.feed.ends r.feed r.store r.settled r.forks r.short r.dropped) }
    ensures account { IfOk result (λ r. HasAccount r.feed r.store r.forks r.short r.dropped r.refused.items) }
    ensures schema { IfOk result (λ r. r.store.schema ≡ K.schema) }
    // Where the connections admit links of one history alone, none is refused as a contradiction, and the node has the database of the
    // latest epoch of which it has the first link, as far as it has all of it.
    ensures headline { (h : EpochHistory) → IsEpochHistory K.schema.description.tables h → ((l : Link) → C.admits K.schema l → Among (links_in K.schema.description.tables (epochs_of h)) l)
        → IfOk result (λ r. ∥ (r.forks ≡ 0) × IsEpochChain K.schema.description.tables (Holds r.store.links) (epochs_of h) r.store.folded ∥₁) }
    ensures told { IfOk result (λ r. (last_chain r.told ≡ steps_in r.store) × (r.told ≡ published r.publisher.handle)) }
{
    let feeds = UpstreamFeeds {
        rt: shared.rt,
        alloc,
        schema,
        queue: shared.queue,
        board: shared.board,
        counts: shared.counters.folded(),
        limits: shared.limits,
    };
    run_node(alloc, shared, feeds, node, threads)
}
