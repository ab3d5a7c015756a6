//! A source in threads, from its beginning to its end.

ghost use Rattle.std.specs.Prelude.{◌≡◌, [], IfOk};
ghost use Rattle.left_right.specs.Handles.{published};
ghost use Rattle.ovs_node.specs.Nodes.{NodeInStep};
ghost use Rattle.ovs_node.specs.Ledger.{steps_in};
ghost use Rattle.ovs_links.specs.Absorbing.{last_chain};
ghost use Rattle.ovs_node_threads.specs.Reporting.{HasAccount, IsReport};
ghost use Rattle.ovs_source_node.specs.Reporting.{IsOwnReport};

use crate::sending::{SourceEnd, follow_source};
use crate::shared_source::SharedSource;
use crate::source_sender::{SourceSender, SourceSent};
use ovs_node::{Node, NodeLink, Report};
use ovs_node_threads::{
    Counters, FeedSink, Feeds, FoldObserver, KnownDesk, NodeThreads, RunError, Shared, run_node,
};
use ovs_sync::feed::{FeedName, FeedQueue};
use ovs_views::{Handle, NodeName, View};
use ovs_worker::{Poller, Wake};
use std::alloc::Global;
use std::sync::Wait;
use std::thread::Threads;

// What the thread shares with the others that sends the desk's links.
#[derive(Drop)]
struct Sends<'a, K: NodeName, Q: FeedName, L, R: Wait> {
    rt: &'a R,
    queue: &'a FeedQueue<NodeLink<K>, Q>,
    desk: &'a L,
    counters: &'a Counters,
}

impl<'a, K: NodeName, Q: FeedName, T: Drop, L: SharedSource<K, T>, R: Wait> Feeds<
    K,
    SourceSender<K, Q, T, L>,
    SourceSent<K, Q, T, L>,
> for Sends<'a, K, Q, L, R> {
    fn feed(
        &self,
        sender: SourceSender<K, Q, T, L>,
        _view: &mut View<K>,
    ) -> SourceSent<K, Q, T, L> {
        let (end, taken) = sender.into_parts();
        let sink = FeedSink::new(self.rt, self.queue, self.counters.folded(), end);
        let followed = follow_source::<K, T, L, FeedSink<'a, K, Q, R>, R>(
            self.rt,
            self.desk,
            self.counters.running(),
            taken,
            sink,
        );
        let SourceEnd {
            sink,
            taken: _,
            counts: _,
        } = followed;
        SourceSent::new(sink.into_end())
    }

    fn refuse(&self, sender: SourceSender<K, Q, T, L>) -> SourceSent<K, Q, T, L> {
        sender.into_refused()
    }
}

/// Runs a source (`run_node`): the links of its desk are sent to the node's feed by a thread of their own. What is sent is all that was
/// taken out of the desk, each link once and in order: the first links of a history, which the node is then a node of.
///
/// # Errors
/// As `run_node`; `NoMemory` also where the thread couldn't be started that sends the desk's links.
pub fn run_source<
    'a,
    K: NodeName + Send + Sync,
    Q: FeedName + Send + Sync,
    T: Drop + Send,
    L: KnownDesk<Known: Send> + SharedSource<K, T> + Send + Sync,
    D: Poller<In: Send, Out: Send> + Drop + Send,
    B: Wake + Sync,
    O: FoldObserver,
    H: Wait + Drop,
    R: Threads + Wait + Sync,
>(
    alloc: Global,
    shared: &'a Shared<'a, K, Q, L, L, B, O, R>,
    node: Node<K, Q, Handle<K, H>>,
    threads: NodeThreads<K, SourceSender<K, Q, T, L>, D>,
) -> Result<Report<K, Q, Handle<K, H>>, RunError>
    requires in_step { NodeInStep node }
    requires none { node.intake.feed.returned ≡ [] }
    requires one { node.intake.feed.ends ≡ 1 }
    ensures report { IfOk result (λ r. ∥ IsOwnReport L.gives r.feed r.store r.settled r.forks r.short r.dropped ∥₁) }
    ensures sent { IfOk result (λ r. IsReport L.gives node.intake.feed.ends r.feed r.store r.settled r.forks r.short r.dropped) }
    ensures account { IfOk result (λ r. HasAccount r.feed r.store r.forks r.short r.dropped r.refused.items) }
    ensures schema { IfOk result (λ r. r.store.schema ≡ K.schema) }
    ensures told { IfOk result (λ r. (last_chain r.told ≡ steps_in r.store) × (r.told ≡ published r.publisher.handle)) }
{
    let sends = Sends {
        rt: shared.rt,
        queue: shared.queue,
        desk: shared.desk,
        counters: shared.counters,
    };
    run_node(alloc, shared, sends, node, threads)
}
