//! A node in threads, from its beginning to its end.

ghost use Rattle.std.specs.Prelude.{◌≡◌, [], IfOk};
ghost use Rattle.left_right.specs.Handles.{published};
ghost use Rattle.ovs_node.specs.Nodes.{NodeInStep};
ghost use Rattle.ovs_node.specs.Ledger.{steps_in};
ghost use Rattle.ovs_links.specs.Absorbing.{last_chain};
ghost use Rattle.ovs_node_threads.specs.Reporting.{HasAccount, IsReport};

use crate::counters::Counters;
use crate::ending::report_of;
use crate::folding::{Folding, fold_with_threads};
use crate::node_threads::NodeThreads;
use crate::observer::FoldObserver;
use crate::run_error::RunError;
use crate::sender::Sender;
use crate::serving::{Feeds, Serving, feeds_among};
use crate::shared_authority::{KnownDesk, SharedAuthority};
use ovs_node::{Node, NodeLink, Report};
use ovs_session::Limits;
use ovs_sync::feed::{FeedName, FeedQueue};
use ovs_views::{Board, Handle, NodeName};
use ovs_worker::{Poller, Wake};
use std::alloc::Global;
use std::sync::{Mutex, Wait};
use std::thread::Threads;

/// What the threads of a node share.
#[derive(Drop)]
pub struct Shared<
    'a,
    K: NodeName,
    Q: FeedName,
    L: SharedAuthority<K>,
    U: Wake,
    B: Wake,
    O: FoldObserver,
    R: Wait,
> {
    /// What they wait with.
    pub rt: &'a R,
    /// Where links go that are sent to the folder.
    pub queue: &'a FeedQueue<NodeLink<K>, Q>,
    /// Where what was published is told.
    pub board: &'a Mutex<Board<K>>,
    /// Where what only the source can answer is asked.
    pub desk: &'a L,
    /// What wakes the thread that does what comes of that: passes it on to the source, or sends the links that a commit made.
    pub uplink_waker: &'a U,
    /// What wakes the workers.
    pub wakers: &'a [B],
    /// What they count.
    pub counters: &'a Counters,
    /// Who looks on while the node runs.
    pub observer: &'a O,
    /// How much of a session may wait to be written, and how many messages it answers in a turn.
    pub limits: Limits,
}

/// Runs a node: each of its threads, and the folder in this one, until all threads have come to their ends. Then what they sent with
/// is taken back, and all is folded and published that they sent.
///
/// A thread that couldn't be started is told to the observer, and counts as one that has ended, with nothing done.
///
/// # Errors
/// `NoMemory` where memory ran out before a thread was started, or for one without which nothing is sent; `NotBack` where an end of
/// the feed didn't come back in its place.
pub fn run_node<
    'a,
    K: NodeName + Send + Sync,
    Q: FeedName + Send + Sync,
    T: Feeds<K, E, F> + Drop + Sync,
    E: Drop + Send,
    F: Sender<K, Q> + Drop + Send,
    D: Poller<In: Send, Out: Send> + Drop + Send,
    L: KnownDesk<Known: Send> + SharedAuthority<K> + Sync,
    U: Wake + Sync,
    B: Wake + Sync,
    O: FoldObserver,
    H: Wait + Drop,
    R: Threads + Wait + Sync,
>(
    alloc: Global,
    shared: &'a Shared<'a, K, Q, L, U, B, O, R>,
    feeds: T,
    node: Node<K, Q, Handle<K, H>>,
    threads: NodeThreads<K, E, D>,
) -> Result<Report<K, Q, Handle<K, H>>, RunError>
    requires in_step { NodeInStep node }
    requires none { node.intake.feed.returned ≡ [] }
    ensures report { IfOk result (λ r. IsReport F.sends node.intake.feed.ends r.feed r.store r.settled r.forks r.short r.dropped) }
    ensures account { IfOk result (λ r. HasAccount r.feed r.store r.forks r.short r.dropped r.refused.items) }
    ensures schema { IfOk result (λ r. r.store.schema ≡ K.schema) }
    // A view that learns `told` answers from all of the chain, and reads on while the publisher lives.
    ensures told { IfOk result (λ r. (last_chain r.told ≡ steps_in r.store) × (r.told ≡ published r.publisher.handle)) }
{
    let folding = Folding {
        rt: shared.rt,
        queue: shared.queue,
        board: shared.board,
        wakers: shared.wakers,
        observer: shared.observer,
        counters: shared.counters,
    };
    let serving = Serving {
        feeds,
        rt: shared.rt,
        alloc,
        queue: shared.queue,
        desk: shared.desk,
        uplink_waker: shared.uplink_waker,
        wakers: shared.wakers,
        counters: shared.counters,
        limits: shared.limits,
    };
    shared.counters.note_feeding(feeds_among(&threads.jobs));
    let (backs, node) = fold_with_threads(alloc, &folding, threads.jobs, &serving, node)?;
    report_of(shared.rt, shared.queue, shared.board, node, backs)
}
