//! A node comes to its end, once all its threads have.

ghost use Rattle.std.specs.Prelude.{◌≡◌, [], OnOk, IfOk};
ghost use Rattle.left_right.specs.Handles.{published};
ghost use Rattle.ovs_sync.specs.Feed.{IsDrained};
ghost use Rattle.ovs_node.specs.Nodes.{NodeAtRest, NodeInStep};
ghost use Rattle.ovs_node.specs.Ledger.{steps_in};
ghost use Rattle.ovs_links.specs.Absorbing.{last_chain};
ghost use Rattle.ovs_node_threads.specs.Reporting.{AreSent, HasAccount, IsReport, KeepsEnds};

use crate::role::ThreadRole;
use crate::run_error::RunError;
use crate::sender::Sender;
use crate::serving::ThreadResult;
use ovs_node::{Node, NodeLink, Report};
use ovs_sync::feed::{FeedName, FeedQueue};
use ovs_views::{Board, Handle, NodeName};
use ovs_worker::Poller;
use std::sync::{Mutex, Wait};
use std::thread;

// Takes back what a thread sent with, if it sent links.
fn take_back<K: NodeName, Q: FeedName, F: Sender<K, Q>, V: Drop, H: Wait + Drop>(
    queue: &FeedQueue<NodeLink<K>, Q>,
    node: &mut Node<K, Q, Handle<K, H>>,
    role: ThreadRole<F, V>,
) -> Result<(), RunError>
    requires in_step { NodeInStep node.old }
    requires sent { ∥ AreSent F.sends node.old.intake.feed.returned ∥₁ }
    ensures in_step { NodeInStep node.new }
    ensures sent { OnOk result (∥ AreSent F.sends node.new.intake.feed.returned ∥₁) }
    ensures ends { node.new.intake.feed.ends ≡ node.old.intake.feed.ends }
{
    let ThreadRole::Feed(sender) = role else {
        return Ok(());
    };
    match node.join(queue, sender.take_end()?) {
        Ok(()) => Ok(()),
        Err(_) => Err(RunError::NotBack),
    }
}

// Takes back what the threads sent with that sent links.
fn take_all_back<
    K: NodeName,
    Q: FeedName,
    F: Sender<K, Q> + Drop,
    D: Poller + Drop,
    H: Wait + Drop,
>(
    queue: &FeedQueue<NodeLink<K>, Q>,
    node: &mut Node<K, Q, Handle<K, H>>,
    backs: Vec<ThreadResult<K, F, D>>,
) -> Result<(), RunError>
    requires in_step { NodeInStep node.old }
    requires sent { ∥ AreSent F.sends node.old.intake.feed.returned ∥₁ }
    ensures in_step { NodeInStep node.new }
    ensures sent { OnOk result (∥ AreSent F.sends node.new.intake.feed.returned ∥₁) }
    ensures ends { node.new.intake.feed.ends ≡ node.old.intake.feed.ends }
{
    for back in backs {
        let (role, _handle, _known) = back;
        take_back(queue, node, role)?;
    }
    Ok(())
}

// Folds what is left to be folded. Where memory runs out it tries again.
fn fold_rest<K: NodeName, Q: FeedName, H: Wait + Drop, R: Wait>(
    rt: &R,
    queue: &FeedQueue<NodeLink<K>, Q>,
    board: &Mutex<Board<K>>,
    node: &mut Node<K, Q, Handle<K, H>>,
)
    requires in_step { NodeInStep node.old }
    ensures in_step { NodeInStep node.new }
    ensures done { NodeAtRest node.new × IsDrained node.new.intake.feed }
    ensures ends { KeepsEnds node.old.intake.feed node.new.intake.feed }
{
    for _ in rt.forever() {
        match node.fold_next(rt, queue, board) {
            Ok(true) => {}
            Ok(false) => break,
            Err(_) => thread::yield_now(),
        }
    }
}

/// Ends a node all of whose threads have come to their ends: what they sent with is taken back, in the order of the feed's ends, and
/// all is folded that they sent.
///
/// # Errors
/// `NotBack` where an end of the feed is missing or not in its place; what a sender says of links that didn't come.
pub(crate) fn report_of<
    K: NodeName,
    Q: FeedName,
    F: Sender<K, Q> + Drop,
    D: Poller + Drop,
    H: Wait + Drop,
    R: Wait,
>(
    rt: &R,
    queue: &FeedQueue<NodeLink<K>, Q>,
    board: &Mutex<Board<K>>,
    node: Node<K, Q, Handle<K, H>>,
    backs: Vec<ThreadResult<K, F, D>>,
) -> Result<Report<K, Q, Handle<K, H>>, RunError>
    requires in_step { NodeInStep node }
    requires none { node.intake.feed.returned ≡ [] }
    ensures report { IfOk result (λ r. IsReport F.sends node.intake.feed.ends r.feed r.store r.settled r.forks r.short r.dropped) }
    ensures account { IfOk result (λ r. HasAccount r.feed r.store r.forks r.short r.dropped r.refused.items) }
    ensures schema { IfOk result (λ r. r.store.schema ≡ K.schema) }
    // A view that learns `told` answers from all of the chain, and reads on while the publisher lives.
    ensures told { IfOk result (λ r. (last_chain r.told ≡ steps_in r.store) × (r.told ≡ published r.publisher.handle)) }
{
    let mut node = node;
    take_all_back(queue, &mut node, backs)?;
    fold_rest(rt, queue, board, &mut node);
    if !node.is_back() {
        return Err(RunError::NotBack);
    }
    let report = node.finish();
    // That its store has the node's schema is said with the store's chain.
    let _ = report.store.head();
    Ok(report)
}
