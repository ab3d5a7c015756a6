//! What the folder's thread does, and the end of a node.

ghost use Rattle.ovs_node.specs.Nodes.{NodeInStep};

use crate::jobs::{Done, TaskResult};
use crate::node_case_error::NodeCaseError;
use ovs_node::{
    Board, FeedEnd, FeedName, FeedQueue, Handle, Node, NodeLink, NodeName, Report, View,
};
use std::sync::atomic::{AtomicU64, Ordering};
use std::sync::{Mutex, Wait};
use std::thread;

/// Folds until no thread sends any more, and nothing is left to fold. Where memory runs out it tries again.
pub(crate) fn fold_all<K: NodeName, Q: FeedName, H: Wait + Drop, R: Wait>(
    rt: &R,
    queue: &FeedQueue<NodeLink<K>, Q>,
    board: &Mutex<Board<K>>,
    sending: &AtomicU64,
    node: &mut Node<K, Q, Handle<K, H>>,
)
    requires in_step { NodeInStep node.old }
    ensures in_step { NodeInStep node.new }
{
    for _ in rt.forever() {
        let is_last = sending.load(Ordering::SeqCst) == 0;
        match node.fold_next(rt, queue, board) {
            Ok(true) => {}
            Ok(false) if is_last => break,
            Ok(false) => queue.wait(rt),
            Err(_) => thread::yield_now(),
        }
    }
}

// Takes back what the threads had: the ends in the order of their numbers, and the views.
fn take_back<K: NodeName, Q: FeedName, H: Wait + Drop>(
    queue: &FeedQueue<NodeLink<K>, Q>,
    node: &mut Node<K, Q, Handle<K, H>>,
    backs: Vec<TaskResult<K, Q>>,
    views: &mut Vec<View<K>>,
) -> Result<(), NodeCaseError>
    requires in_step { NodeInStep node.old }
    ensures in_step { NodeInStep node.new }
{
    for back in backs {
        take_one_back(queue, node, back, views)?;
    }
    Ok(())
}

fn take_one_back<K: NodeName, Q: FeedName, H: Wait + Drop>(
    queue: &FeedQueue<NodeLink<K>, Q>,
    node: &mut Node<K, Q, Handle<K, H>>,
    back: TaskResult<K, Q>,
    views: &mut Vec<View<K>>,
) -> Result<(), NodeCaseError>
    requires in_step { NodeInStep node.old }
    ensures in_step { NodeInStep node.new }
{
    let (done, handle, known) = back;
    views.push(View::new(handle, known))?;
    let Done::Sent(end, is_whole) = done else {
        return Ok(());
    };
    match (is_joined(queue, node, end), is_whole) {
        (true, true) => Ok(()),
        (true, false) => Err(NodeCaseError::Unsent),
        (false, _) => Err(NodeCaseError::NotDrained),
    }
}

// Whether an end was the next to come back, and did.
fn is_joined<K: NodeName, Q: FeedName, H: Wait + Drop>(
    queue: &FeedQueue<NodeLink<K>, Q>,
    node: &mut Node<K, Q, Handle<K, H>>,
    end: FeedEnd<NodeLink<K>, Q>,
) -> bool
    requires in_step { NodeInStep node.old }
    ensures in_step { NodeInStep node.new }
{
    node.join(queue, end).is_ok()
}

/// Takes back what the threads had, and ends the node.
pub(crate) fn finished<K: NodeName, Q: FeedName, H: Wait + Drop, R: Wait>(
    rt: &R,
    queue: &FeedQueue<NodeLink<K>, Q>,
    board: &Mutex<Board<K>>,
    node: Node<K, Q, Handle<K, H>>,
    backs: Vec<TaskResult<K, Q>>,
    views: &mut Vec<View<K>>,
) -> Result<Report<K, Q, Handle<K, H>>, NodeCaseError>
    requires in_step { NodeInStep node }
{
    let mut node = node;
    take_back(queue, &mut node, backs, views)?;
    if node.fold_next(rt, queue, board)? || !node.is_back() {
        return Err(NodeCaseError::NotDrained);
    }
    Ok(node.finish())
}
