//! A node is made, runs in threads, and ends.

ghost use Rattle.std.specs.Prelude.{◌≡◌, ◌≤◌, [], IfOk};
ghost use Rattle.ovs_node.specs.Nodes.{NodeInStep, OpenNodeInStep};
ghost use Rattle.ovs_node.specs.Ledger.{IsFresh};

use crate::fold::{finished, fold_all};
use crate::jobs::{Done, Jobs, TaskJob, TaskResult, ThreadTask};
use crate::node_case_error::NodeCaseError;
use crate::outcome::{measured, told};
use crate::sendings::{LinkSending, Scene};
use left_right::ReadHandle;
use ovs_links::Step;
use ovs_node::{
    Board, FeedEnd, FeedName, FeedQueue, Handle, Node, NodeLink, NodeName, OpenNode, Opened, Parts,
    StepPrefix, View,
};
use ovs_sync::threads::{SpawnError, Work, run_scoped};
use ovs_types::{NoMemory, Schema};
use ovs_views::PublishedCopy;
use std::alloc::Global;
use std::marker::Brand;
use std::sync::atomic::AtomicU64;
use std::sync::{Mutex, Wait};
use std::thread::Threads;

/// What a node tells of this history, with so many views, when its ends have sent what is listed.
pub(crate) fn opened<K: NodeName + Send + Sync, R: Threads + Wait + Sync>(
    rt: &R,
    alloc: Global,
    schema: &Schema,
    opened: Opened<Step>,
    views: usize,
    scene: Scene,
) -> Result<String, NodeCaseError>
    requires name { (opened.seen.book ≡ K.book) × (schema.now ≡ K.schema) }
{
    let node = OpenNode::<K, Handle<K, &R>>::new(alloc, rt, schema, opened, scene.ends(), views)?;
    let sendings = scene.sendings::<K>(alloc, schema)?;
    named::<K, Brand, R>(rt, alloc, node, sendings, matches!(scene, Scene::Many(_)))
}

// The same, where the node is opened.
fn named<K: NodeName + Send + Sync, Q: FeedName + Send + Sync, R: Threads + Wait + Sync>(
    rt: &R,
    alloc: Global,
    node: OpenNode<K, Handle<K, &R>>,
    sendings: Vec<Vec<LinkSending<K>>>,
    is_measured: bool,
) -> Result<String, NodeCaseError>
    requires table { node.feed.items.table.shared.table_id ≡ Q.table }
    requires upstreams { node.upstreams ≤ 4 }
    requires store { IsFresh K.schema node.store }
    requires publisher { OpenNodeInStep node }
{
    let Parts {
        node,
        queue,
        ends,
        views,
        board,
    } = node.named::<Q>()?;
    let sending = AtomicU64::new(ends.len() as u64);
    let jobs = jobs_of(alloc, ends, sendings, views)?;
    let (backs, node) = fold_with_threads(rt, alloc, &queue, &board, &sending, jobs, node)?;
    outcome(rt, alloc, &queue, &board, node, backs, is_measured)
}

// What came of it, once all threads have come to their ends.
fn outcome<K: NodeName, Q: FeedName, H: Wait + Drop, R: Wait>(
    rt: &R,
    alloc: Global,
    queue: &FeedQueue<NodeLink<K>, Q>,
    board: &Mutex<Board<K>>,
    node: Node<K, Q, Handle<K, H>>,
    backs: Vec<TaskResult<K, Q>>,
    is_measured: bool,
) -> Result<String, NodeCaseError>
    requires in_step { NodeInStep node }
{
    let answers = answers_of(backs.as_slice());
    let mut views = Vec::new(alloc);
    let report = finished(rt, queue, board, node, backs, &mut views)?;
    if is_measured {
        measured(alloc, &report, answers)
    } else {
        told(alloc, &report, views)
    }
}

// How often all views answered that read.
fn answers_of<K: NodeName, Q: FeedName>(backs: &[TaskResult<K, Q>]) -> u64 {
    let mut total = 0u64;
    for number in 0..backs.len() {
        if let Done::Read(answers) = &backs[number].0 {
            total = total.saturating_add(*answers);
        }
    }
    total
}

// Each end with a view and what it is to send; the views that are left read.
fn jobs_of<K: NodeName, Q: FeedName>(
    alloc: Global,
    ends: Vec<FeedEnd<NodeLink<K>, Q>>,
    sendings: Vec<Vec<LinkSending<K>>>,
    views: Vec<View<K>>,
) -> Result<Vec<TaskJob<K, Q>>, NodeCaseError> {
    let mut views = views;
    let mut jobs = Vec::new(alloc);
    for (end, sendings) in ends.into_iter().zip(sendings) {
        let (handle, known) = views.pop().ok_or(NodeCaseError::BadCount)?.into_parts();
        jobs.push((ThreadTask::Send(end, sendings), handle, known))?;
    }
    for view in views {
        let (handle, known) = view.into_parts();
        jobs.push((ThreadTask::Read, handle, known))?;
    }
    Ok(jobs)
}

// Does each task that has a view in a thread of its own, beside what is to be done here.
fn run_scoped_with_views<
    K: NodeName + Send + Sync,
    E: Send + Drop,
    F: Send + Drop,
    W: Work<
        (E, ReadHandle<PublishedCopy<K>>, StepPrefix<K>),
        (F, ReadHandle<PublishedCopy<K>>, StepPrefix<K>),
    >
        + Sync,
    R: Threads + Wait + Sync,
    S: FnOnce() -> Z,
    Z,
>(
    rt: &R,
    alloc: Global,
    jobs: Vec<(E, ReadHandle<PublishedCopy<K>>, StepPrefix<K>)>,
    work: &W,
    here: S,
) -> Result<
    (Vec<(F, ReadHandle<PublishedCopy<K>>, StepPrefix<K>)>, Z),
    SpawnError<(E, ReadHandle<PublishedCopy<K>>, StepPrefix<K>), S>,
>
    requires here { S.pre here }
    ensures here { IfOk result (λ r. S.post here r.1) }
{
    run_scoped(rt, alloc, jobs, work, here)
}

// Each job in a thread of its own, and this one folds: what the jobs gave, and the node, which is still in step.
fn fold_with_threads<
    'x,
    K: NodeName + Send + Sync,
    Q: FeedName + Send + Sync,
    H: Wait + Drop,
    R: Threads + Wait + Sync,
>(
    rt: &'x R,
    alloc: Global,
    queue: &'x FeedQueue<NodeLink<K>, Q>,
    board: &'x Mutex<Board<K>>,
    sending: &'x AtomicU64,
    jobs: Vec<TaskJob<K, Q>>,
    node: Node<K, Q, Handle<K, H>>,
) -> Result<(Vec<TaskResult<K, Q>>, Node<K, Q, Handle<K, H>>), NoMemory>
    requires in_step { NodeInStep node }
    ensures in_step { IfOk result (λ r. NodeInStep r.1) }
{
    let work = Jobs {
        rt,
        queue,
        board,
        sending,
    };
    let folds = move || -> Node<K, Q, Handle<K, H>>
        requires { NodeInStep node }
        ensures { NodeInStep result }
    {
        let mut node = node;
        fold_all(rt, queue, board, sending, &mut node);
        node
    };
    match run_scoped_with_views(rt, alloc, jobs, &work, folds) {
        Ok(done) => Ok(done),
        Err(_not_begun) => Err(NoMemory),
    }
}
