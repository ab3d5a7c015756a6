//! The jobs of a node's threads. Values that cross into a thread and back are passed as tuples of their parts, for which the checker
//! finds that they may.

ghost use Rattle.std.specs.Prelude.{◌≡◌, IfOk, IfErr, vec_len};

use left_right::ReadHandle;
use ovs_sync::threads::{SpawnError, Work, run_scoped};
use ovs_views::{NodeName, PublishedCopy, StepPrefix};
use std::alloc::Global;
use std::sync::Wait;
use std::thread::Threads;

/// What a thread beside the folder's is for.
#[derive(Drop)]
pub enum ThreadRole<U, W> {
    /// It sends links to the node's feed: those of an upstream, or at the source those of its own desk.
    Feed(U),
    /// It serves readers.
    Worker(W),
}

impl<U, W> ThreadRole<U, W> {
    /// Whether it sends links to the node's feed.
    pub(crate) fn is_feed(&self) -> bool {
        matches!(self, ThreadRole::Feed(_))
    }
}

/// Does each job that has a view in a thread of its own, beside what is to be done here.
pub(crate) fn run_scoped_with_views<
    K: NodeName + Send + Sync,
    E: Send + Drop,
    F: Send + Drop,
    W: Work<
        (E, ReadHandle<PublishedCopy<K>>, StepPrefix<K>),
        (F, ReadHandle<PublishedCopy<K>>, StepPrefix<K>),
    >
        + Sync,
    R: Threads + Wait + Sync,
    S: FnOnce() -> Z,
    Z,
>(
    rt: &R,
    alloc: Global,
    jobs: Vec<(E, ReadHandle<PublishedCopy<K>>, StepPrefix<K>)>,
    work: &W,
    here: S,
) -> Result<
    (Vec<(F, ReadHandle<PublishedCopy<K>>, StepPrefix<K>)>, Z),
    SpawnError<(E, ReadHandle<PublishedCopy<K>>, StepPrefix<K>), S>,
>
    requires here { S.pre here }
    ensures all { IfOk result (λ r. vec_len r.0 ≡ vec_len jobs) }
    ensures here { IfOk result (λ r. S.post here r.1) }
    ensures handed_back { IfErr result (λ n. (n.jobs ≡ jobs) × (n.here ≡ here)) }
{
    run_scoped(rt, alloc, jobs, work, here)
}
