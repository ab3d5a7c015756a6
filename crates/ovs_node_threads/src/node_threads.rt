//! The threads that a node is to have beside the folder's.

ghost use Rattle.std.specs.Prelude.{◌≡◌, ◌+◌, ◌++◌, ◌∷◌, [], OnOk, OnErr, map, vec_len};
ghost use Rattle.ovs_node_threads.specs.declared.role.ThreadRole.{ThreadRole};

use crate::role::ThreadRole;
use crate::serving::ThreadJob;
use crate::worker_poller::UnusedPoller;
use ovs_json::NoMemory;
use ovs_views::{NodeName, View};
use ovs_worker::Poller;
use std::alloc::Global;

/// The threads that a node is to have beside the folder's: those that send links to it, each with what it sends them by, and workers.
#[derive(Drop)]
pub struct NodeThreads<K: NodeName, E: Drop, D: Poller + Drop> {
    pub(crate) jobs: Vec<ThreadJob<K, E, D>>,
}

impl<K: NodeName, E: Drop, D: Poller + Drop> NodeThreads<K, E, D> {
    /// None yet.
    pub fn new(alloc: Global) -> NodeThreads<K, E, D>
        ensures none { vec_len result.jobs ≡ 0 }
    {
        NodeThreads {
            jobs: Vec::new(alloc),
        }
    }

    // One more for this.
    fn add(&mut self, role: ThreadRole<E, UnusedPoller<D>>, view: View<K>) -> Result<(), NoMemory>
        ensures last { OnOk result (map (λ (job : _). job.0) self.new.jobs.items ≡ map (λ (job : _). job.0) self.old.jobs.items ++ role ∷ []) }
        ensures added { OnOk result (vec_len self.new.jobs ≡ vec_len self.old.jobs + 1) }
        ensures unchanged { OnErr result (self.new.jobs.items ≡ self.old.jobs.items) }
    {
        self.jobs.reserve(1)?;
        let (handle, known) = view.into_parts();
        self.jobs.push_reserved((role, handle, known));
        Ok(())
    }

    /// One more that sends links to the folder, which learns by this view what was folded.
    ///
    /// # Errors
    /// Memory ran out; then there are those that were.
    pub fn add_feed(&mut self, feed: E, view: View<K>) -> Result<(), NoMemory>
        ensures last { OnOk result (map (λ (job : _). job.0) self.new.jobs.items ≡ map (λ (job : _). job.0) self.old.jobs.items ++ ThreadRole.Feed feed ∷ []) }
        ensures added { OnOk result (vec_len self.new.jobs ≡ vec_len self.old.jobs + 1) }
        ensures unchanged { OnErr result (self.new.jobs.items ≡ self.old.jobs.items) }
    {
        self.add(ThreadRole::Feed(feed), view)
    }

    /// One worker more, whose readers come by this poller and are answered by this view.
    ///
    /// # Errors
    /// Memory ran out; then there are those that were.
    pub fn add_worker(&mut self, poller: UnusedPoller<D>, view: View<K>) -> Result<(), NoMemory>
        ensures last { OnOk result (map (λ (job : _). job.0) self.new.jobs.items ≡ map (λ (job : _). job.0) self.old.jobs.items ++ ThreadRole.Worker poller ∷ []) }
        ensures added { OnOk result (vec_len self.new.jobs ≡ vec_len self.old.jobs + 1) }
        ensures unchanged { OnErr result (self.new.jobs.items ≡ self.old.jobs.items) }
    {
        self.add(ThreadRole::Worker(poller), view)
    }
}
