//! What the threads of a node do.

use crate::counters::Counters;
use crate::desks::SharedDesk;
use crate::role::ThreadRole;
use crate::shared_authority::SharedAuthority;
use crate::worker_poller::{IdlePoller, UnusedPoller};
use crate::workers::{WorkerResult, serve_readers};
use left_right::ReadHandle;
use ovs_node::NodeLink;
use ovs_session::Limits;
use ovs_sync::feed::{FeedName, FeedQueue};
use ovs_sync::threads::Work;
use ovs_views::{NodeName, PublishedCopy, StepPrefix, View};
use ovs_worker::{Poller, Wake};
use std::alloc::Global;
use std::sync::Wait;

/// What each thread has: what it sends links with, or a worker's poller, and the parts of its view.
pub(crate) type ThreadJob<K, E, D> = (
    ThreadRole<E, UnusedPoller<D>>,
    ReadHandle<PublishedCopy<K>>,
    StepPrefix<K>,
);

/// What comes back of each.
pub(crate) type ThreadResult<K, F, D> = (
    ThreadRole<F, IdlePoller<D>>,
    ReadHandle<PublishedCopy<K>>,
    StepPrefix<K>,
);

/// What those threads of a node do that send links to its feed. A fact about what is left of one is a fact of its type.
pub trait Feeds<K: NodeName, E, F> {
    /// Sends the links that come, until no more do.
    fn feed(&self, from: E, view: &mut View<K>) -> F;

    /// What is left where there is no thread for it.
    fn refuse(&self, from: E) -> F;
}

/// What the threads of a node share, but for the folder's.
#[derive(Drop)]
pub(crate) struct Serving<
    'a,
    K: NodeName,
    Q: FeedName,
    T: Drop,
    L: SharedAuthority<K>,
    U: Wake,
    B: Wake,
    R: Wait,
> {
    /// What those do that send links.
    pub(crate) feeds: T,
    /// What they wait with.
    pub(crate) rt: &'a R,
    /// Where memory comes from.
    pub(crate) alloc: Global,
    /// Where the links go.
    pub(crate) queue: &'a FeedQueue<NodeLink<K>, Q>,
    /// Where what only the source can answer is asked.
    pub(crate) desk: &'a L,
    /// What wakes the thread that does what comes of that.
    pub(crate) uplink_waker: &'a U,
    /// What wakes the workers.
    pub(crate) wakers: &'a [B],
    /// What the threads count.
    pub(crate) counters: &'a Counters,
    /// How much of a session may wait to be written, and how many messages it answers in a turn.
    pub(crate) limits: Limits,
}

impl<
    'a,
    K: NodeName,
    Q: FeedName,
    T: Drop,
    L: SharedAuthority<K>,
    U: Wake,
    B: Wake,
    R: Wait,
> Serving<'a, K, Q, T, L, U, B, R> {
    // A thread has ended, one that sent links or a worker, which the folder is to see, and who waits for what workers ask.
    fn leave(&self, has_fed: bool) {
        self.counters.note_end(has_fed);
        self.queue.wake();
        self.uplink_waker.wake();
    }

    // Serves the readers that this poller accepts.
    fn serve<D: Poller + Drop>(&self, poller: UnusedPoller<D>, view: View<K>) -> WorkerResult<K, D>
        ensures closed { D.is_closed result.poller.poller }
    {
        let desk = SharedDesk::new(
            self.desk,
            self.uplink_waker,
            self.wakers,
            self.counters.progress(),
        );
        serve_readers::<K, SharedDesk<'a, L, U, B>, D, R>(
            self.rt,
            self.alloc,
            view,
            desk,
            poller,
            self.limits,
        )
    }
}

impl<
    'a,
    K: NodeName,
    Q: FeedName,
    T: Feeds<K, E, F> + Drop,
    L: SharedAuthority<K>,
    U: Wake,
    B: Wake,
    R: Wait,
    E: Drop,
    F: Drop,
    D: Poller + Drop,
> Work<ThreadJob<K, E, D>, ThreadResult<K, F, D>> for Serving<'a, K, Q, T, L, U, B, R> {
    fn work(&self, job: ThreadJob<K, E, D>) -> ThreadResult<K, F, D> {
        let (role, handle, known) = job;
        let mut view = View::new(handle, known);
        let feeds = role.is_feed();
        let role = match role {
            ThreadRole::Feed(from) => ThreadRole::Feed(self.feeds.feed(from, &mut view)),
            ThreadRole::Worker(poller) => {
                let worked = self.serve(poller, view);
                view = worked.view;
                ThreadRole::Worker(worked.poller)
            }
        };
        self.leave(feeds);
        let (handle, known) = view.into_parts();
        (role, handle, known)
    }

    fn refuse(&self, job: ThreadJob<K, E, D>) -> ThreadResult<K, F, D> {
        let (role, handle, known) = job;
        self.counters.note_unstarted();
        self.leave(role.is_feed());
        let role = match role {
            ThreadRole::Feed(from) => ThreadRole::Feed(self.feeds.refuse(from)),
            ThreadRole::Worker(poller) => ThreadRole::Worker(poller.into_idle()),
        };
        (role, handle, known)
    }
}

/// How many of these jobs send links to the folder.
pub(crate) fn feeds_among<K: NodeName, E, D: Poller>(jobs: &[ThreadJob<K, E, D>]) -> u64 {
    jobs.iter().filter(|job| job.0.is_feed()).count() as u64
}
