//! The threads of a node.

ghost use Rattle.std.specs.Prelude.{◌≡◌, []};
ghost use Rattle.std.specs.List.{AllByRecursion};

use crate::engine::Talkers;
use crate::node_case_error::NodeCaseError;
use crate::readers::{Chat, MemoryWaker, ReaderPoller, counter};
use crate::upstreams::{ScriptedUpstream, UpstreamScript};
use ovs_json::Text;
use ovs_node::{FeedEnd, FeedName, NodeLink, NodeName, Opened, View};
use ovs_node_threads::{
    Counters, LockedForwarder, NodeThreads, RelayThreads, SharedUpstreamHandler, UnusedPoller,
    UpstreamSender,
};
use ovs_recorded_desk::{DeskName, DeskStep, RecordedDesk};
use std::alloc::Global;
use std::sync::atomic::AtomicU64;
use std::sync::{Arc, Wait};

/// What the threads share beside the node's own.
#[derive(Drop)]
pub(crate) struct SharedParts<'a, N: DeskName, R: Wait> {
    // The number of the last commit that a reader was shown.
    seen: Arc<AtomicU64>,
    // One for each reader.
    pub(crate) chats: Vec<Chat>,
    pub(crate) wakers: Vec<MemoryWaker>,
    pub(crate) desk: LockedForwarder<'a, N, R>,
    pub(crate) uplink_waker: MemoryWaker,
    pub(crate) counters: Counters,
}

impl<'a, N: DeskName, R: Wait> SharedParts<'a, N, R> {
    /// Nothing was said yet to so many readers.
    pub(crate) fn new(
        rt: &'a R,
        alloc: Global,
        readers: usize,
        database: Text,
        opened: Opened<DeskStep>,
    ) -> Result<SharedParts<'a, N, R>, NodeCaseError>
        requires name { (opened.seen.book ≡ N.book) × (database ≡ N.database) }
    {
        let (desk, _known) = RecordedDesk::new(alloc, database, opened);
        let seen = counter(alloc)?;
        let chats = chats_of(alloc, readers, &seen)?;
        Ok(SharedParts {
            seen,
            chats,
            wakers: wakers_of(alloc, readers)?,
            desk: LockedForwarder::new(rt, desk),
            uplink_waker: MemoryWaker::new(alloc)?,
            counters: Counters::new(),
        })
    }

    /// How many readers were shown the commit of this number.
    pub(crate) fn count_shown(&self, number: u64) -> usize {
        self.chats
            .iter()
            .filter(|chat| chat.has_seen(number))
            .count()
    }
}

// What each of so many readers shares with its poller.
fn chats_of(
    alloc: Global,
    readers: usize,
    seen: &Arc<AtomicU64>,
) -> Result<Vec<Chat>, NodeCaseError> {
    let mut chats = Vec::new(alloc);
    for _ in 0..readers {
        chats.push(Chat::new(alloc, seen)?)?;
    }
    Ok(chats)
}

// What wakes each of so many workers.
fn wakers_of(alloc: Global, workers: usize) -> Result<Vec<MemoryWaker>, NodeCaseError> {
    let mut wakers = Vec::new(alloc);
    for _ in 0..workers {
        wakers.push(MemoryWaker::new(alloc)?)?;
    }
    Ok(wakers)
}

/// What the upstreams send with.
pub(crate) fn senders_of<K: NodeName, Q: FeedName>(
    alloc: Global,
    ends: Vec<FeedEnd<NodeLink<K>, Q>>,
) -> Result<Vec<UpstreamSender<K, Q, ScriptedUpstream>>, NodeCaseError>
    requires unsent { AllByRecursion (λ e. e.1 ≡ []) ends.items }
{
    let mut senders = Vec::new(alloc);
    for end in ends {
        senders.push(UpstreamSender::new(end))?;
    }
    Ok(senders)
}

/// Threads whose devices are over memory.
pub(crate) type MemoryThreads<'a, 'x, K, Q, N, R> = RelayThreads<
    'a,
    K,
    Q,
    ScriptedUpstream,
    ReaderPoller,
    LockedForwarder<'x, N, R>,
    MemoryWaker,
>;

// An upstream for each of these senders, with the sessions of its number.
fn add_upstreams<'a, 'x, K: NodeName, Q: FeedName, N: DeskName + Send, R: Wait>(
    alloc: Global,
    threads: MemoryThreads<'a, 'x, K, Q, N, R>,
    common: &'a SharedParts<'x, N, R>,
    senders: Vec<UpstreamSender<K, Q, ScriptedUpstream>>,
    upstreams: Vec<Vec<UpstreamScript>>,
    views: &mut Vec<View<K>>,
) -> Result<MemoryThreads<'a, 'x, K, Q, N, R>, NodeCaseError> {
    let mut threads = threads;
    for (sender, sessions) in senders.into_iter().zip(upstreams) {
        let seen = common.seen.clone()?;
        let view = views.pop().ok_or(NodeCaseError::BadCount)?;
        let upstream = ovs_node_threads::Upstream {
            sender,
            connector: ScriptedUpstream::new(sessions, seen),
            source: SharedUpstreamHandler::new(alloc, None),
        };
        threads.add_feed(upstream, view)?;
    }
    Ok(threads)
}

// The poller by which a reader comes.
fn pollers_of(
    alloc: Global,
    chat: &Chat,
    waker: &MemoryWaker,
    request: &str,
    until: u64,
) -> Result<UnusedPoller<ReaderPoller>, NodeCaseError> {
    let request = String::from_str(alloc, request)?;
    let (chat, waker) = (chat.again()?, waker.again()?);
    Ok(UnusedPoller::new(ReaderPoller::new(chat, waker, request, until)))
}

// A worker for each reader, which asks for this until an answer showed the commit of this number.
fn add_readers<'a, 'x, K: NodeName, Q: FeedName, N: DeskName + Send, R: Wait>(
    alloc: Global,
    threads: MemoryThreads<'a, 'x, K, Q, N, R>,
    common: &'a SharedParts<'x, N, R>,
    request: &str,
    until: u64,
    views: &mut Vec<View<K>>,
) -> Result<MemoryThreads<'a, 'x, K, Q, N, R>, NodeCaseError> {
    let mut threads = threads;
    for (chat, waker) in common.chats.iter().zip(&common.wakers) {
        let poller = pollers_of(alloc, chat, waker, request, until)?;
        threads.add_worker(poller, views.pop().ok_or(NodeCaseError::BadCount)?)?;
    }
    Ok(threads)
}

/// The upstreams that talk to a node, and its readers.
pub(crate) fn threads_of<'a, 'x, K: NodeName, Q: FeedName, N: DeskName + Send, R: Wait>(
    alloc: Global,
    talkers: Talkers,
    common: &'a SharedParts<'x, N, R>,
    senders: Vec<UpstreamSender<K, Q, ScriptedUpstream>>,
    views: Vec<View<K>>,
) -> Result<MemoryThreads<'a, 'x, K, Q, N, R>, NodeCaseError> {
    let Talkers {
        upstreams,
        until,
        request,
        ..
    } = talkers;
    let mut views = views;
    let threads = NodeThreads::new(alloc);
    let threads = add_upstreams(alloc, threads, common, senders, upstreams, &mut views)?;
    add_readers(alloc, threads, common, request.as_str(), until, &mut views)
}
