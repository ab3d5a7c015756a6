//! What the threads beside the folder do. What crosses into a thread and back is told in tuples of what it is made of.

use crate::sendings::LinkSending;
use left_right::ReadHandle;
use ovs_node::{Board, FeedEnd, FeedName, FeedQueue, NodeLink, NodeName, StepPrefix, View, teach};
use ovs_sync::threads::Work;
use ovs_types::TxnId;
use ovs_views::PublishedCopy;
use std::sync::atomic::{AtomicU64, Ordering};
use std::sync::{Mutex, Wait};
use std::thread;

// How often an end looks at its view for what it waits for.
const TURNS: u64 = 1_000_000;

/// What a thread is to do, with a view.
#[derive(Drop)]
pub(crate) enum ThreadTask<K: NodeName, Q: FeedName> {
    /// To send these links by an end of the feed, in order.
    Send(FeedEnd<NodeLink<K>, Q>, Vec<LinkSending<K>>),
    /// To ask for the head again and again, until no thread sends any more.
    Read,
}

/// What a thread has done.
#[derive(Drop)]
pub(crate) enum Done<K: NodeName, Q: FeedName> {
    /// Whether all was sent by this end.
    Sent(FeedEnd<NodeLink<K>, Q>, bool),
    /// How often it was answered.
    Read(u64),
}

/// A task with the parts of the view by which it reads.
pub(crate) type TaskJob<K, Q> = (
    ThreadTask<K, Q>,
    ReadHandle<PublishedCopy<K>>,
    StepPrefix<K>,
);

/// What was done, with the parts of the view.
pub(crate) type TaskResult<K, Q> = (Done<K, Q>, ReadHandle<PublishedCopy<K>>, StepPrefix<K>);

// Has the view taught by the board until its head is this.
fn wait_for<K: NodeName, R: Wait>(
    rt: &R,
    board: &Mutex<Board<K>>,
    view: &mut View<K>,
    id: TxnId,
) -> bool {
    for _ in 0..TURNS {
        teach(rt, board, view);
        if view.head() == Ok(id) {
            return true;
        }
        thread::yield_now();
    }
    false
}

/// What the threads share.
#[derive(Drop)]
pub(crate) struct Jobs<'a, K: NodeName, Q: FeedName, R> {
    pub(crate) rt: &'a R,
    pub(crate) queue: &'a FeedQueue<NodeLink<K>, Q>,
    pub(crate) board: &'a Mutex<Board<K>>,
    // How many ends still send.
    pub(crate) sending: &'a AtomicU64,
}

impl<'a, K: NodeName, Q: FeedName, R: Wait> Jobs<'a, K, Q, R> {
    // Waits for what the link waits for, and sends it.
    fn send_one(
        &self,
        end: &mut FeedEnd<NodeLink<K>, Q>,
        view: &mut View<K>,
        sending: LinkSending<K>,
    ) -> bool {
        let LinkSending { after, link } = sending;
        if let Some(id) = after {
            if !wait_for(self.rt, self.board, view, id) {
                return false;
            }
        }
        end.send(self.rt, self.queue, link);
        true
    }

    // Sends all, in order, up to the first that isn't sent.
    fn send_all(
        &self,
        end: &mut FeedEnd<NodeLink<K>, Q>,
        view: &mut View<K>,
        sendings: Vec<LinkSending<K>>,
    ) -> bool {
        let mut is_whole = true;
        for sending in sendings {
            is_whole = is_whole && self.send_one(end, view, sending);
        }
        is_whole
    }

    // One thread fewer sends, which the folder is to see.
    fn leave(&self) {
        self.sending.fetch_sub(1, Ordering::SeqCst);
        self.queue.wake();
    }

    // Asks for the head again and again, until no thread sends any more, and gives how often it was told.
    fn read_on(&self, view: &mut View<K>) -> u64 {
        let mut answers = 0u64;
        for _ in self.rt.forever() {
            if self.sending.load(Ordering::SeqCst) == 0 {
                break;
            }
            if view.head().is_ok() {
                answers = answers.saturating_add(1);
            }
            // A view that loses its processor while it reads holds the folder up for a whole turn of the scheduler.
            thread::yield_now();
        }
        answers
    }
}

impl<'a, K: NodeName, Q: FeedName, R: Wait> Work<TaskJob<K, Q>, TaskResult<K, Q>>
    for Jobs<'a, K, Q, R> {
    fn work(&self, job: TaskJob<K, Q>) -> TaskResult<K, Q> {
        let (task, handle, known) = job;
        let mut view = View::new(handle, known);
        let done = match task {
            ThreadTask::Send(mut end, sendings) => {
                let is_whole = self.send_all(&mut end, &mut view, sendings);
                self.leave();
                Done::Sent(end, is_whole)
            }
            ThreadTask::Read => Done::Read(self.read_on(&mut view)),
        };
        let (handle, known) = view.into_parts();
        (done, handle, known)
    }

    fn refuse(&self, job: TaskJob<K, Q>) -> TaskResult<K, Q> {
        let (task, handle, known) = job;
        let done = match task {
            ThreadTask::Send(end, _) => {
                self.leave();
                Done::Sent(end, false)
            }
            ThreadTask::Read => Done::Read(0),
        };
        (done, handle, known)
    }
}
