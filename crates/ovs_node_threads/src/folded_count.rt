//! How many of the links that were sent to the folder it has folded.

ghost use Rattle.std.specs.Prelude.{◌≤◌};

use std::sync::atomic::{AtomicU64, Ordering};
use std::sync::{Condvar, Mutex, Wait};

/// How many links were sent to the folder, and how many of them it has folded. A thread that has sent some waits here until they
/// are. A link is folded once the folder is done with it: then it is published, or waits beside the chain, or was refused.
#[derive(Drop)]
pub struct FoldedCount {
    // How many were given to the queue, or are about to be.
    sent: AtomicU64,
    // How many were given to the queue, or fewer.
    queued: AtomicU64,
    // How many are folded, or fewer. What the queue gives first it was given first.
    folded: Mutex<u64>,
    // How many threads wait for more to be folded.
    waiting: AtomicU64,
    more: Condvar,
}

impl FoldedCount {
    /// Nothing was sent.
    pub(crate) fn new() -> FoldedCount {
        FoldedCount {
            sent: AtomicU64::new(0),
            queued: AtomicU64::new(0),
            folded: Mutex::new(0),
            waiting: AtomicU64::new(0),
            more: Condvar::new(),
        }
    }

    /// A link is to be given to the queue.
    pub(crate) fn note_sending(&self) {
        self.sent.fetch_add(1, Ordering::SeqCst);
    }

    /// It was.
    pub(crate) fn note_queued(&self) {
        self.queued.fetch_add(1, Ordering::SeqCst);
    }

    /// How many were given to the queue, at least.
    pub(crate) fn queued(&self) -> u64 {
        self.queued.load(Ordering::SeqCst)
    }

    // Wakes those that wait.
    fn wake(&self) {
        if self.waiting.load(Ordering::SeqCst) > 0 {
            self.more.notify_all();
        }
    }

    /// One more is folded, and all before it.
    pub(crate) fn note_one<R: Wait>(&self, rt: &R) {
        let mut folded = self.folded.lock(rt);
        *folded = (*folded).saturating_add(1);
        drop(folded);
        self.wake();
    }

    /// So many are folded, at least.
    pub(crate) fn note_all<R: Wait>(&self, rt: &R, number: u64) {
        let mut folded = self.folded.lock(rt);
        *folded = (*folded).max(number);
        drop(folded);
        self.wake();
    }

    /// Sleeps until all is folded that this thread has sent.
    pub(crate) fn wait_for_sent<R: Wait>(&self, rt: &R) {
        // The queue gives what the thread has sent before what is sent after this.
        let sent = self.sent.load(Ordering::SeqCst);
        self.waiting.fetch_add(1, Ordering::SeqCst);
        let folded = self
            .more
            .wait_while(rt, self.folded.lock(rt), |folded| *folded < sent);
        drop(folded);
        self.waiting.fetch_sub(1, Ordering::SeqCst);
    }
}
