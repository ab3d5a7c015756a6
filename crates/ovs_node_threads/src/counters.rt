//! What the threads of a node count.

use crate::folded_count::FoldedCount;
use crate::progress::Progress;
use std::sync::atomic::{AtomicU64, Ordering};

/// What the threads of a node count: how many of them run, how many of those send links to the folder, how many couldn't be started,
/// how many of the links the folder has folded, and how far it has come.
#[derive(Drop)]
pub struct Counters {
    running: AtomicU64,
    feeding: AtomicU64,
    unstarted: AtomicU64,
    folded: FoldedCount,
    progress: Progress,
}

impl Counters {
    /// Nothing was counted yet.
    pub fn new() -> Counters {
        Counters {
            running: AtomicU64::new(0),
            feeding: AtomicU64::new(0),
            unstarted: AtomicU64::new(0),
            folded: FoldedCount::new(),
            progress: Progress::new(),
        }
    }

    /// How far the folder has come.
    pub fn progress(&self) -> &Progress {
        &self.progress
    }

    /// How many links were sent to the folder, and how many of them it has folded.
    pub fn folded(&self) -> &FoldedCount {
        &self.folded
    }

    /// How many threads run beside the folder's.
    pub fn running(&self) -> &AtomicU64 {
        &self.running
    }

    /// So many threads are begun that send links.
    pub(crate) fn note_feeding(&self, feeding: u64) {
        self.feeding.store(feeding, Ordering::SeqCst);
    }

    /// A thread has ended, one that sent links or another.
    pub(crate) fn note_end(&self, has_fed: bool) {
        self.running.fetch_sub(1, Ordering::SeqCst);
        if has_fed {
            self.feeding.fetch_sub(1, Ordering::SeqCst);
        }
    }

    /// A thread couldn't be started.
    pub(crate) fn note_unstarted(&self) {
        self.unstarted.fetch_add(1, Ordering::SeqCst);
    }

    /// How many threads couldn't be started.
    pub(crate) fn unstarted(&self) -> u64 {
        self.unstarted.load(Ordering::SeqCst)
    }

    /// Whether no thread sends links any more, while others run. A thread that sent links counts as sending as long as it counts as
    /// running, so that this isn't so where it was the last of all.
    pub(crate) fn is_unfed(&self) -> bool {
        self.feeding.load(Ordering::SeqCst) == 0 && self.running.load(Ordering::SeqCst) > 0
    }
}
