//! How far the folder has come, as the other threads see it without a lock.

use ovs_types::TxnId;
use std::sync::atomic::{AtomicBool, AtomicU64, Ordering};

/// How far the folder has come, as the other threads see it without a lock.
#[derive(Drop)]
pub struct Progress {
    // The low half of the id that was folded last.
    head: AtomicU64,
    has_refused: AtomicBool,
}

// The low half of an id.
fn low_half(id: TxnId) -> u64 {
    (u128::from(id) & u128::from(u64::MAX)) as u64
}

impl Progress {
    /// Nothing is folded, and no link was refused.
    pub(crate) fn new() -> Progress {
        Progress {
            head: AtomicU64::new(0),
            has_refused: AtomicBool::new(false),
        }
    }

    /// This id was folded last.
    pub(crate) fn note_head(&self, id: TxnId) {
        self.head.store(low_half(id), Ordering::SeqCst);
    }

    /// A link was refused.
    pub(crate) fn note_refused(&self) {
        self.has_refused.store(true, Ordering::SeqCst);
    }

    /// Whether a link was refused.
    pub fn has_refused(&self) -> bool {
        self.has_refused.load(Ordering::SeqCst)
    }

    /// Whether this id may have been folded last: it is so where it was, and seldom where it wasn't.
    pub(crate) fn may_be_head(&self, id: TxnId) -> bool {
        self.head.load(Ordering::SeqCst) == low_half(id)
    }
}
