//! What wakes a thread that waits for sockets.

use crate::worker_group::WorkerGroup;
use mio::Waker;
use ovs_worker::Wake;
use std::alloc::AllocError;
use std::sync::Arc;
use std::sync::atomic::{AtomicBool, AtomicU64, Ordering};

/// Whether a worker is to be woken, and whether it is to take connections.
#[derive(Drop)]
pub(crate) struct WakeState {
    // It was woken, and hasn't heard of that yet.
    was_woken: AtomicBool,
    // How many sessions it serves.
    sessions: AtomicU64,
    worker_group: Arc<WorkerGroup>,
}

impl WakeState {
    /// Of one worker more, which serves nobody and wasn't woken.
    pub(crate) fn new(worker_group: Arc<WorkerGroup>) -> WakeState {
        worker_group.add_worker();
        WakeState {
            was_woken: AtomicBool::new(false),
            sessions: AtomicU64::new(0),
            worker_group,
        }
    }

    /// It hears that it was woken: what is new after this is for the next time.
    pub(crate) fn hear(&self) {
        self.was_woken.store(false, Ordering::SeqCst);
    }

    /// It serves one session more, which hasn't looked yet at what is new.
    pub(crate) fn add_session(&self) {
        self.sessions.fetch_add(1, Ordering::SeqCst);
        self.worker_group.add_session();
    }

    /// It serves one session less.
    pub(crate) fn remove_session(&self) {
        self.sessions.fetch_sub(1, Ordering::SeqCst);
        self.worker_group.remove_session();
    }

    /// It takes no more connections. Whether no worker does.
    pub(crate) fn close(&self) -> bool {
        self.worker_group.close_worker()
    }

    /// Whether it serves more sessions than its part of all.
    pub(crate) fn is_above_part(&self) -> bool {
        self.worker_group
            .is_above_part(self.sessions.load(Ordering::SeqCst))
    }

    // Notes that it is called. Whether the system is to wake it for that: it serves somebody, and has heard of every call before.
    fn wake(&self) -> bool {
        self.sessions.load(Ordering::SeqCst) > 0 && !self.was_woken.swap(true, Ordering::SeqCst)
    }
}

/// Wakes one thread that waits for sockets. A worker that serves nobody isn't woken, nor one that was woken and hasn't heard
/// of it yet: what is new by then it sees once it has.
#[derive(Drop)]
pub struct SocketWaker {
    waker: Arc<Waker>,
    // None of a thread that is no worker, which is woken each time.
    wake_state: Option<Arc<WakeState>>,
}

impl SocketWaker {
    /// Of a thread that is woken each time.
    pub(crate) fn new(waker: Arc<Waker>) -> SocketWaker {
        SocketWaker {
            waker,
            wake_state: None,
        }
    }

    /// Of a worker.
    pub(crate) fn of_worker(waker: Arc<Waker>, wake_state: Arc<WakeState>) -> SocketWaker {
        SocketWaker {
            waker,
            wake_state: Some(wake_state),
        }
    }

    pub(crate) fn waker(&self) -> Result<Arc<Waker>, AllocError> {
        self.waker.clone()
    }
}

impl Wake for SocketWaker {
    fn wake(&self) {
        let is_to_wake = match &self.wake_state {
            Some(wake_state) => wake_state.wake(),
            None => true,
        };
        if is_to_wake {
            // It fails only where the thread has let its sockets go, which then doesn't wait.
            let _ = self.waker.wake();
        }
    }
}
