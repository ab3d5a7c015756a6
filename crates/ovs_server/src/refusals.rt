//! Upstreams that can't be followed.

use ovs_sockets::Shutdown;
use ovs_worker::Wake;
use std::sync::Arc;
use std::sync::atomic::{AtomicBool, Ordering};

/// Brings a relay to its end once an upstream can't be followed, where that is wanted then.
#[derive(Drop)]
pub(crate) struct UpstreamRefusals {
    shutdown: Arc<Shutdown>,
    ends: bool,
    has_ended: AtomicBool,
}

impl UpstreamRefusals {
    /// No upstream was refused yet.
    pub(crate) fn new(shutdown: Arc<Shutdown>, ends: bool) -> UpstreamRefusals {
        UpstreamRefusals {
            shutdown,
            ends,
            has_ended: AtomicBool::new(false),
        }
    }

    /// An upstream can't be followed.
    pub(crate) fn note(&self) {
        if self.ends {
            self.has_ended.store(true, Ordering::SeqCst);
            self.shutdown.wake();
        }
    }

    /// Whether the relay came to its end for that.
    pub(crate) fn has_ended(&self) -> bool {
        self.has_ended.load(Ordering::SeqCst)
    }
}
