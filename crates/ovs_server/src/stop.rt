//! What brings a node to its end.

use ovs_sockets::Shutdown;
use ovs_worker::Wake;
use std::sync::Arc;

/// Brings a node to its end: no reader is taken any more, all sessions end, and so do its threads.
#[derive(Drop)]
pub struct Stop {
    shutdown: Arc<Shutdown>,
}

impl Stop {
    pub(crate) fn new(shutdown: Arc<Shutdown>) -> Stop {
        Stop { shutdown }
    }

    /// Does so.
    pub fn now(&self) {
        self.shutdown.wake();
    }
}
