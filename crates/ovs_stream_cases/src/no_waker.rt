//! What wakes nobody.

use ovs_worker::Wake;

/// Wakes nobody: there is no worker, and nothing goes up.
#[derive(Clone, Copy, Drop)]
pub(crate) struct NoWaker;

impl Wake for NoWaker {
    fn wake(&self) {}
}
