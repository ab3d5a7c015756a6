//! The poller of a worker that serves nobody: before its first connection, and behind its last.

ghost use Rattle.std.specs.Prelude.{◌≡◌, [], ℕ, None};

use ovs_worker::Poller;

/// The poller of a worker, which has accepted no connection yet.
#[derive(Drop)]
pub struct UnusedPoller<D: Poller> {
    poller: D,
    ghost none: { ∥ ((key : ℕ) → D.out poller key ≡ None) ∥₁ },
    ghost none_back: { ∥ (D.back poller ≡ []) ∥₁ },
}

/// The poller of a worker, to which each connection that it accepted is back.
#[derive(Drop)]
pub struct IdlePoller<D: Poller> {
    poller: D,
    ghost none: { ∥ ((key : ℕ) → D.out poller key ≡ None) ∥₁ },
}

impl<D: Poller> UnusedPoller<D> {
    /// This poller.
    pub fn new(poller: D) -> UnusedPoller<D>
        requires none { (key : ℕ) → D.out poller key ≡ None }
        requires none_back { D.back poller ≡ [] }
        ensures poller { result.poller ≡ poller }
    {
        UnusedPoller { poller }
    }

    /// The poller.
    pub(crate) fn into_poller(self) -> D
        ensures poller { result ≡ self.poller }
        ensures none { (key : ℕ) → D.out result key ≡ None }
        ensures none_back { D.back result ≡ [] }
    {
        let UnusedPoller { poller } = self;
        poller
    }

    /// An idle poller, since it accepted no connection.
    pub(crate) fn into_idle(self) -> IdlePoller<D>
        ensures poller { result.poller ≡ self.poller }
    {
        let UnusedPoller { poller } = self;
        IdlePoller { poller }
    }
}

impl<D: Poller> IdlePoller<D> {
    /// This poller.
    pub(crate) fn new(poller: D) -> IdlePoller<D>
        requires none { (key : ℕ) → D.out poller key ≡ None }
        ensures poller { result.poller ≡ poller }
    {
        IdlePoller { poller }
    }

    /// The poller.
    pub fn into_poller(self) -> D
        ensures poller { result ≡ self.poller }
        ensures none { (key : ℕ) → D.out result key ≡ None }
    {
        let IdlePoller { poller } = self;
        poller
    }
}
