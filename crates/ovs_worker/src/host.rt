//! What is told of the end of sessions.
ghost use Rattle.std.specs.Prelude.{IfSome};

use ovs_session::Service;

/// A service that keeps things for sessions, and has to hear of their end.
pub trait SessionHost: Service {
    // A session may begin with this as what the service knows of it.
    ghost begins: { Self.Session → Type 0 };

    // Nothing is kept for the session any more.
    ghost is_silent: { Self → Self.Session → Type 0 };

    /// The session has ended, with this as what the service knew of it. For sessions that ended before still nothing is kept.
    fn end(&mut self, session: &Self::Session)
        ensures silent { is_silent self.new session.now }
        ensures stays { (other : Self.Session) → is_silent self.old other → is_silent self.new other };
}

/// A host that takes new sessions, and is told that its worker was woken.
pub trait AcceptingHost: SessionHost {
    /// What is known of a new session. `None` where no more are taken.
    fn begin(&mut self) -> Option<Self::Session>
        ensures begins { IfSome result (λ state. Self.begins state) };

    /// The worker was woken: there may be something new to tell, to any session.
    fn woken(&mut self);
}
