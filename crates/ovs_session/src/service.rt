//! What answers sessions.
ghost use Rattle.std.specs.Prelude.{◌≡◌, ◌++◌, ◌↔◌, ℕ, List, Ok, Err, true, false, IsTrue, OnOk, OnErr};

use crate::ended::ServiceError;
use crate::limits::TurnProgress;
use crate::outbox::Outbox;

/// What answers the messages of sessions, and tells them what is new. One value serves many sessions, and holds what they
/// share; what it knows of one of them is a value of its own.
pub trait Service {
    /// What it knows of one session.
    type Session: Drop;

    // A message is answered by a text, from what was known of the session to what is known then.
    ghost answers: { Self.Session → List ℕ → List ℕ → Self.Session → Type 0 };

    // A text is told unasked, from what was known of the session to what is known then.
    ghost tells: { Self.Session → List ℕ → Self.Session → Type 0 };

    // A message is none that is answered.
    ghost refuses: { Self.Session → List ℕ → Type 0 };

    // The session's next message may be answered now.
    ghost may_answer: { Self.Session → Type 0 };

    // Nothing that the session asked for is still to come.
    ghost is_answered: { Self.Session → Type 0 };

    // Nothing more is to be told to the session, of what the service knows now.
    ghost is_told: { Self → Self.Session → Type 0 };

    // More may be to be told to the session.
    ghost may_tell: { Self → Self.Session → Type 0 };

    // What it answers from is gone.
    ghost is_gone: { Self → Type 0 };

    // What it answers from began anew, so that what the session was told doesn't go on.
    ghost is_over: { Self → Self.Session → Type 0 };

    /// Whether the session's next message may be answered now. Else it waits, and nothing more is read. It is no only while
    /// something is still to come that the session asked for.
    fn takes(&self, session: &Self::Session) -> bool
        ensures value { IsTrue result ↔ may_answer session.now };

    /// Whether something that the session asked for is still to come. Its end waits for that.
    fn awaits(&self, session: &Self::Session) -> bool
        ensures answered { result ≡ false → is_answered session.now }
        ensures awaited { result ≡ true → is_answered session.now → ⊥ };

    /// Answers a message: its bytes are one JSON object, of which nothing was read yet. The answer, which may be empty,
    /// is put behind what is to be written. After a refusal nothing has changed.
    fn answer(
        &mut self,
        session: &mut Self::Session,
        message: &[u8],
        out: &mut Outbox,
    ) -> Result<(), ServiceError>
        requires taken { may_answer session.old }
        ensures ok { OnOk result ((said : List ℕ) × answers session.old message.now said session.new × (out.new ≡ out.old ++ said)) }
        ensures err { OnErr result ((session.new ≡ session.old) × (out.new ≡ out.old)) }
        ensures bad { result ≡ Err ServiceError.BadInput → refuses session.old message.now }
        ensures gone { result ≡ Err ServiceError.Gone → is_gone self.new }
        ensures epoch { result ≡ Err ServiceError.Epoch → is_over self.new session.new };

    /// Tells what is new, which may be nothing. It is idle only where nothing more is to be told now; where it is busy, it is to
    /// be called again. After a refusal nothing has changed.
    fn tell(
        &mut self,
        session: &mut Self::Session,
        out: &mut Outbox,
    ) -> Result<TurnProgress, ServiceError>
        ensures ok { OnOk result ((said : List ℕ) × tells session.old said session.new × (out.new ≡ out.old ++ said)) }
        ensures err { OnErr result ((session.new ≡ session.old) × (out.new ≡ out.old)) }
        ensures bad { result ≡ Err ServiceError.BadInput → ⊥ }
        ensures told { result ≡ Ok TurnProgress.Idle → is_told self.new session.new }
        ensures more { result ≡ Ok TurnProgress.Busy → may_tell self.new session.new }
        ensures gone { result ≡ Err ServiceError.Gone → is_gone self.new }
        ensures epoch { result ≡ Err ServiceError.Epoch → is_over self.new session.new };
}
