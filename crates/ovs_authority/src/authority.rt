//! What answers the requests that only the source can answer.

ghost use Rattle.std.specs.Prelude.{◌≡◌, ◌≢◌, ℕ, List, Option, Some, IfOk, OnErr};
ghost use Rattle.ovs_authority.specs.Owing.{Owing, AsksTo, CollectsTo, LeavesOthers, IsSame, silent};

use crate::ask::Ask;
use ovs_json::{NoMemory, SessionId};
use ovs_wire::Message;
use std::alloc::Global;

/// What answers the requests that only the source can answer: the source's own desk, or that of a relay, which passes them on.
///
/// To each session it owes replies to some of its requests; of these some are known already, and notices of its locks. Each
/// request has at most one reply, a reply goes before a notice, and nothing goes to a session that ended. What one session
/// asks, or its end, changes nothing of what another one waits for and of the answers that it is owed.
pub trait Authority {
    // What is owed to each session, and the session that owns the lock of each name.
    ghost owing: { Self → ℕ → Owing };

    ghost owner: { Self → List ℕ → Option ℕ };

    /// Asks for a session, and gives the reply where it is known at once.
    ///
    /// # Errors
    /// `NoMemory` alone; then nothing was asked.
    fn ask(
        &mut self,
        alloc: Global,
        session: SessionId,
        ask: Ask,
    ) -> Result<Option<Message>, NoMemory>
        ensures asked { IfOk result (λ r. AsksTo (owing self.old session) ask.id r (owing self.new session)) }
        ensures others { LeavesOthers session (owing self.old) (owing self.new) }
        ensures unchanged { OnErr result (IsSame (owing self.old) (owing self.new)) };

    /// The next message for a session: an answer that is known now before a notice, and `None` where neither is owed. No lock
    /// changes its owner.
    ///
    /// # Errors
    /// `NoMemory` alone; then nothing was given.
    fn collect(&mut self, alloc: Global, session: SessionId) -> Result<Option<Message>, NoMemory>
        ensures given { IfOk result (λ r. CollectsTo (owing self.old session) r (owing self.new session)) }
        ensures others { (other : ℕ) → other ≢ session → owing self.new other ≡ owing self.old other }
        ensures owners { (name : List ℕ) → owner self.new name ≡ owner self.old name }
        ensures unchanged { OnErr result (IsSame (owing self.old) (owing self.new)) };

    /// Ends a session: nothing is owed to it, and it owns no lock. No memory is taken.
    fn end_session(&mut self, session: SessionId)
        ensures silent { owing self.new session ≡ silent }
        ensures owns_none { (name : List ℕ) → owner self.new name ≢ Some session }
        ensures others { LeavesOthers session (owing self.old) (owing self.new) };
}
