//! The session of a reader at a node.

ghost use Rattle.std.specs.Prelude.{◌≡◌, ◌<◌, ◌⊎◌, ◌↔◌, [], true, false, length, IfOk, IfErr, MatchResult, OnOk, OnErr};
ghost use Rattle.ovs_links.specs.Absorbing.{folded_by};
ghost use Rattle.ovs_reader.specs.Session.{new_session, is_over};
ghost use Rattle.ovs_reader.specs.Turns.{seen_turn, turn, after_turn};
ghost use Rattle.ovs_reader.specs.Telling.{told_some, after_some};
ghost use Rattle.ovs_views.specs.Published.{GoesOn};

use crate::name::{NodeName, StepPrefix};
use crate::published_copy::PublishedCopy;
use crate::view_error::{Gone, ViewError};
use ovs_reader::{ReaderSession, Turn};
use ovs_wire::Message;
use std::alloc::Global;
use std::marker::Model;

/// A reader's session, with the prefix of what it was shown last: so thousands of them share a view, and each is shown no less
/// than before.
#[derive(Drop)]
pub struct ViewSession<K: NodeName> {
    session: ReaderSession,
    last: StepPrefix<K>,
}

impl<K: NodeName> Model for ViewSession<K> {
    ghost use Rattle.std.specs.Prelude.{List, refl};
    ghost use Rattle.std.specs.Coded.{code_by, coded×, coded_list};
    ghost use Rattle.ovs_links.specs.contracts.step.Step as step_row;
    ghost use Rattle.ovs_links.specs.declared.step.Step.{Step};
    ghost use Rattle.ovs_links.specs.Absorbing.{folded_by};
    ghost use Rattle.ovs_reader.specs.contracts.session.ReaderSession as session_row;
    ghost use Rattle.ovs_reader.specs.Session.{SessionValue, MayBeShown};
    ghost use Rattle.ovs_views.specs.Published.{ViewSessionValue};

    ghost Value = { ViewSessionValue };

    ghost coded = { code_by (SessionValue × List Step) (coded× session_row.the_row.coded (coded_list step_row.the_row.coded))
        (λ s. (s.session, s.last)) (λ p. record { session = p.0; last = p.1 }) (λ _. refl) };

    ghost view = { λ s. record { session = s.session; last = s.last } };

    ghost invariant = { λ s. MayBeShown s.session (folded_by K.schema s.last) };
}

impl<K: NodeName> ViewSession<K> {
    /// A session that was shown no more than this prefix knows, and told nothing.
    pub fn new(alloc: Global, last: &StepPrefix<K>) -> ViewSession<K>
        ensures value { result ≡ record { session = new_session; last = last.now } }
    {
        let _ = last.len();
        ViewSession {
            session: ReaderSession::new(alloc),
            last: last.again(),
        }
    }

    /// Answers a message (RFC 7047 section 4.1) from what is shown.
    ///
    /// # Errors
    /// `Gone` only where that is less than what the session was shown before; else `Epoch` exactly where its chain begins at a
    /// greater start than the one that the session was shown last, and then for all that is shown later; `NoMemory`. Then nothing
    /// is changed.
    pub fn take_message(
        &mut self,
        alloc: Global,
        message: Message,
        shown: &PublishedCopy<K>,
    ) -> Result<Turn, ViewError>
        ensures later { OnOk result (GoesOn K.schema self.old.last shown.now) }
        ensures turn { IfOk result (λ t. seen_turn t ≡ turn self.old.session (folded_by K.schema shown.now) message) }
        ensures after { OnOk result (self.new ≡ record { session = after_turn self.old.session (folded_by K.schema shown.now) message; last = shown.now }) }
        ensures gone { IfErr result (λ e. e ≡ ViewError.Gone → length shown.now < length self.old.last) }
        ensures epoch { MatchResult result (λ _. is_over self.old.session.start (folded_by K.schema shown.now) ≡ false)
            (λ e. (e ≡ ViewError.Gone) ⊎ ((e ≡ ViewError.Epoch) ↔ (is_over self.old.session.start (folded_by K.schema shown.now) ≡ true))) }
        ensures unchanged { OnErr result (self.new ≡ self.old) }
    {
        let last = shown.since(&self.last).ok_or(Gone)?;
        let turn = self.session.take_message(alloc, message, shown.folded())?;
        self.last = last;
        Ok(turn)
    }

    /// The notifications that its monitors weren't given yet (RFC 7047 section 4.1.6), up to what is shown; but no step is begun
    /// once so many are told. Fewer mean that nothing is left to be told; what is left, the next call tells.
    ///
    /// # Errors
    /// `Gone` only where that is less than what the session was shown before; `Epoch` as `take_message`; `NoMemory`. Then nothing is
    /// changed.
    pub fn pump(
        &mut self,
        alloc: Global,
        shown: &PublishedCopy<K>,
        most: usize,
    ) -> Result<Vec<Message>, ViewError>
        requires some { 0 < most }
        ensures later { OnOk result (GoesOn K.schema self.old.last shown.now) }
        ensures told { IfOk result (λ ms. ms.items ≡ told_some most self.old.session.monitors (folded_by K.schema shown.now).steps) }
        ensures after { OnOk result (self.new ≡ record { session = after_some most self.old.session (folded_by K.schema shown.now); last = shown.now }) }
        ensures gone { IfErr result (λ e. e ≡ ViewError.Gone → length shown.now < length self.old.last) }
        ensures epoch { MatchResult result (λ _. is_over self.old.session.start (folded_by K.schema shown.now) ≡ false)
            (λ e. (e ≡ ViewError.Gone) ⊎ ((e ≡ ViewError.Epoch) ↔ (is_over self.old.session.start (folded_by K.schema shown.now) ≡ true))) }
        ensures unchanged { OnErr result (self.new ≡ self.old) }
    {
        let last = shown.since(&self.last).ok_or(Gone)?;
        let messages = self.session.pump_some(alloc, shown.folded(), most)?;
        self.last = last;
        Ok(messages)
    }

    /// The prefix of what it was shown last.
    pub(crate) fn last(&self) -> &StepPrefix<K>
        ensures value { result.now ≡ self.now.last }
    {
        &self.last
    }

    /// Ends the session: its monitors are gone, and from now on nothing is answered or told.
    pub fn end(&mut self)
        ensures value { self.new ≡ record { session = record { monitors = []; start = self.old.session.start; shown = self.old.session.shown; head = self.old.session.head; is_ended = true }; last = self.old.last } }
    {
        self.session.end();
    }
}
