//! A node's desk, which its threads share.

ghost use Rattle.std.specs.Prelude.{◌≡◌, ℕ, Bool, true, false, List, Option, Some, None, Ok, Err, IfOk, IfSome, OnOk, OnErr};
ghost use Rattle.ovs_authority.specs.declared.ask.Ask.{Ask};
ghost use mathlib.Core.List.{IsPrefix};
ghost use Rattle.ovs_desk.specs.Ledger.{next_standing};
ghost use Rattle.ovs_desk.specs.declared.source_message.SourceMessage.{SourceMessage};
ghost use Rattle.ovs_recorded_desk.specs.Steps.{EndsRun, EndsWith};
ghost use Rattle.ovs_recorded_desk.specs.declared.step.DeskStep.TheVariants as steps;
ghost use Rattle.ovs_links.specs.declared.step.Step.{Step};
ghost use Rattle.ovs_service.specs.Replies.{RepliesTo, IsAnswer};
ghost use Rattle.ovs_wire.specs.declared.message.Message.{Message};
ghost use Rattle.std.specs.Option.{ForSome};
ghost use Rattle.ovs_views.specs.Published.{is_shown};
ghost use Rattle.ovs_node_threads.specs.Collecting.{HasNone, IsCollected, IsHeldBack};
ghost use Rattle.ovs_node_threads.specs.Refusing.{IsBadReply};

use ovs_authority::Ask;
use ovs_desk::{BadReply, SourceMessage};
use ovs_json::{NoMemory, SessionId};
use ovs_recorded_desk::{DeskFront, DeskName, RecordedDesk};
use ovs_views::{Gone, NodeName, View, ViewError, ViewSession};
use ovs_wire::Message;
use std::alloc::Global;
use std::sync::{Mutex, Wait};

/// A desk that threads share, of whose calls each caller may know some.
pub trait KnownDesk {
    /// What a caller knows of the calls that were made on the desk. It is lent to each of the caller's own.
    type Known: Drop;

    /// What was called by now, for one caller more to know.
    fn known(&self) -> Self::Known;
}

/// A desk that threads share: each calls it by itself, so that no caller knows what it holds. What each call does is what its
/// `Authority` says of the one of its name.
pub trait SharedAuthority<K: NodeName>: KnownDesk {
    // What a session asks may be replied to so at once, or not.
    ghost replies: { ℕ → Ask → Option Message → Type 0 };

    // This may be collected for a session that was shown these steps, where answers are held back until what they stand for is
    // shown, or where they aren't.
    ghost owes: { Bool → ℕ → List Step → Message → Type 0 };

    /// Asks for a session, and gives the reply where it is known at once.
    ///
    /// # Errors
    /// `NoMemory` alone; then nothing was asked.
    fn ask(
        &self,
        alloc: Global,
        session_id: SessionId,
        ask: Ask,
        known: &mut Self::Known,
    ) -> Result<Option<Message>, NoMemory>
        ensures replied { IfOk result (λ r. replies session_id ask r × RepliesTo ask.id r) };

    /// The next message for a session, where one is owed. Where answers are held back it is none while the first answer stands
    /// where the session wasn't shown the chain yet.
    ///
    /// # Errors
    /// `Gone` where the view is gone that knows what the session was shown, which matters where answers are held back alone, or
    /// `NoMemory`; then nothing was given.
    fn collect(
        &self,
        alloc: Global,
        session_id: SessionId,
        is_held_back: bool,
        view: &mut View<K>,
        session: &ViewSession<K>,
        known: &mut Self::Known,
    ) -> Result<Option<Message>, ViewError>
        ensures given { IfOk result (λ r. IfSome r (λ m. owes is_held_back session_id session.now.last m × IsAnswer m)) }
        ensures gone { result ≡ Err ViewError.Gone → is_held_back ≡ true }
        ensures never_epoch { result ≡ Err ViewError.Epoch → ⊥ }
        ensures view { view.new ≡ view.old };

    /// Ends a session.
    fn end_session(&self, session_id: SessionId, known: &mut Self::Known);
}

/// A relay's desk, as the thread of the upstream shares it that is the source.
pub trait SharedForwarder: KnownDesk {
    // The next request went up, where there was one: of the calls on the desk these were known before, and these now.
    ghost takes: { Self.Known → Option Message → Self.Known → Type 0 };

    // The source said this.
    ghost hears: { Self.Known → SourceMessage → Self.Known → Type 0 };

    // The source may not say this.
    ghost refuses: { SourceMessage → Type 0 };

    // There is a source.
    ghost finds: { Self.Known → Self.Known → Type 0 };

    // The source is lost.
    ghost loses: { Self.Known → Self.Known → Type 0 };

    /// The next request to go up.
    ///
    /// # Errors
    /// `NoMemory` alone; then nothing went up.
    fn take_up(&self, alloc: Global, known: &mut Self::Known) -> Result<Option<Message>, NoMemory>
        ensures taken { IfOk result (λ m. takes known.old m known.new) };

    /// What the source says, and whom it is for: the session whose transaction it answers, `None` where it is of locks, or for
    /// nobody.
    ///
    /// # Errors
    /// `BadReply` where that is no answer to what is open; nothing is changed then.
    fn heard(
        &self,
        message: SourceMessage,
        known: &mut Self::Known,
    ) -> Result<Option<SessionId>, BadReply>
        ensures heard { OnOk result (hears known.old message known.new) }
        ensures refused { OnErr result (refuses message) };

    /// There is a source.
    fn found_source(&self, known: &mut Self::Known)
        ensures found { finds known.old known.new };

    /// The source is lost.
    fn lost_source(&self, known: &mut Self::Known)
        ensures lost { loses known.old known.new };
}

// Whether a session may be given its next message. Where answers are held back, its first answer is given only once the session was
// shown the id at which the answer stands; `Gone` where the view is gone that knows whether it was.
fn may_be_given<K: NodeName, N: DeskName, R: Wait>(
    rt: &R,
    desk: &RecordedDesk<N>,
    session_id: SessionId,
    is_held_back: bool,
    view: &mut View<K>,
    session: &ViewSession<K>,
    known: &mut DeskFront<N>,
) -> Result<bool, Gone>
    ensures shown { result ≡ Ok true → is_held_back ≡ true
        → ForSome (next_standing session_id desk.now.desk.forwards.ledger) (λ id. is_shown session.now.last id ≡ true) }
    ensures unshown { result ≡ Ok false → (is_held_back ≡ true) × IsHeldBack N.database session_id session.now.last known.old known.new }
    ensures gone { OnErr result (is_held_back ≡ true) }
    ensures learnt { IsPrefix known.old known.new }
    ensures view { view.new ≡ view.old }
{
    if !is_held_back {
        return Ok(true);
    }
    match desk.standing(rt, session_id, known) {
        Some(id) => view.has_shown(session, id),
        None => Ok(true),
    }
}

// The next message that a desk owes a session, where that may be given.
fn collect_shown<K: NodeName, N: DeskName, R: Wait>(
    rt: &R,
    alloc: Global,
    desk: &mut RecordedDesk<N>,
    session_id: SessionId,
    is_held_back: bool,
    view: &mut View<K>,
    session: &ViewSession<K>,
    known: &mut DeskFront<N>,
) -> Result<Option<Message>, ViewError>
    ensures given { IfOk result (λ r. IfSome r (λ m. IsCollected N.database is_held_back session_id session.now.last m × IsAnswer m)) }
    ensures ends { IfOk result (λ r. IfSome r (λ m. EndsWith (steps.Collected session_id (Some m)) known.old known.new)) }
    ensures none { result ≡ Ok None → HasNone N.database is_held_back session_id session.now.last known.old known.new }
    ensures gone { result ≡ Err ViewError.Gone → is_held_back ≡ true }
    ensures never_epoch { result ≡ Err ViewError.Epoch → ⊥ }
    ensures view { view.new ≡ view.old }
{
    if !may_be_given(rt, &*desk, session_id, is_held_back, view, session, known)? {
        return Ok(None);
    }
    Ok(desk.collect(rt, alloc, session_id, known)?)
}

// Whose transaction it answers, if it does.
fn asker_of<N: DeskName>(desk: &RecordedDesk<N>, message: &SourceMessage) -> Option<SessionId> {
    match message {
        SourceMessage::ReplyFor { number, .. } => desk.asker_of(*number),
        _ => None,
    }
}

/// A relay's desk behind a lock, which is taken for one call at a time. All calls on it are steps of one run, of which each caller
/// knows those that were made up to its last.
#[derive(Drop)]
pub struct LockedForwarder<'a, N: DeskName, R: Wait> {
    rt: &'a R,
    desk: Mutex<RecordedDesk<N>>,
}

impl<'a, N: DeskName, R: Wait> LockedForwarder<'a, N, R> {
    /// This desk.
    pub fn new(rt: &'a R, desk: RecordedDesk<N>) -> LockedForwarder<'a, N, R> {
        LockedForwarder {
            rt,
            desk: Mutex::new(desk),
        }
    }
}

impl<'a, N: DeskName, R: Wait> KnownDesk for LockedForwarder<'a, N, R> {
    type Known = DeskFront<N>;

    fn known(&self) -> DeskFront<N> {
        self.desk.lock(self.rt).known()
    }
}

impl<'a, K: NodeName, N: DeskName, R: Wait> SharedAuthority<K> for LockedForwarder<'a, N, R> {
    ghost replies = { λ session_id ask r. EndsRun N.database (steps.Asked session_id ask r) };

    ghost owes = { λ held session_id steps m. IsCollected N.database held session_id steps m };

    fn ask(
        &self,
        alloc: Global,
        session_id: SessionId,
        ask: Ask,
        known: &mut DeskFront<N>,
    ) -> Result<Option<Message>, NoMemory>
        ensures replied { IfOk result (λ r. EndsRun N.database (steps.Asked session_id ask r) × RepliesTo ask.id r) }
        ensures ends { IfOk result (λ r. EndsWith (steps.Asked session_id ask r) known.old known.new) }
    {
        self.desk
            .lock(self.rt)
            .ask(self.rt, alloc, session_id, ask, known)
    }

    fn collect(
        &self,
        alloc: Global,
        session_id: SessionId,
        is_held_back: bool,
        view: &mut View<K>,
        session: &ViewSession<K>,
        known: &mut DeskFront<N>,
    ) -> Result<Option<Message>, ViewError>
        ensures given { IfOk result (λ r. IfSome r (λ m. IsCollected N.database is_held_back session_id session.now.last m × IsAnswer m)) }
        ensures gone { result ≡ Err ViewError.Gone → is_held_back ≡ true }
        ensures never_epoch { result ≡ Err ViewError.Epoch → ⊥ }
        ensures view { view.new ≡ view.old }
        ensures ends { IfOk result (λ r. IfSome r (λ m. EndsWith (steps.Collected session_id (Some m)) known.old known.new)) }
        ensures none { result ≡ Ok None → HasNone N.database is_held_back session_id session.now.last known.old known.new }
    {
        let mut desk = self.desk.lock(self.rt);
        collect_shown(
            self.rt,
            alloc,
            &mut *desk,
            session_id,
            is_held_back,
            view,
            session,
            known,
        )
    }

    fn end_session(&self, session_id: SessionId, known: &mut DeskFront<N>)
        ensures ends { EndsWith (steps.Ended session_id) known.old known.new }
    {
        self.desk
            .lock(self.rt)
            .end_session(self.rt, session_id, known);
    }
}

impl<'a, N: DeskName, R: Wait> SharedForwarder for LockedForwarder<'a, N, R> {
    ghost takes = { λ before m after. EndsWith (steps.WentUp m) before after };

    ghost hears = { λ before message after. EndsWith (steps.Heard message (Ok tt)) before after };

    ghost refuses = { λ message. IsBadReply message };

    ghost finds = { λ before after. EndsWith steps.FoundSource before after };

    ghost loses = { λ before after. EndsWith steps.LostSource before after };

    fn take_up(
        &self,
        alloc: Global,
        known: &mut DeskFront<N>,
    ) -> Result<Option<Message>, NoMemory> {
        self.desk.lock(self.rt).take_up(self.rt, alloc, known)
    }

    fn heard(
        &self,
        message: SourceMessage,
        known: &mut DeskFront<N>,
    ) -> Result<Option<SessionId>, BadReply> {
        let mut desk = self.desk.lock(self.rt);
        let asker = asker_of(&*desk, &message);
        desk.heard(self.rt, message, known)?;
        Ok(asker)
    }

    fn found_source(&self, known: &mut DeskFront<N>) {
        self.desk.lock(self.rt).found_source(self.rt, known);
    }

    fn lost_source(&self, known: &mut DeskFront<N>) {
        self.desk.lock(self.rt).lost_source(self.rt, known);
    }
}
