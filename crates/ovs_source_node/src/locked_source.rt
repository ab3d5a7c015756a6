//! A source's desk behind a lock.

ghost use Rattle.std.specs.Prelude.{◌≡◌, ◌++◌, ◌∷◌, [], Some, None, Ok, Err, true, false, IfOk, IfSome, OnErr, MatchOption};
ghost use mathlib.Core.List.{IsPrefix};
ghost use Rattle.std.specs.Coded.{Coded-set};
ghost use Rattle.std.specs.Option.{ForSome};
ghost use Rattle.ovs_links.specs.Sets.{IsOfTables};
ghost use Rattle.ovs_recorded_source.specs.Steps.{EndsRun, EndsWith, IsAsked, IsGiven};
ghost use Rattle.ovs_recorded_source.specs.Taking.{AreTaken};
ghost use Rattle.ovs_recorded_source.specs.Waiting.{next_standing};
ghost use Rattle.ovs_recorded_source.specs.declared.step.SourceStep.TheVariants as steps;
ghost use Rattle.ovs_types.specs.contracts.schema.Schema as schema;
ghost use Rattle.ovs_service.specs.Replies.{RepliesTo, IsAnswer};
ghost use Rattle.ovs_views.specs.Published.{is_shown};
ghost use Rattle.ovs_source_node.specs.Giving.{HadNone, HasNone, IsCollected, IsHeldBack};
ghost use Rattle.ovs_source_node.specs.Learning.{Learns};

use crate::shared_source::SharedSource;
use ovs_authority::{Ask, Verb};
use ovs_json::{NoMemory, SessionId};
use ovs_links::Link;
use ovs_node_threads::{KnownDesk, SharedAuthority};
use ovs_recorded_source::{RecordedSource, SourceFront, SourceName, TakenLinks};
use ovs_views::{Gone, NodeName, View, ViewError, ViewSession};
use ovs_wire::Message;
use ovs_worker::Wake;
use std::alloc::Global;
use std::marker::PhantomData;
use std::sync::{Mutex, Wait};
use std::thread::Parker;

// Whether a session may be given its next message. Where answers are held back, the first reply that waits for it is given only once the
// session was shown the id at which the reply stands; `Gone` where the view is gone that knows whether it was.
fn may_be_given<K: NodeName, N: SourceName, R: Wait>(
    rt: &R,
    desk: &RecordedSource<N>,
    session_id: SessionId,
    is_held_back: bool,
    view: &mut View<K>,
    session: &ViewSession<K>,
    known: &mut SourceFront<N>,
) -> Result<bool, Gone>
    ensures shown { result ≡ Ok true → is_held_back ≡ true
        → ForSome (next_standing session_id desk.now.state.waiting) (λ id. is_shown session.now.last id ≡ true) }
    ensures unshown { result ≡ Ok false → (is_held_back ≡ true) × IsHeldBack N.start session_id session.now.last known.old known.new }
    ensures gone { OnErr result (is_held_back ≡ true) }
    ensures learnt { IsPrefix known.old known.new }
    ensures view { view.new ≡ view.old }
{
    if !is_held_back {
        return Ok(true);
    }
    match desk.standing(rt, session_id, known) {
        Some(id) => view.has_shown(session, id),
        None => Ok(true),
    }
}

// The next message for a session, where that may be given.
fn collect_shown<K: NodeName, N: SourceName, R: Wait>(
    rt: &R,
    alloc: Global,
    desk: &mut RecordedSource<N>,
    session_id: SessionId,
    is_held_back: bool,
    view: &mut View<K>,
    session: &ViewSession<K>,
    known: &mut SourceFront<N>,
) -> Result<Option<Message>, ViewError>
    ensures given { IfOk result (λ r. IfSome r (λ m. IsCollected N.start is_held_back session_id session.now.last m × IsAnswer m)) }
    ensures ends { IfOk result (λ r. IfSome r (λ m. IsGiven (λ s. EndsWith s known.old known.new) session_id (Some m))) }
    ensures none { result ≡ Ok None → HasNone N.start is_held_back session_id session.now.last known.old known.new }
    ensures gone { result ≡ Err ViewError.Gone → is_held_back ≡ true }
    ensures never_epoch { result ≡ Err ViewError.Epoch → ⊥ }
    ensures view { view.new ≡ view.old }
{
    if !may_be_given(rt, &*desk, session_id, is_held_back, view, session, known)? {
        return Ok(None);
    }
    Ok(desk.collect(rt, alloc, session_id, known)?)
}

// An epoch that is due begins before a transaction, though replies wait: it is after so many commits, and no more.
fn begin_before<N: SourceName, R: Wait>(
    rt: &R,
    alloc: Global,
    desk: &mut RecordedSource<N>,
    verb: &Verb,
    known: &mut SourceFront<N>,
)
    ensures learnt { IsPrefix known.old known.new }
{
    if let Verb::Transact(_) = verb {
        let _has_begun = desk.trim_if_due(rt, alloc, known);
    }
}

// Asks for a session.
fn ask_in_epoch<N: SourceName, R: Wait>(
    rt: &R,
    alloc: Global,
    desk: &mut RecordedSource<N>,
    session_id: SessionId,
    ask: Ask,
    known: &mut SourceFront<N>,
) -> Result<Option<Message>, NoMemory>
    ensures replied { IfOk result (λ r. IsAsked (EndsRun N.start) session_id ask r × RepliesTo ask.id r) }
    ensures ends { IfOk result (λ r. IsAsked (λ s. EndsWith s known.old known.new) session_id ask r) }
{
    begin_before(rt, alloc, &mut *desk, &ask.verb, known);
    desk.ask(rt, alloc, session_id, ask, known)
}

/// A source's desk behind a lock, which is taken for one call at a time. All calls on it are steps of one run, of which each caller
/// knows those that were made up to its last.
#[derive(Drop)]
pub struct LockedSource<'a, K: NodeName, N: SourceName, R: Wait> {
    rt: &'a R,
    alloc: Global,
    desk: Mutex<RecordedSource<N>>,
    waker: Parker,
    of: PhantomData<K>,
    ghost schema: { N.start.source.schema ≡ K.schema } by { Coded-set schema.the_row.coded N.start.source.schema K.schema },
}

impl<'a, K: NodeName, N: SourceName, R: Wait> LockedSource<'a, K, N, R> {
    /// This desk, which began with a database of the node's schema.
    pub fn new(rt: &'a R, alloc: Global, desk: RecordedSource<N>) -> LockedSource<'a, K, N, R>
        requires schema { N.start.source.schema ≡ K.schema }
    {
        LockedSource {
            rt,
            alloc,
            desk: Mutex::new(desk),
            waker: Parker::new(),
            of: PhantomData,
        }
    }

    // An epoch that is due begins, if no reply waits, and the thread that sends its link is woken.
    fn trim_once_answered(&self, desk: &mut RecordedSource<N>, known: &mut SourceFront<N>)
        ensures learnt { IsPrefix known.old known.new }
    {
        if desk.trim_once_answered(self.rt, self.alloc, known) {
            self.waker.unpark();
        }
    }
}

impl<'a, K: NodeName, N: SourceName, R: Wait> KnownDesk for LockedSource<'a, K, N, R> {
    type Known = SourceFront<N>;

    fn known(&self) -> SourceFront<N> {
        self.desk.lock(self.rt).known()
    }
}

impl<'a, K: NodeName, N: SourceName, R: Wait> SharedAuthority<K> for LockedSource<'a, K, N, R> {
    ghost replies = { λ session_id ask r. IsAsked (EndsRun N.start) session_id ask r };

    ghost owes = { λ held session_id steps m. IsCollected N.start held session_id steps m };

    fn ask(
        &self,
        alloc: Global,
        session_id: SessionId,
        ask: Ask,
        known: &mut SourceFront<N>,
    ) -> Result<Option<Message>, NoMemory>
        ensures replied { IfOk result (λ r. IsAsked (EndsRun N.start) session_id ask r × RepliesTo ask.id r) }
        ensures ends { IfOk result (λ r. IsAsked (λ s. EndsWith s known.old known.new) session_id ask r) }
    {
        let mut desk = self.desk.lock(self.rt);
        ask_in_epoch(self.rt, alloc, &mut *desk, session_id, ask, known)
    }

    fn collect(
        &self,
        alloc: Global,
        session_id: SessionId,
        is_held_back: bool,
        view: &mut View<K>,
        session: &ViewSession<K>,
        known: &mut SourceFront<N>,
    ) -> Result<Option<Message>, ViewError>
        ensures given { IfOk result (λ r. IfSome r (λ m. IsCollected N.start is_held_back session_id session.now.last m × IsAnswer m)) }
        ensures gone { result ≡ Err ViewError.Gone → is_held_back ≡ true }
        ensures never_epoch { result ≡ Err ViewError.Epoch → ⊥ }
        ensures view { view.new ≡ view.old }
        ensures learnt { IfOk result (λ r. IfSome r (λ m. IsGiven (λ s. Learns s known.old known.new) session_id (Some m))) }
        ensures none { result ≡ Ok None → HadNone N.start is_held_back session_id session.now.last known.old known.new }
    {
        let mut desk = self.desk.lock(self.rt);
        let collected = collect_shown(
            self.rt,
            alloc,
            &mut *desk,
            session_id,
            is_held_back,
            view,
            session,
            known,
        )?;
        self.trim_once_answered(&mut *desk, known);
        Ok(collected)
    }

    // An epoch that is due waits for no reply of the session any more.
    fn end_session(&self, session_id: SessionId, known: &mut SourceFront<N>)
        ensures learnt { Learns (steps.Ended session_id) known.old known.new }
    {
        let mut desk = self.desk.lock(self.rt);
        desk.end_session(self.rt, session_id, known);
        self.trim_once_answered(&mut *desk, known);
    }
}

impl<'a, K: NodeName, N: SourceName, R: Wait> Wake for LockedSource<'a, K, N, R> {
    fn wake(&self) {
        self.waker.unpark();
    }
}

impl<'a, K: NodeName, N: SourceName, R: Wait> SharedSource<K, TakenLinks<N>>
    for LockedSource<'a, K, N, R> {
    ghost use Rattle.ovs_source_node.specs.NoneTaken.{none_taken};

    ghost links = { λ taken. taken };

    ghost gives = { λ ls. AreTaken N.start K.schema.description.tables ls };

    fn next_link(&self, taken: &mut TakenLinks<N>) -> Option<Link>
        ensures next { MatchOption result (taken.new ≡ taken.old) (λ l. taken.new ≡ taken.old ++ l ∷ []) }
        ensures given { AreTaken N.start K.schema.description.tables taken.new }
        ensures tables { IfSome result (IsOfTables K.schema.description.tables) }
    {
        let mut desk = self.desk.lock(self.rt);
        taken.take(self.rt, &mut *desk)
    }

    fn wait(&self) {
        self.waker.park(self.rt);
    }

    ghost gives_none = { none_taken N.start K.schema.description.tables };

    ghost gives_first = { λ ls taken. taken.first };
}
