//! What serves the sessions with an upstream.

ghost use Rattle.std.specs.Prelude.{◌≡◌, ◌≤◌, ◌++◌, ℕ, List, Ok, Err, true, OnOk, OnErr, length};
ghost use Rattle.ovs_links.specs.Sets.{AllOf, IsOfTables};
ghost use Rattle.ovs_upstream.specs.Hearing.{links_in};
ghost use Rattle.ovs_follow.specs.UpstreamState.{Hears, Asks, Refuses, PassesOn, IsAllPassedOn, IsAllTold, IsSaid, IsRefused, begins_at, handed, standing_at};

use crate::hearing::hear;
use crate::link_sink::LinkSink;
use crate::saying::say;
use crate::upstream_handler::UpstreamHandler;
use crate::upstream_state::UpstreamState;
use ovs_desk::{BadReply, SourceMessage, StandingAnswer};
use ovs_json::NoMemory;
use ovs_session::{Outbox, Service, ServiceError, TurnProgress};
use ovs_types::TxnId;
use ovs_upstream::{Heard, SyncState, UpEvent};
use std::alloc::Global;
use std::marker::PhantomData;

// So many requests are passed on at once.
const MOST_PASSED_ON: u32 = 64;

// Where an answer stands that is heard at this stage: at the id of the last link that the session made, or where it was placed; at 0
// before that.
fn standing_at(stage: SyncState) -> TxnId
    ensures value { result ≡ standing_at stage }
{
    match stage {
        SyncState::At(id) => id,
        _ => TxnId::zero(),
    }
}

// From where links join up that come from here on: from the id before the first that came of this, or else from where it leads.
fn begins_at(heard: &Heard) -> TxnId
    ensures value { result ≡ begins_at heard.now }
{
    if let UpEvent::Links(links) = &heard.event
        && let Some(link) = links.as_slice().first()
    {
        return link.prev();
    }
    standing_at(heard.stage)
}

// What a session does once it is asked to hand this on.
fn refusal_of(told: Result<(), BadReply>) -> Result<(), ServiceError>
    ensures ok { OnOk result (OnErr told ⊥) }
    ensures err { OnErr result (OnOk told ⊥) }
    ensures never_gone { result ≡ Err ServiceError.Gone → ⊥ }
    ensures never_epoch { result ≡ Err ServiceError.Epoch → ⊥ }
{
    match told {
        Ok(()) => Ok(()),
        Err(BadReply) => Err(ServiceError::BadInput),
    }
}

/// Follows an upstream: links go to the session's sink, and what the source asks and says to its handler.
#[derive(Drop)]
pub struct UpstreamService<S: LinkSink, D: UpstreamHandler + Drop> {
    alloc: Global,
    source: D,
    of: PhantomData<S>,
}

impl<S: LinkSink, D: UpstreamHandler + Drop> UpstreamService<S, D> {
    /// Nothing was passed on yet.
    pub fn new(alloc: Global, source: D) -> UpstreamService<S, D>
        ensures source { result.source ≡ source }
    {
        UpstreamService {
            alloc,
            source,
            of: PhantomData,
        }
    }

    /// The handler, without what follows.
    pub fn into_source(self) -> D
        ensures source { result ≡ self.source }
    {
        let UpstreamService { source, .. } = self;
        source
    }

    // Hands on what was heard: a link to the sink, a message back, and what the source says to its handler.
    fn hand_on(
        &mut self,
        session: &mut UpstreamState<S>,
        event: UpEvent,
        out: &mut Outbox,
    ) -> Result<(), ServiceError>
        requires one { length (links_in event) ≤ 1 }
        requires tables { AllOf (IsOfTables session.old.up.schema.description.tables) (links_in event) }
        ensures handed { OnOk result (session.new ≡ record session.old { sent = session.old.sent ++ links_in event; made = session.old.made ++ handed session.old.up.stage event }) }
        ensures said { OnOk result ((said : List ℕ) × IsSaid event said × (out.new ≡ out.old ++ said)) }
        ensures err { OnErr result ((session.new ≡ session.old) × (out.new ≡ out.old)) }
        ensures bad { result ≡ Err ServiceError.BadInput → IsRefused D.refuses (handed session.old.up.stage event) }
        ensures never_gone { result ≡ Err ServiceError.Gone → ⊥ }
        ensures never_epoch { result ≡ Err ServiceError.Epoch → ⊥ }
    {
        match event {
            UpEvent::Links(links) => {
                session.send(links);
                Ok(())
            }
            UpEvent::Send(message) => Ok(say(self.alloc, &message, out)?),
            UpEvent::ReplyFor { number, answer } => {
                let standing = standing_at(session.up().stage());
                let answer = StandingAnswer { answer, standing };
                let message = SourceMessage::ReplyFor { number, answer };
                refusal_of(session.tell(&mut self.source, message))
            }
            UpEvent::Locked(name) => {
                refusal_of(session.tell(&mut self.source, SourceMessage::Locked(name)))
            }
            UpEvent::Stolen(name) => {
                refusal_of(session.tell(&mut self.source, SourceMessage::Stolen(name)))
            }
            UpEvent::Nothing => Ok(()),
        }
    }

    // Says the request that waits, or else takes up the next and says that, where there is memory for it; idle only where none is to go up.
    fn pass_next(
        &mut self,
        session: &mut UpstreamState<S>,
        out: &mut Outbox,
    ) -> Result<TurnProgress, NoMemory>
        ensures ok { OnOk result ((said : List ℕ) × PassesOn session.old.waiting session.old.made said session.new.waiting session.new.made × (out.new ≡ out.old ++ said)) }
        ensures rest { session.new ≡ record session.old { waiting = session.new.waiting; made = session.new.made } }
        ensures idle { result ≡ Ok TurnProgress.Idle → IsAllPassedOn session.new }
        ensures err { OnErr result ((session.new ≡ session.old) × (out.new ≡ out.old)) }
    {
        if session.has_waiting() {
            session.say_waiting(self.alloc, out)?;
            return Ok(TurnProgress::Busy);
        }
        session.next_request(&mut self.source)?;
        if !session.has_waiting() {
            return Ok(TurnProgress::Idle);
        }
        // Where there is no memory for its text it waits.
        let _is_said = session.say_waiting(self.alloc, out).is_ok();
        Ok(TurnProgress::Busy)
    }

    // Says the requests that are to go up; idle only where no other is to. `NoMemory` only where no request was taken up or said: one that
    // is refused memory later waits for the next call.
    fn pass_on(
        &mut self,
        session: &mut UpstreamState<S>,
        out: &mut Outbox,
    ) -> Result<TurnProgress, NoMemory>
        ensures ok { OnOk result ((said : List ℕ) × PassesOn session.old.waiting session.old.made said session.new.waiting session.new.made × (out.new ≡ out.old ++ said)) }
        ensures rest { session.new ≡ record session.old { waiting = session.new.waiting; made = session.new.made } }
        ensures idle { result ≡ Ok TurnProgress.Idle → IsAllPassedOn session.new }
        ensures err { OnErr result ((session.new ≡ session.old) × (out.new ≡ out.old)) }
    {
        let mut progress = self.pass_next(session, out)?;
        for _passed in 1..MOST_PASSED_ON {
            if progress == TurnProgress::Idle {
                break;
            }
            match self.pass_next(session, out) {
                Ok(next) => progress = next,
                Err(NoMemory) => break,
            }
        }
        Ok(progress)
    }
}

impl<S: LinkSink, D: UpstreamHandler + Drop> Service for UpstreamService<S, D> {
    type Session = UpstreamState<S>;

    ghost answers = { λ old text said new. Hears old text said new };

    ghost tells = { λ old said new. Asks old said new };

    ghost refuses = { λ old text. Refuses D.refuses old text };

    ghost may_answer = { λ _. Unit {0} };

    ghost is_answered = { λ _. Unit {0} };

    ghost is_told = { λ _ state. IsAllTold state };

    ghost may_tell = { λ _ state. state.has_begun ≡ true };

    ghost is_gone = { λ _. ⊥ };

    ghost is_over = { λ _ _. ⊥ };

    // An upstream's messages are heard one after another, each at once.
    fn takes(&self, _session: &UpstreamState<S>) -> bool {
        true
    }

    // Behind the end of what an upstream says nothing more comes.
    fn awaits(&self, _session: &UpstreamState<S>) -> bool {
        false
    }

    fn answer(
        &mut self,
        session: &mut UpstreamState<S>,
        message: &[u8],
        out: &mut Outbox,
    ) -> Result<(), ServiceError> {
        let heard = hear(self.alloc, session.up(), message)?;
        let before = session.up().stage();
        let from = begins_at(&heard);
        self.hand_on(session, heard.event, out)?;
        session.go_on(heard.stage);
        session.arrive(&mut self.source, before, heard.stage, from);
        Ok(())
    }

    fn tell(
        &mut self,
        session: &mut UpstreamState<S>,
        out: &mut Outbox,
    ) -> Result<TurnProgress, ServiceError> {
        if !session.has_begun() {
            session.begin(self.alloc, out)?;
            return Ok(TurnProgress::Busy);
        }
        match session.up().stage() {
            SyncState::At(_) => Ok(self.pass_on(session, out)?),
            _ => Ok(TurnProgress::Idle),
        }
    }
}
