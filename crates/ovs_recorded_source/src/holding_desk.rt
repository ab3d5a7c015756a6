//! A source's desk whose replies to transactions wait until they are given.

ghost use Rattle.std.specs.Prelude.{◌≡◌, [], true, false, IfOk, IfSome, OnErr, MatchOption};
ghost use Rattle.ovs_authority.specs.Answers.{reply_of};
ghost use Rattle.ovs_links.specs.Sets.{IsOfTables};
ghost use Rattle.ovs_links.specs.Store.{tables_of};
ghost use Rattle.ovs_source.specs.Replying.{RepliesTo};
ghost use Rattle.ovs_source.specs.SourceDesk.{KeepsTaken};
ghost use Rattle.ovs_recorded_source.specs.Steps.{Asks, Begins, Collects, Ends, Gives, Takes, IsTransaction, first_link, immediate_reply_of, link_behind};
ghost use Rattle.ovs_recorded_source.specs.Waiting.{next_standing, replies_at};

use crate::waiting::{WaitingReplies, WaitingReply};
use ovs_authority::{Ask, Authority, Response, Verb};
use ovs_json::{NoMemory, SessionId};
use ovs_links::Link;
use ovs_source::SourceDesk;
use ovs_types::TxnId;
use ovs_wire::{Id, Message};
use std::alloc::Global;
use std::marker::Model;
use std::snapshot::Snapshot;

/// A source's desk, which replies at once, and its replies to transactions that wait until they are given.
#[derive(Drop)]
pub(crate) struct HoldingDesk {
    desk: SourceDesk,
    waiting: WaitingReplies,
}

impl Model for HoldingDesk {
    ghost use Rattle.std.specs.Prelude.{List, refl};
    ghost use Rattle.std.specs.Coded.{code_by, coded×, coded_list, coded_ℕ};
    ghost use Rattle.ovs_source.specs.SourceDesk.{SourceDeskValue};
    ghost use Rattle.ovs_source.specs.contracts.source_desk.SourceDesk as desk_row;
    ghost use Rattle.ovs_recorded_source.specs.Steps.{SourceState};
    ghost use Rattle.ovs_recorded_source.specs.Waiting.{Waiting, listed};
    ghost use Rattle.ovs_recorded_source.specs.contracts.waiting.WaitingReply as reply_row;

    ghost Value = { SourceState };

    ghost coded = { code_by (SourceDeskValue × Waiting)
        (coded× desk_row.the_row.coded (coded_list (coded× coded_ℕ (coded_list reply_row.the_row.coded))))
        (λ s. (s.desk, s.waiting)) (λ p. record { desk = p.0; waiting = p.1 }) (λ _. refl) };

    ghost view = { λ s. record { desk = s.desk; waiting = listed s.waiting.by_session.entries } };
}

/// What came of a request.
#[derive(Drop)]
pub(crate) struct Replied {
    /// The reply, where it is given at once.
    pub(crate) immediate_reply: Option<Message>,
    /// The answer that it bears.
    pub(crate) answer: Snapshot<Response>,
}

// What the desk answers, which it does at once, and the request's id.
fn answer_of(
    desk: &mut SourceDesk,
    alloc: Global,
    session: SessionId,
    ask: Ask,
) -> Result<(Response, Id), NoMemory>
    ensures answer { IfOk result (λ r. RepliesTo desk.old session ask.verb r.0 desk.new) }
    ensures id { IfOk result (λ r. r.1 ≡ ask.id) }
    ensures taken { KeepsTaken desk.old desk.new }
    ensures unchanged { OnErr result (desk.new ≡ desk.old) }
{
    match desk.ask(alloc, session, ask)? {
        Some(Message::Reply { result, error, id }) => Ok((Response { result, error }, id)),
        _ => unreachable!(),
    }
}

impl HoldingDesk {
    /// This desk, of which no reply waits.
    pub(crate) fn new(alloc: Global, desk: SourceDesk) -> HoldingDesk
        ensures new { result ≡ record { desk = desk; waiting = [] } }
    {
        HoldingDesk {
            desk,
            waiting: WaitingReplies::new(alloc),
        }
    }

    // The reply waits, for which there is room before the desk is asked.
    fn transact(&mut self, alloc: Global, session: SessionId, ask: Ask) -> Result<Replied, NoMemory>
        requires transaction { IsTransaction ask.verb }
        ensures asked { IfOk result (λ r. Asks session ask self.old (reply_of r.answer.value ask.id) (link_behind self.old.desk.unpublished self.new.desk.unpublished) self.new) }
        ensures immediate_reply { IfOk result (λ r. r.immediate_reply ≡ immediate_reply_of ask.verb (reply_of r.answer.value ask.id)) }
        ensures taken { KeepsTaken self.old.desk self.new.desk }
        ensures unchanged { OnErr result (self.new ≡ self.old) }
    {
        self.waiting.make_room(alloc, session)?;
        match answer_of(&mut self.desk, alloc, session, ask) {
            Ok((answer, id)) => {
                let said = Snapshot::of(&answer);
                let waiting = WaitingReply {
                    answer,
                    id,
                    standing: self.desk.source().store().head(),
                };
                self.waiting.put(session, waiting);
                Ok(Replied {
                    immediate_reply: None,
                    answer: said,
                })
            }
            Err(error) => {
                self.waiting.forget_room(session);
                Err(error)
            }
        }
    }

    // The reply is given at once.
    fn ask_for_lock(
        &mut self,
        alloc: Global,
        session: SessionId,
        ask: Ask,
    ) -> Result<Replied, NoMemory>
        requires no_transaction { IsTransaction ask.verb → ⊥ }
        ensures asked { IfOk result (λ r. Asks session ask self.old (reply_of r.answer.value ask.id) (link_behind self.old.desk.unpublished self.new.desk.unpublished) self.new) }
        ensures immediate_reply { IfOk result (λ r. r.immediate_reply ≡ immediate_reply_of ask.verb (reply_of r.answer.value ask.id)) }
        ensures taken { KeepsTaken self.old.desk self.new.desk }
        ensures unchanged { OnErr result (self.new ≡ self.old) }
    {
        let (answer, id) = answer_of(&mut self.desk, alloc, session, ask)?;
        let said = Snapshot::of(&answer);
        Ok(Replied {
            immediate_reply: Some(answer.into_reply(id)),
            answer: said,
        })
    }

    /// Asks for a session. The reply to a transaction waits, and any other is given at once.
    pub(crate) fn ask(
        &mut self,
        alloc: Global,
        session: SessionId,
        ask: Ask,
    ) -> Result<Replied, NoMemory>
        ensures asked { IfOk result (λ r. Asks session ask self.old (reply_of r.answer.value ask.id) (link_behind self.old.desk.unpublished self.new.desk.unpublished) self.new) }
        ensures immediate_reply { IfOk result (λ r. r.immediate_reply ≡ immediate_reply_of ask.verb (reply_of r.answer.value ask.id)) }
        ensures taken { KeepsTaken self.old.desk self.new.desk }
        ensures unchanged { OnErr result (self.new ≡ self.old) }
    {
        match ask.verb {
            Verb::Transact(_) => self.transact(alloc, session, ask),
            Verb::Lock(_) | Verb::Steal(_) | Verb::Unlock(_) => self.ask_for_lock(
                alloc, session, ask,
            ),
        }
    }

    /// Where the reply stands that waits first for a session, if one waits.
    pub(crate) fn standing(&self, session: SessionId) -> Option<TxnId>
        ensures value { result ≡ next_standing session self.now.waiting }
    {
        self.waiting.standing(session)
    }

    /// Gives the reply that waits first for a session, if one waits.
    pub(crate) fn give(&mut self, session: SessionId) -> Option<Message>
        ensures given { MatchOption result ((replies_at session self.old.waiting ≡ []) × (self.new ≡ self.old)) (λ m. Gives session self.old m self.new) }
    {
        Some(self.waiting.take_first(session)?.into_message())
    }

    /// The next notice for a session for which no reply waits.
    pub(crate) fn collect(
        &mut self,
        alloc: Global,
        session: SessionId,
    ) -> Result<Option<Message>, NoMemory>
        requires none { replies_at session self.old.waiting ≡ [] }
        ensures collected { IfOk result (λ m. Collects session self.old m self.new) }
        ensures unchanged { OnErr result (self.new ≡ self.old) }
    {
        self.desk.collect(alloc, session)
    }

    /// Ends a session.
    pub(crate) fn end_session(&mut self, session: SessionId)
        ensures ended { Ends session self.old self.new }
    {
        self.waiting.end_session(session);
        self.desk.end_session(session);
    }

    /// Takes out the first link of those that were made, if there is one.
    pub(crate) fn next_link(&mut self) -> Option<Link>
        ensures taken { Takes self.old result self.new }
        ensures tables { IfSome result (IsOfTables (tables_of self.old.desk.source)) }
    {
        self.desk.next_link()
    }

    /// Whether no reply waits.
    pub(crate) fn is_answered(&self) -> bool
        ensures none { result ≡ true → self.now.waiting ≡ [] }
    {
        self.waiting.is_empty()
    }

    /// Begins a new epoch, if that is due. Whether it began; where it is refused the next call tries again.
    pub(crate) fn begin_epoch(&mut self, alloc: Global) -> bool
        ensures begun { result ≡ true → Begins self.old (first_link self.old.desk) self.new }
        ensures taken { KeepsTaken self.old.desk self.new.desk }
        ensures unchanged { result ≡ false → self.new ≡ self.old }
    {
        self.desk.trim_if_due(alloc) == Ok(true)
    }
}
