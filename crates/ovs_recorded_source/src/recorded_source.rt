//! A source's desk with its history.

ghost use Rattle.std.specs.Prelude.{◌≡◌, [], true, false, IfOk, IfNone, IfSome, OnOk, OnErr};
ghost use mathlib.Core.List.{IsPrefix};
ghost use Rattle.ovs_links.specs.Sets.{IsOfTables};
ghost use Rattle.ovs_links.specs.Store.{tables_of};
ghost use Rattle.ovs_source.specs.SourceDesk.{AreBehind, AreFirst};
ghost use Rattle.ovs_recorded_source.specs.Steps.{DoesAll, EndsWith, IsAsked, IsGiven, IsStep, begun, first_link};
ghost use Rattle.ovs_recorded_source.specs.Taking.{links_taken, taken_count};
ghost use Rattle.ovs_recorded_source.specs.Waiting.{next_standing, replies_at};
ghost use Rattle.ovs_recorded_source.specs.declared.step.SourceStep.TheVariants as steps;

use crate::entries::{
    BeganEntry, EndedEntry, GivenEntry, SourceAskedEntry, SourceCollectedEntry, TookEntry,
};
use crate::holding_desk::{HoldingDesk, Replied};
use crate::name::{SourceFront, SourceHistory, SourceName};
use crate::recorder::{know, record_step};
use crate::step::SourceStep;
use ovs_authority::Ask;
use ovs_json::{NoMemory, SessionId};
use ovs_links::Link;
use ovs_source::SourceDesk;
use ovs_sync::history::{Book, Opened};
use ovs_types::TxnId;
use ovs_wire::Message;
use std::alloc::Global;
use std::marker::Model;
use std::snapshot::Snapshot;
use std::sync::Wait;

/// A source's desk and its replies that wait, with the list of all steps that were made on it. A contract sees it as these; that
/// these steps, one after another, make this state of what the desk began with is an invariant of its type, and so is that the links
/// which they took out are, in their order, the first of the source's history.
#[derive(Drop)]
pub struct RecordedSource<N: SourceName> {
    desk: HoldingDesk,
    book: Book<SourceStep, SourceHistory<N>>,
    front: SourceFront<N>,
    // How many links were taken out; it stays at its last value.
    taken: u64,
}

impl<N: SourceName> Model for RecordedSource<N> {
    ghost use Rattle.std.specs.Prelude.{◌≡◌, List, refl};
    ghost use Rattle.std.specs.Coded.{code_by, coded×, coded_list};
    ghost use Rattle.ovs_recorded_source.specs.Steps.{RecordedValue, SourceState};
    ghost use Rattle.ovs_recorded_source.specs.Taking.{IsRecord, taken_count};
    ghost use Rattle.ovs_recorded_source.specs.contracts.holding_desk.HoldingDesk as desk_row;
    ghost use Rattle.ovs_recorded_source.specs.contracts.step.SourceStep as step_row;
    ghost use Rattle.ovs_recorded_source.specs.declared.step.SourceStep.{SourceStep};

    ghost Value = { RecordedValue };

    ghost coded = { code_by (List SourceStep × SourceState)
        (coded× (coded_list step_row.the_row.coded) desk_row.the_row.coded)
        (λ r. (r.steps, r.state)) (λ p. record { steps = p.0; state = p.1 }) (λ _. refl) };

    ghost view = { λ r. record { steps = r.front; state = r.desk } };

    ghost invariant = { λ r. IsRecord N.start r.front r.desk × (r.taken ≡ taken_count r.front) };
}

impl<N: SourceName> RecordedSource<N> {
    /// This desk, of which no reply waits, and on which no step was made; and what is known of its steps.
    pub fn new(
        alloc: Global,
        desk: SourceDesk,
        opened: Opened<SourceStep>,
    ) -> (RecordedSource<N>, SourceFront<N>)
        requires start { desk ≡ N.start }
        requires none_taken { AreBehind [] N.start }
        requires book { opened.seen.book ≡ N.book }
        ensures new { result.0 ≡ record { steps = []; state = begun N.start } }
        ensures none { result.1 ≡ [] }
    {
        let (book, front) = opened.named::<SourceHistory<N>>();
        let known = front.again();
        let desk = HoldingDesk::new(alloc, desk);
        let recorded = RecordedSource {
            desk,
            book,
            front,
            taken: 0,
        };
        (recorded, known)
    }

    /// All steps that were made, for one caller more to know.
    pub fn known(&self) -> SourceFront<N>
        ensures all { result ≡ self.now.steps }
    {
        self.front.again()
    }

    /// Asks for a session. The reply to a transaction waits until it is collected, and any other is given at once.
    ///
    /// # Errors
    /// `NoMemory` alone; then nothing was asked.
    pub fn ask<R: Wait>(
        &mut self,
        rt: &R,
        alloc: Global,
        session: SessionId,
        ask: Ask,
        known: &mut SourceFront<N>,
    ) -> Result<Option<Message>, NoMemory>
        ensures asked { IfOk result (λ r. IsAsked (λ s. IsStep N.start s self.old self.new) session ask r) }
        ensures told { OnOk result (known.new ≡ self.new.steps) }
        ensures ends { IfOk result (λ r. IsAsked (λ s. EndsWith s known.old known.new) session ask r) }
        ensures nothing { OnErr result ((self.new ≡ self.old) × (known.new ≡ known.old)) }
    {
        let (before, asked) = (Snapshot::of(&self.desk), Snapshot::of(&ask));
        let Replied {
            immediate_reply,
            answer,
        } = self.desk.ask(alloc, session, ask)?;
        let entry = SourceAskedEntry {
            session,
            ask: asked,
            answer,
            before,
            after: Snapshot::of(&self.desk),
        };
        record_step::<N, SourceAskedEntry, SourceAskedEntry, R>(
            rt,
            &self.book,
            &mut self.front,
            known,
            &entry,
            &entry.before,
            &self.desk,
        );
        Ok(immediate_reply)
    }

    // Gives the reply that waits first for a session, if one waits.
    fn give<R: Wait>(
        &mut self,
        rt: &R,
        session: SessionId,
        known: &mut SourceFront<N>,
    ) -> Option<Message>
        ensures given { IfSome result (λ m. IsStep N.start (steps.Given session m) self.old self.new) }
        ensures told { IfSome result (λ _. known.new ≡ self.new.steps) }
        ensures ends { IfSome result (λ m. EndsWith (steps.Given session m) known.old known.new) }
        ensures nothing { IfNone result ((replies_at session self.old.state.waiting ≡ []) × (self.new ≡ self.old) × (known.new ≡ known.old)) }
    {
        let before = Snapshot::of(&self.desk);
        let reply = self.desk.give(session)?;
        let entry = GivenEntry { session, reply };
        record_step::<N, GivenEntry, GivenEntry, R>(
            rt,
            &self.book,
            &mut self.front,
            known,
            &entry,
            &before,
            &self.desk,
        );
        Some(entry.reply)
    }

    // Gives a session for which no reply waits the next notice, if one is owed.
    fn collect_notice<R: Wait>(
        &mut self,
        rt: &R,
        alloc: Global,
        session: SessionId,
        known: &mut SourceFront<N>,
    ) -> Result<Option<Message>, NoMemory>
        requires none { replies_at session self.old.state.waiting ≡ [] }
        ensures given { IfOk result (λ m. IsStep N.start (steps.Collected session m) self.old self.new) }
        ensures told { OnOk result (known.new ≡ self.new.steps) }
        ensures ends { IfOk result (λ m. EndsWith (steps.Collected session m) known.old known.new) }
        ensures nothing { OnErr result ((self.new ≡ self.old) × (known.new ≡ known.old)) }
    {
        let before = Snapshot::of(&self.desk);
        let notice = self.desk.collect(alloc, session)?;
        let entry = SourceCollectedEntry { session, notice };
        record_step::<N, SourceCollectedEntry, SourceCollectedEntry, R>(
            rt,
            &self.book,
            &mut self.front,
            known,
            &entry,
            &before,
            &self.desk,
        );
        Ok(entry.notice)
    }

    /// The next message for a session: the reply that waits first for it, and where none waits the next notice.
    ///
    /// # Errors
    /// `NoMemory` alone; then nothing was given.
    pub fn collect<R: Wait>(
        &mut self,
        rt: &R,
        alloc: Global,
        session: SessionId,
        known: &mut SourceFront<N>,
    ) -> Result<Option<Message>, NoMemory>
        ensures given { IfOk result (IsGiven (λ s. IsStep N.start s self.old self.new) session) }
        ensures told { OnOk result (known.new ≡ self.new.steps) }
        ensures ends { IfOk result (IsGiven (λ s. EndsWith s known.old known.new) session) }
        ensures nothing { OnErr result ((self.new ≡ self.old) × (known.new ≡ known.old)) }
    {
        match self.give(rt, session, known) {
            Some(reply) => Ok(Some(reply)),
            None => self.collect_notice(rt, alloc, session, known),
        }
    }

    /// Where the reply stands that waits first for a session, if one waits, after all steps that were made, which are known then: the
    /// head of the source's chain behind it.
    pub fn standing<R: Wait>(
        &self,
        rt: &R,
        session: SessionId,
        known: &mut SourceFront<N>,
    ) -> Option<TxnId>
        ensures value { result ≡ next_standing session self.now.state.waiting }
        ensures made { DoesAll (begun N.start) self.now.steps self.now.state }
        ensures told { known.new ≡ self.now.steps }
        ensures before { IsPrefix known.old known.new }
    {
        know(rt, &self.front, known);
        self.desk.standing(session)
    }

    /// Ends a session.
    pub fn end_session<R: Wait>(&mut self, rt: &R, session: SessionId, known: &mut SourceFront<N>)
        ensures ended { IsStep N.start (steps.Ended session) self.old self.new }
        ensures told { known.new ≡ self.new.steps }
        ensures ends { EndsWith (steps.Ended session) known.old known.new }
    {
        let before = Snapshot::of(&self.desk);
        self.desk.end_session(session);
        let entry = EndedEntry { session };
        record_step::<N, EndedEntry, EndedEntry, R>(
            rt,
            &self.book,
            &mut self.front,
            known,
            &entry,
            &before,
            &self.desk,
        );
    }

    /// How many links were taken out, of so many as can be counted.
    pub(crate) fn taken(&self) -> u64
        ensures value { result ≡ taken_count self.now.steps }
    {
        self.taken
    }

    /// Takes out the first link of those that were made and weren't taken out, if there is one.
    pub(crate) fn next_link<R: Wait>(&mut self, rt: &R, known: &mut SourceFront<N>) -> Option<Link>
        ensures taken { IsStep N.start (steps.TookLink result) self.old self.new }
        ensures told { known.new ≡ self.new.steps }
        ensures ends { EndsWith (steps.TookLink result) known.old known.new }
        ensures tables { IfSome result (IsOfTables (tables_of N.start.source)) }
        ensures first { AreFirst (tables_of N.start.source) (links_taken self.new.steps) }
    {
        let before = Snapshot::of(&self.desk);
        let link = self.desk.next_link();
        let entry = TookEntry { link };
        record_step::<N, TookEntry, TookEntry, R>(
            rt,
            &self.book,
            &mut self.front,
            known,
            &entry,
            &before,
            &self.desk,
        );
        if entry.link.is_some() {
            self.taken = self.taken.saturating_add(1);
        }
        entry.link
    }

    /// Begins a new epoch, if one is due. Whether it began; where it is refused the next call tries again. It is to be called
    /// before each transaction.
    pub fn trim_if_due<R: Wait>(
        &mut self,
        rt: &R,
        alloc: Global,
        known: &mut SourceFront<N>,
    ) -> bool
        ensures begun { result ≡ true → IsStep N.start (steps.BeganEpoch (first_link self.old.state.desk)) self.old self.new }
        ensures told { result ≡ true → known.new ≡ self.new.steps }
        ensures ends { result ≡ true → EndsWith (steps.BeganEpoch (first_link self.old.state.desk)) known.old known.new }
        ensures nothing { result ≡ false → (self.new ≡ self.old) × (known.new ≡ known.old) }
    {
        let entry = BeganEntry {
            before: Snapshot::of(&self.desk),
        };
        if !self.desk.begin_epoch(alloc) {
            return false;
        }
        record_step::<N, BeganEntry, BeganEntry, R>(
            rt,
            &self.book,
            &mut self.front,
            known,
            &entry,
            &entry.before,
            &self.desk,
        );
        true
    }

    /// The same, but while a reply waits none begins. It is to be called behind what was collected, and behind an end.
    ///
    /// Whoever was shown the epoch before is told nothing more once the new one is shown: so what stands on the older chain is given
    /// first.
    pub fn trim_once_answered<R: Wait>(
        &mut self,
        rt: &R,
        alloc: Global,
        known: &mut SourceFront<N>,
    ) -> bool
        ensures answered { result ≡ true → self.old.state.waiting ≡ [] }
        ensures begun { result ≡ true → IsStep N.start (steps.BeganEpoch (first_link self.old.state.desk)) self.old self.new }
        ensures told { result ≡ true → known.new ≡ self.new.steps }
        ensures ends { result ≡ true → EndsWith (steps.BeganEpoch (first_link self.old.state.desk)) known.old known.new }
        ensures nothing { result ≡ false → (self.new ≡ self.old) × (known.new ≡ known.old) }
    {
        self.desk.is_answered() && self.trim_if_due(rt, alloc, known)
    }
}
