//! A relay's desk with its history.

ghost use Rattle.std.specs.Prelude.{◌≡◌, ◌++◌, ◌∷◌, [], true, false, IfOk, OnOk, OnErr};
ghost use mathlib.Core.List.{IsPrefix};
ghost use Rattle.ovs_authority.specs.Owing.{AsksTo, CollectsTo};
ghost use Rattle.ovs_desk.specs.Ledger.{next_standing, asker_of};
ghost use Rattle.ovs_desk.specs.RelayDesk.{new_desk, owing_of};
ghost use Rattle.ovs_recorded_desk.specs.Steps.{Does, DoesAll, AreSteps, EndsWith, IsStep};
ghost use Rattle.ovs_recorded_desk.specs.declared.step.DeskStep.TheVariants as steps;

use crate::entries::{AskedEntry, CollectedEntry, EventEntry, HeardEntry, WentUpEntry};
use crate::name::{DeskFront, DeskHistory, DeskName};
use crate::step::DeskStep;
use ovs_authority::{Ask, Authority};
use ovs_data::TxnId;
use ovs_desk::{BadReply, RelayDesk, SourceMessage};
use ovs_json::{NoMemory, SessionId, Text};
use ovs_sync::history::{Book, EntryFrom, Opened};
use ovs_wire::Message;
use std::alloc::Global;
use std::marker::Model;
use std::snapshot::Snapshot;
use std::sync::Wait;

/// A relay's desk with the list of all steps that were made on it. A contract sees it as both; that these steps, one after
/// another, make this desk of a new one is an invariant of its type.
#[derive(Drop)]
pub struct RecordedDesk<N: DeskName> {
    desk: RelayDesk,
    book: Book<DeskStep, DeskHistory<N>>,
    front: DeskFront<N>,
}

impl<N: DeskName> Model for RecordedDesk<N> {
    ghost use Rattle.std.specs.Prelude.{List, refl};
    ghost use Rattle.std.specs.Coded.{code_by, coded×, coded_list};
    ghost use Rattle.ovs_desk.specs.RelayDesk.{RelayValue, new_desk};
    ghost use Rattle.ovs_desk.specs.contracts.relay_desk.RelayDesk as desk_row;
    ghost use Rattle.ovs_recorded_desk.specs.Steps.{DoesAll, RecordedValue};
    ghost use Rattle.ovs_recorded_desk.specs.contracts.step.DeskStep as step_row;
    ghost use Rattle.ovs_recorded_desk.specs.declared.step.DeskStep.{DeskStep};

    ghost Value = { RecordedValue };

    ghost coded = { code_by (List DeskStep × RelayValue)
        (coded× (coded_list step_row.the_row.coded) desk_row.the_row.coded)
        (λ r. (r.steps, r.desk)) (λ p. record { steps = p.0; desk = p.1 }) (λ _. refl) };

    ghost view = { λ r. record { steps = r.front; desk = r.desk } };

    ghost invariant = { λ r. DoesAll (new_desk N.database) r.front r.desk };
}

// Adds a step behind all that were made, if nobody else added one and the caller knows no more of them. Since the book is with
// the desk that is always so.
fn try_record<N: DeskName, X, M: EntryFrom<X, DeskStep>>(
    book: &Book<DeskStep, DeskHistory<N>>,
    front: &mut DeskFront<N>,
    known: &mut DeskFront<N>,
    about: &X,
) -> bool
    requires holds { AreSteps N.database (front.old ++ M.entry about.now ∷ []) }
    ensures added { result ≡ true → front.new ≡ front.old ++ M.entry about.now ∷ [] }
    ensures told { result ≡ true → known.new ≡ front.new }
    ensures before { result ≡ true → IsPrefix known.old front.old }
    ensures unchanged { result ≡ false → (front.new ≡ front.old) × (known.new ≡ known.old) }
{
    let both = known.longer(front);
    if both.len() != front.len() || front.len() >= 1 << 62 {
        return false;
    }
    if front.add_as::<X, M>(book, about).is_err() {
        return false;
    }
    *known = front.again();
    true
}

// Adds a step behind all that were made. The book is with the desk, so that nobody else adds one: it returns at once.
fn record_entry<N: DeskName, X, M: EntryFrom<X, DeskStep>, R: Wait>(
    rt: &R,
    book: &Book<DeskStep, DeskHistory<N>>,
    front: &mut DeskFront<N>,
    known: &mut DeskFront<N>,
    about: &X,
)
    requires holds { AreSteps N.database (front.old ++ M.entry about.now ∷ []) }
    ensures added { front.new ≡ front.old ++ M.entry about.now ∷ [] }
    ensures told { known.new ≡ front.new }
    ensures before { IsPrefix known.old front.old }
{
    for _ in rt.forever() {
        if try_record::<N, X, M>(book, front, known, about) {
            break;
        }
    }
}

// Adds the step that made the one desk of the other.
fn record_step<N: DeskName, X, M: EntryFrom<X, DeskStep>, R: Wait>(
    rt: &R,
    book: &Book<DeskStep, DeskHistory<N>>,
    front: &mut DeskFront<N>,
    known: &mut DeskFront<N>,
    about: &X,
    before: &Snapshot<RelayDesk>,
    desk: &RelayDesk,
)
    requires made { DoesAll (new_desk N.database) front.old before.now.value }
    requires does { Does (M.entry about.now) before.now.value desk.now }
    ensures made { DoesAll (new_desk N.database) front.new desk.now }
    ensures step { IsStep N.database (M.entry about.now) (record { steps = front.old; desk = before.now.value }) (record { steps = front.new; desk = desk.now }) }
    ensures told { known.new ≡ front.new }
    ensures ends { EndsWith (M.entry about.now) known.old known.new }
{
    record_entry::<N, X, M, R>(rt, book, front, known, about);
}

// Knows all steps that were made, if what is known isn't more. Since the book is with the desk that is always so.
fn try_know<N: DeskName>(front: &DeskFront<N>, known: &mut DeskFront<N>) -> bool
    ensures all { result ≡ true → known.new ≡ front.now }
    ensures before { IsPrefix known.old known.new }
    ensures unchanged { result ≡ false → known.new ≡ known.old }
{
    let both = known.longer(front);
    if both.len() != front.len() {
        return false;
    }
    *known = front.again();
    true
}

// Knows all steps that were made. The book is with the desk: it returns at once.
fn know<N: DeskName, R: Wait>(rt: &R, front: &DeskFront<N>, known: &mut DeskFront<N>)
    ensures all { known.new ≡ front.now }
    ensures before { IsPrefix known.old known.new }
{
    for _ in rt.forever() {
        if try_know(front, known) {
            break;
        }
    }
}

impl<N: DeskName> RecordedDesk<N> {
    /// A desk for the database of this name, without a source, on which no step was made; and what is known of its steps.
    pub fn new(
        alloc: Global,
        database: Text,
        opened: Opened<DeskStep>,
    ) -> (RecordedDesk<N>, DeskFront<N>)
        requires name { database ≡ N.database }
        requires book { opened.seen.book ≡ N.book }
        ensures new { result.0 ≡ record { steps = []; desk = new_desk N.database } }
        ensures none { result.1 ≡ [] }
    {
        let (book, front) = opened.named::<DeskHistory<N>>();
        let known = front.again();
        let desk = RelayDesk::new(alloc, database);
        (RecordedDesk { desk, book, front }, known)
    }

    /// All steps that were made, for one caller more to know.
    pub fn known(&self) -> DeskFront<N>
        ensures all { result ≡ self.now.steps }
    {
        self.front.again()
    }

    /// Asks for a session, and gives the reply where it is known at once.
    ///
    /// # Errors
    /// `NoMemory` alone; then nothing was asked.
    pub fn ask<R: Wait>(
        &mut self,
        rt: &R,
        alloc: Global,
        session: SessionId,
        ask: Ask,
        known: &mut DeskFront<N>,
    ) -> Result<Option<Message>, NoMemory>
        ensures owing { IfOk result (λ r. AsksTo (owing_of self.old.desk session) ask.id r (owing_of self.new.desk session)) }
        ensures asked { IfOk result (λ r. IsStep N.database (steps.Asked session ask r) self.old self.new) }
        ensures told { OnOk result (known.new ≡ self.new.steps) }
        ensures ends { IfOk result (λ r. EndsWith (steps.Asked session ask r) known.old known.new) }
        ensures nothing { OnErr result ((self.new ≡ self.old) × (known.new ≡ known.old)) }
    {
        let (before, asked) = (Snapshot::of(&self.desk), Snapshot::of(&ask));
        let reply = self.desk.ask(alloc, session, ask)?;
        let entry = AskedEntry {
            session,
            ask: asked,
            reply,
        };
        record_step::<N, AskedEntry, AskedEntry, R>(
            rt,
            &self.book,
            &mut self.front,
            known,
            &entry,
            &before,
            &self.desk,
        );
        Ok(entry.reply)
    }

    /// The next message for a session, where one is owed.
    ///
    /// # Errors
    /// `NoMemory` alone; then nothing was given.
    pub fn collect<R: Wait>(
        &mut self,
        rt: &R,
        alloc: Global,
        session: SessionId,
        known: &mut DeskFront<N>,
    ) -> Result<Option<Message>, NoMemory>
        ensures owing { IfOk result (λ m. CollectsTo (owing_of self.old.desk session) m (owing_of self.new.desk session)) }
        ensures given { IfOk result (λ m. IsStep N.database (steps.Collected session m) self.old self.new) }
        ensures told { OnOk result (known.new ≡ self.new.steps) }
        ensures ends { IfOk result (λ m. EndsWith (steps.Collected session m) known.old known.new) }
        ensures nothing { OnErr result ((self.new ≡ self.old) × (known.new ≡ known.old)) }
    {
        let before = Snapshot::of(&self.desk);
        let message = self.desk.collect(alloc, session)?;
        let entry = CollectedEntry { session, message };
        record_step::<N, CollectedEntry, CollectedEntry, R>(
            rt,
            &self.book,
            &mut self.front,
            known,
            &entry,
            &before,
            &self.desk,
        );
        Ok(entry.message)
    }

    /// Where the answer stands that is due to a session first, if one is, after all steps that were made, which are known then.
    pub fn standing<R: Wait>(
        &self,
        rt: &R,
        session: SessionId,
        known: &mut DeskFront<N>,
    ) -> Option<TxnId>
        ensures value { result ≡ next_standing session self.now.desk.forwards.ledger }
        ensures made { DoesAll (new_desk N.database) self.now.steps self.now.desk }
        ensures told { known.new ≡ self.now.steps }
        ensures before { IsPrefix known.old known.new }
    {
        know(rt, &self.front, known);
        self.desk.standing(session)
    }

    /// Whose transaction went up under a number, if that waits for its answer.
    pub fn asker_of(&self, number: u64) -> Option<SessionId>
        ensures value { result ≡ asker_of number self.now.desk.forwards.ledger }
    {
        self.desk.asker_of(number)
    }

    /// Ends a session.
    pub fn end_session<R: Wait>(&mut self, rt: &R, session: SessionId, known: &mut DeskFront<N>)
        ensures ended { IsStep N.database (steps.Ended session) self.old self.new }
        ensures told { known.new ≡ self.new.steps }
        ensures ends { EndsWith (steps.Ended session) known.old known.new }
    {
        let before = Snapshot::of(&self.desk);
        self.desk.end_session(session);
        let entry = EventEntry::Ended(session);
        record_step::<N, EventEntry, EventEntry, R>(
            rt,
            &self.book,
            &mut self.front,
            known,
            &entry,
            &before,
            &self.desk,
        );
    }

    /// The next request to go up, where one is due.
    ///
    /// # Errors
    /// `NoMemory` alone; then nothing went up.
    pub fn take_up<R: Wait>(
        &mut self,
        rt: &R,
        alloc: Global,
        known: &mut DeskFront<N>,
    ) -> Result<Option<Message>, NoMemory>
        ensures up { IfOk result (λ m. IsStep N.database (steps.WentUp m) self.old self.new) }
        ensures told { OnOk result (known.new ≡ self.new.steps) }
        ensures ends { IfOk result (λ m. EndsWith (steps.WentUp m) known.old known.new) }
        ensures nothing { OnErr result ((self.new ≡ self.old) × (known.new ≡ known.old)) }
    {
        let before = Snapshot::of(&self.desk);
        let message = self.desk.take_up(alloc)?;
        let entry = WentUpEntry { message };
        record_step::<N, WentUpEntry, WentUpEntry, R>(
            rt,
            &self.book,
            &mut self.front,
            known,
            &entry,
            &before,
            &self.desk,
        );
        Ok(entry.message)
    }

    /// What the source says.
    ///
    /// # Errors
    /// `BadReply` where that answers an open request for a lock by what can't be read; the desk isn't changed then.
    pub fn heard<R: Wait>(
        &mut self,
        rt: &R,
        message: SourceMessage,
        known: &mut DeskFront<N>,
    ) -> Result<(), BadReply>
        ensures heard { IsStep N.database (steps.Heard message result) self.old self.new }
        ensures told { known.new ≡ self.new.steps }
        ensures ends { EndsWith (steps.Heard message result) known.old known.new }
    {
        let (before, said) = (Snapshot::of(&self.desk), Snapshot::of(&message));
        let result = self.desk.heard(message);
        let entry = HeardEntry {
            message: said,
            result,
        };
        record_step::<N, HeardEntry, HeardEntry, R>(
            rt,
            &self.book,
            &mut self.front,
            known,
            &entry,
            &before,
            &self.desk,
        );
        entry.result
    }

    /// There is a source.
    pub fn found_source<R: Wait>(&mut self, rt: &R, known: &mut DeskFront<N>)
        ensures found { IsStep N.database steps.FoundSource self.old self.new }
        ensures told { known.new ≡ self.new.steps }
        ensures ends { EndsWith steps.FoundSource known.old known.new }
    {
        let before = Snapshot::of(&self.desk);
        self.desk.found_source();
        let entry = EventEntry::FoundSource;
        record_step::<N, EventEntry, EventEntry, R>(
            rt,
            &self.book,
            &mut self.front,
            known,
            &entry,
            &before,
            &self.desk,
        );
    }

    /// The source is lost.
    pub fn lost_source<R: Wait>(&mut self, rt: &R, known: &mut DeskFront<N>)
        ensures lost { IsStep N.database steps.LostSource self.old self.new }
        ensures told { known.new ≡ self.new.steps }
        ensures ends { EndsWith steps.LostSource known.old known.new }
    {
        let before = Snapshot::of(&self.desk);
        self.desk.lost_source();
        let entry = EventEntry::LostSource;
        record_step::<N, EventEntry, EventEntry, R>(
            rt,
            &self.book,
            &mut self.front,
            known,
            &entry,
            &before,
            &self.desk,
        );
    }
}
