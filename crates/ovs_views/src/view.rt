//! A reader's view of what is published.

ghost use Rattle.std.specs.Prelude.{◌≡◌, ◌<◌, ◌⊎◌, ◌↔◌, true, false, IfOk, IfErr, OnOk, OnErr, drop, is_some};
ghost use Rattle.std.specs.List.{list_all};
ghost use mathlib.Core.List.{IsPrefix};
ghost use Rattle.serde_json.specs.View.{view, items_view, items_of};
ghost use Rattle.serde_json.specs.Data.{array};
ghost use Rattle.ovs_query.specs.Answer.{only_reads, results};
ghost use Rattle.ovs_query.specs.RowWriting.{select_json};
ghost use Rattle.ovs_links.specs.StepChains.{head_after_steps, position_in, start_at};
ghost use Rattle.ovs_links.specs.Absorbing.{folded_by};
ghost use Rattle.ovs_reader.specs.Session.{is_over};
ghost use Rattle.ovs_reader.specs.Turns.{seen_turn, turn, after_turn};
ghost use Rattle.ovs_reader.specs.Telling.{told_some, after_some};
ghost use Rattle.ovs_views.specs.Published.{GoesOn, is_shown, since_start};

use crate::name::{NodeName, StepPrefix, Told};
use crate::published_copy::PublishedCopy;
use crate::view_error::{Gone, ViewError};
use crate::view_session::ViewSession;
use left_right::ReadHandle;
use ovs_links::{Folded, Step};
use ovs_query::{Select, transact_read};
use ovs_reader::Turn;
use ovs_rows::Database;
use ovs_types::{NoMemory, TxnId};
use ovs_wire::Message;
use serde_json::Value;
use std::alloc::Global;
use std::marker::Model;

/// A database that a view showed.
#[derive(Drop)]
pub struct ShownDatabase {
    /// Where its chain begins, 0 where there is none.
    pub start: TxnId,
    /// The id after the chain's last step, 0 where there is none.
    pub head: TxnId,
    /// The rows after that step.
    pub database: Database,
}

/// What one reader sees of a node. A contract sees the steps that it has seen or was told of.
#[derive(Drop)]
pub struct View<K: NodeName> {
    handle: ReadHandle<PublishedCopy<K>>,
    known: StepPrefix<K>,
}

impl<K: NodeName> Model for View<K> {
    ghost use Rattle.std.specs.Prelude.{List};
    ghost use Rattle.std.specs.Coded.{coded_list};
    ghost use Rattle.ovs_links.specs.contracts.step.Step as step_row;
    ghost use Rattle.ovs_links.specs.declared.step.Step.{Step};

    ghost Value = { List Step };

    ghost coded = { coded_list step_row.the_row.coded };

    ghost view = { λ v. v.known };
}

impl<K: NodeName> View<K> {
    /// The view that reads by this handle, and has seen this.
    pub fn new(handle: ReadHandle<PublishedCopy<K>>, known: StepPrefix<K>) -> View<K>
        ensures value { result ≡ known }
    {
        View { handle, known }
    }

    /// The handle by which it reads, and what it has seen or was told of: so taken apart a view goes to another thread, where
    /// it is put together again.
    pub fn into_parts(self) -> (ReadHandle<PublishedCopy<K>>, StepPrefix<K>)
        ensures known { result.1 ≡ self }
    {
        let View { handle, known } = self;
        (handle, known)
    }

    /// All that this view has seen or was told of.
    pub fn known(&self) -> &StepPrefix<K>
        ensures value { result.now ≡ self.now }
    {
        &self.known
    }

    /// From now on the view shows no less than this.
    pub fn learn(&mut self, told: &Told<K>)
        ensures one { (self.new ≡ self.old) ⊎ (self.new ≡ told.now) }
        ensures kept { IsPrefix self.old self.new }
        ensures told { IsPrefix told.now self.new }
    {
        self.known = self.known.longer(told);
    }

    /// The id after the last step, 0 where there is none.
    ///
    /// # Errors
    /// `Gone`; then nothing is changed.
    pub fn head(&mut self) -> Result<TxnId, Gone>
        ensures later { OnOk result (GoesOn K.schema self.old self.new) }
        ensures value { IfOk result (λ id. id ≡ head_after_steps 0 (folded_by K.schema self.new).steps) }
        ensures unchanged { OnErr result (self.new ≡ self.old) }
    {
        let (front, id) = match self.handle.enter() {
            None => return Err(Gone),
            Some(shown) => (shown.since(&self.known).ok_or(Gone)?, shown.folded().head()),
        };
        self.known = front;
        Ok(id)
    }

    /// Where the chain begins, 0 where there is none, and the id after its last step, as `head`.
    ///
    /// # Errors
    /// `Gone`; then nothing is changed.
    pub fn ends(&mut self) -> Result<(TxnId, TxnId), Gone>
        ensures later { OnOk result (GoesOn K.schema self.old self.new) }
        ensures start { IfOk result (λ r. r.0 ≡ start_at (folded_by K.schema self.new)) }
        ensures head { IfOk result (λ r. r.1 ≡ head_after_steps 0 (folded_by K.schema self.new).steps) }
        ensures unchanged { OnErr result (self.new ≡ self.old) }
    {
        let (front, start, head) = match self.handle.enter() {
            None => return Err(Gone),
            Some(shown) => (
                shown.since(&self.known).ok_or(Gone)?,
                shown.folded().start(),
                shown.folded().head(),
            ),
        };
        self.known = front;
        Ok((start, head))
    }

    /// Where the chain begins and the id after its last step, as `ends`, with a copy of the database there. Its rows are shared.
    ///
    /// # Errors
    /// `Gone` or `NoMemory`; then nothing is changed.
    pub fn copied(&mut self, alloc: Global) -> Result<ShownDatabase, ViewError>
        ensures later { OnOk result (GoesOn K.schema self.old self.new) }
        ensures start { IfOk result (λ s. s.start ≡ start_at (folded_by K.schema self.new)) }
        ensures head { IfOk result (λ s. s.head ≡ head_after_steps 0 (folded_by K.schema self.new).steps) }
        ensures database { IfOk result (λ s. s.database ≡ (folded_by K.schema self.new).database) }
        ensures unchanged { OnErr result (self.new ≡ self.old) }
    {
        let (front, copied) = match self.handle.enter() {
            None => return Err(ViewError::Gone),
            Some(shown) => {
                let front = shown.since(&self.known).ok_or(Gone)?;
                (front, copied(alloc, shown.folded())?)
            }
        };
        self.known = front;
        Ok(copied)
    }

    /// Whether the id is that of a step, or where the chain begins.
    ///
    /// # Errors
    /// `Gone`; then nothing is changed.
    pub fn knows(&mut self, id: TxnId) -> Result<bool, Gone>
        ensures later { OnOk result (GoesOn K.schema self.old self.new) }
        ensures value { IfOk result (λ known. known ≡ is_some (position_in (folded_by K.schema self.new) id)) }
        ensures unchanged { OnErr result (self.new ≡ self.old) }
    {
        let (front, known) = match self.handle.enter() {
            None => return Err(Gone),
            Some(shown) => (
                shown.since(&self.known).ok_or(Gone)?,
                shown.folded().position_of(id).is_some(),
            ),
        };
        self.known = front;
        Ok(known)
    }

    /// Whether the session was shown where an id stands: the chain that it was shown last begins at the id or at a greater start, or
    /// has a step of this id.
    ///
    /// # Errors
    /// `Gone`; of an id that isn't 0 also where none of the chain that is shown now was shown to the session.
    pub fn has_shown(&mut self, session: &ViewSession<K>, id: TxnId) -> Result<bool, Gone>
        ensures value { IfOk result (λ has. has ≡ is_shown session.now.last id) }
        ensures same { self.new ≡ self.old }
    {
        match self.handle.enter() {
            None => Err(Gone),
            Some(shown) => shown.has_by(session.last(), id).ok_or(Gone),
        }
    }

    /// The rows that a select shows (RFC 7047 section 5.2.2).
    ///
    /// # Errors
    /// `Gone` or `NoMemory`; then nothing is changed.
    pub fn select(&mut self, alloc: Global, select: &Select) -> Result<Value, ViewError>
        ensures later { OnOk result (GoesOn K.schema self.old self.new) }
        ensures value { IfOk result (λ v. view v ≡ select_json select.now (folded_by K.schema self.new).database.rows) }
        ensures unchanged { OnErr result (self.new ≡ self.old) }
    {
        let (front, rows) = match self.handle.enter() {
            None => return Err(ViewError::Gone),
            Some(shown) => {
                let front = shown.since(&self.known).ok_or(Gone)?;
                (front, select.run(alloc, shown.folded().database())?)
            }
        };
        self.known = front;
        Ok(rows)
    }

    /// The results of operations that only read (RFC 7047 section 4.1.3), all from one database.
    ///
    /// # Errors
    /// `Gone` or `NoMemory`; then nothing is changed.
    pub fn transact_read(&mut self, alloc: Global, operations: &[Value]) -> Result<Value, ViewError>
        requires read_only { list_all (λ v. only_reads (view v)) operations.now ≡ true }
        ensures later { OnOk result (GoesOn K.schema self.old self.new) }
        ensures value { IfOk result (λ v. view v ≡ array (items_of (results K.schema.description.tables (folded_by K.schema self.new).database.rows false (items_view operations.now)))) }
        ensures unchanged { OnErr result (self.new ≡ self.old) }
    {
        let (front, results) = match self.handle.enter() {
            None => return Err(ViewError::Gone),
            Some(shown) => {
                let front = shown.since(&self.known).ok_or(Gone)?;
                let results = transact_read(alloc, shown.folded().database(), operations)?;
                (front, results)
            }
        };
        self.known = front;
        Ok(results)
    }

    /// Where the chain begins, and copies of its steps after the first n, none past the end; all of them where it begins at
    /// another start than this. Their rows are shared.
    ///
    /// # Errors
    /// `Gone` or `NoMemory`; then nothing is changed.
    pub fn changes_since(
        &mut self,
        alloc: Global,
        start: TxnId,
        n: usize,
    ) -> Result<(TxnId, Vec<Step>), ViewError>
        ensures later { OnOk result (GoesOn K.schema self.old self.new) }
        ensures start { IfOk result (λ r. r.0 ≡ start_at (folded_by K.schema self.new)) }
        ensures value { IfOk result (λ r. r.1.items ≡ since_start (folded_by K.schema self.new) start n) }
        ensures unchanged { OnErr result (self.new ≡ self.old) }
    {
        let (front, begins, steps) = match self.handle.enter() {
            None => return Err(ViewError::Gone),
            Some(shown) => {
                let front = shown.since(&self.known).ok_or(Gone)?;
                let begins = shown.folded().start();
                let first = if start == begins { n } else { 0 };
                (
                    front,
                    begins,
                    copies_after(alloc, first, shown.folded().steps())?,
                )
            }
        };
        self.known = front;
        Ok((begins, steps))
    }

    /// A session's answer to a message (RFC 7047 section 4.1; ovsdb-server(7)).
    ///
    /// # Errors
    /// `Gone`, also where what is shown is less than what the session was shown before; else `Epoch` exactly where the chain that is
    /// shown begins at a greater start than the chain that the session was shown last: the session's epoch is over; or `NoMemory`.
    /// Then nothing is changed of the session.
    pub fn message(
        &mut self,
        alloc: Global,
        session: &mut ViewSession<K>,
        message: Message,
    ) -> Result<Turn, ViewError>
        ensures later { OnOk result (GoesOn K.schema self.old self.new) }
        // It goes on from what the session was shown last, too.
        ensures shown { OnOk result (GoesOn K.schema session.old.last self.new) }
        ensures turn { IfOk result (λ t. seen_turn t ≡ turn session.old.session (folded_by K.schema self.new) message) }
        ensures after { OnOk result (session.new ≡ record { session = after_turn session.old.session (folded_by K.schema self.new) message; last = self.new }) }
        ensures lasts { OnOk result (is_over session.old.session.start (folded_by K.schema self.new) ≡ false) }
        ensures refused { IfErr result (λ e. (e ≡ ViewError.Gone)
            ⊎ (GoesOn K.schema self.old self.new × ((e ≡ ViewError.Epoch) ↔ (is_over session.old.session.start (folded_by K.schema self.new) ≡ true)))) }
        ensures known { IsPrefix self.old self.new }
        ensures unchanged { OnErr result (session.new ≡ session.old) }
    {
        let (front, turn) = match self.handle.enter() {
            None => return Err(ViewError::Gone),
            Some(shown) => {
                let front = shown.since(&self.known).ok_or(Gone)?;
                (front, session.take_message(alloc, message, &shown))
            }
        };
        self.known = front;
        turn
    }

    /// The notifications that a session's monitors weren't given yet (RFC 7047 section 4.1.6); but no step is begun once so many
    /// are told. Fewer mean that nothing is left to be told; what is left, the next call tells.
    ///
    /// # Errors
    /// As `message`.
    pub fn pump(
        &mut self,
        alloc: Global,
        session: &mut ViewSession<K>,
        most: usize,
    ) -> Result<Vec<Message>, ViewError>
        requires some { 0 < most }
        ensures later { OnOk result (GoesOn K.schema self.old self.new) }
        // It goes on from what the session was shown last, too.
        ensures shown { OnOk result (GoesOn K.schema session.old.last self.new) }
        ensures told { IfOk result (λ ms. ms.items ≡ told_some most session.old.session.monitors (folded_by K.schema self.new).steps) }
        ensures after { OnOk result (session.new ≡ record { session = after_some most session.old.session (folded_by K.schema self.new); last = self.new }) }
        ensures lasts { OnOk result (is_over session.old.session.start (folded_by K.schema self.new) ≡ false) }
        ensures refused { IfErr result (λ e. (e ≡ ViewError.Gone)
            ⊎ (GoesOn K.schema self.old self.new × ((e ≡ ViewError.Epoch) ↔ (is_over session.old.session.start (folded_by K.schema self.new) ≡ true)))) }
        ensures known { IsPrefix self.old self.new }
        ensures unchanged { OnErr result (session.new ≡ session.old) }
    {
        let (front, messages) = match self.handle.enter() {
            None => return Err(ViewError::Gone),
            Some(shown) => {
                let front = shown.since(&self.known).ok_or(Gone)?;
                (front, session.pump(alloc, &shown, most))
            }
        };
        self.known = front;
        messages
    }
}

// A copy of the database, with the ends of its chain.
fn copied(alloc: Global, folded: &Folded) -> Result<ShownDatabase, NoMemory>
    ensures value { IfOk result (λ s. s ≡ record { start = start_at folded.now; head = head_after_steps 0 folded.now.steps; database = folded.now.database }) }
{
    Ok(ShownDatabase {
        start: folded.start(),
        head: folded.head(),
        database: folded.database().copy(alloc)?,
    })
}

// Copies of the steps after the first n.
fn copies_after(alloc: Global, n: usize, steps: &[Step]) -> Result<Vec<Step>, NoMemory>
    ensures value { IfOk result (λ v. v.items ≡ drop n steps.now) }
{
    let rest = if n < steps.len() { &steps[n..] } else { &[] };
    let mut copies = Vec::with_capacity(alloc, rest.len())?;
    for step in rest {
        copies.push(step.copy()?)?;
    }
    Ok(copies)
}
