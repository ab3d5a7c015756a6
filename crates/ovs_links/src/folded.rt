//! A database with the steps that led to it.

ghost use Rattle.std.specs.Prelude.{◌≡◌, ℕ, [], true, length, Some, None, IfOk, OnOk, OnErr, IfSome, MatchOption};
ghost use Rattle.std.specs.Option.{option_copied};
ghost use Rattle.ovs_rows.specs.After.{ArePutOf, fits};
ghost use Rattle.ovs_links.specs.Link.{IsStart};
ghost use Rattle.ovs_links.specs.Sets.{IsOfTables};
ghost use Rattle.ovs_links.specs.Store.{at_number};
ghost use Rattle.ovs_links.specs.Steps.{folded_of, folded_with, tables_in};
ghost use Rattle.ovs_links.specs.Absorbing.{absorbed, begins_anew, folded_more, with_admitted, with_step};
ghost use Rattle.ovs_links.specs.StepChains.{IsFoldedChain, IsStepAt, ExtendsShown, head_after_steps, position_in, start_at};

use crate::id_map::IdMap;
use crate::link::Link;
use crate::step::Step;
use ovs_rows::Database;
use ovs_types::{NoMemory, Schema, TxnId};
use std::alloc::Global;
use std::marker::Model;

/// A database, and one step for each link that was folded into it.
#[derive(Drop)]
pub struct Folded {
    database: Database,
    steps: Vec<Step>,
    places: IdMap,
}

impl Model for Folded {
    ghost use Rattle.std.specs.Prelude.{List, refl};
    ghost use Rattle.std.specs.Coded.{code_by, coded×, coded_list};
    ghost use Rattle.ovs_rows.specs.Database.{DatabaseValue};
    ghost use Rattle.ovs_rows.specs.contracts.database.Database as database_row;
    ghost use Rattle.ovs_links.specs.contracts.step.Step as step_row;
    ghost use Rattle.ovs_links.specs.declared.step.Step.{Step};
    ghost use Rattle.ovs_links.specs.Steps.{FoldedValue};
    ghost use Rattle.ovs_links.specs.StepChains.{ArePlaces};

    ghost Value = { FoldedValue };

    ghost coded = { code_by (DatabaseValue × List Step)
        (coded× database_row.the_row.coded (coded_list step_row.the_row.coded))
        (λ f. (f.database, f.steps)) (λ p. record { database = p.0; steps = p.1 }) (λ _. refl) };

    ghost view = { λ f. record { database = f.database; steps = f.steps.items } };

    ghost invariant = { λ f. ArePlaces f.steps.items f.places };
}

impl Folded {
    /// No rows, and no step.
    ///
    /// # Errors
    /// `NoMemory` alone.
    pub fn new(alloc: Global, schema: &Schema) -> Result<Folded, NoMemory>
        ensures value { IfOk result (λ f. f ≡ folded_of schema.now []) }
    {
        Ok(Folded {
            database: Database::empty(alloc, schema)?,
            steps: Vec::new(alloc),
            places: IdMap::new(alloc),
        })
    }

    /// The database after the steps.
    pub fn database(&self) -> &Database
        ensures value { result.now ≡ self.now.database }
    {
        &self.database
    }

    /// The steps, in the order in which they were folded.
    pub fn steps(&self) -> &[Step]
        ensures value { result.now ≡ self.now.steps }
    {
        &self.steps
    }

    /// How many steps there are.
    pub fn chain_len(&self) -> usize
        ensures value { result ≡ length self.now.steps }
    {
        self.steps.len()
    }

    /// The step with this number, counted from 1. `None` for 0 and past the last. On a chain it leads from the head
    /// and the rows after the steps before it.
    pub fn step(&self, n: usize) -> Option<&Step>
        ensures value { option_copied result ≡ at_number self.now.steps n }
        ensures leads { IsFoldedChain self.now → IfSome (option_copied result) (IsStepAt self.now n) }
    {
        if n == 0 {
            return None;
        }
        self.steps.get(n - 1)
    }

    /// The id that the first step leads from, 0 where there is none. Of a chain it is a start id.
    pub fn start(&self) -> TxnId
        ensures value { result ≡ start_at self.now }
        ensures is_start { IsFoldedChain self.now → IsStart result }
    {
        match self.steps.first() {
            Some(step) => step.prev,
            None => TxnId::zero(),
        }
    }

    /// The id after the last step, 0 where there is none.
    pub fn head(&self) -> TxnId
        ensures value { result ≡ head_after_steps 0 self.now.steps }
    {
        match self.steps.last() {
            Some(step) => step.id,
            None => TxnId::zero(),
        }
    }

    /// How many steps there are up to this id: 0 for `start`, k for the id of the k-th step, else none. On a chain
    /// each id stands at one place.
    pub fn position_of(&self, id: TxnId) -> Option<usize>
        ensures value { result ≡ position_in self.now id }
        ensures place { MatchOption result ((k : ℕ) → ¬ (ExtendsShown self.now k id)) (λ k. ExtendsShown self.now k id) }
        ensures only { IsFoldedChain self.now → (k : ℕ) → ExtendsShown self.now k id → result ≡ Some k }
    {
        if id == self.start() {
            return Some(0);
        }
        self.places.get(id)
    }

    /// Adds a step, and puts each row that it touched as it is after it. A step from a greater start begins anew: it and its rows
    /// stand alone then. The step may be one of another schema: rows that may not stand in the tables of this database are left
    /// out. The rows are shared, not copied.
    ///
    /// # Errors
    /// `NoMemory` alone; nothing is changed then.
    pub fn absorb(&mut self, alloc: Global, step: &Step) -> Result<(), NoMemory>
        ensures value { OnOk result (self.new ≡ absorbed self.old step.now) }
        // Where all may stand in the tables, none is left out.
        ensures whole { OnOk result (ArePutOf (tables_in self.old) step.now.applied → self.new ≡ folded_more self.old step.now) }
        ensures unchanged { OnErr result (self.new ≡ self.old) }
    {
        if !self.is_begun_by(step) {
            return self.add(alloc, step);
        }
        let mut fresh = Folded::new(alloc, self.database.schema())?;
        fresh.add(alloc, step)?;
        *self = fresh;
        Ok(())
    }

    // Whether the step comes from a greater start.
    fn is_begun_by(&self, step: &Step) -> bool
        ensures value { result ≡ begins_anew self.now.steps step.now }
    {
        let start = u128::from(self.start());
        let prev = u128::from(step.prev);
        start < prev && prev < 1 << 64
    }

    // Adds a step to those that are there.
    fn add(&mut self, alloc: Global, step: &Step) -> Result<(), NoMemory>
        ensures value { OnOk result (self.new ≡ with_admitted self.old step.now) }
        ensures whole { OnOk result (ArePutOf (tables_in self.old) step.now.applied → self.new ≡ with_step self.old step.now) }
        ensures unchanged { OnErr result (self.new ≡ self.old) }
    {
        self.steps.reserve(1)?;
        let copy = step.copy()?;
        let id = step.id;
        let was_new = self.places.put_first(id, self.steps.len() + 1)?;
        match self.database.absorb(alloc, &step.applied) {
            Ok(()) => {
                self.steps.push_reserved(copy);
                Ok(())
            }
            Err(e) => {
                self.places.take_back(id, was_new);
                Err(e)
            }
        }
    }

    /// Applies the change of a link, and adds its step. An `Err` changes nothing.
    pub(crate) fn fold(&mut self, alloc: Global, link: &Link) -> Result<(), NoMemory>
        requires fits { fits self.old.database.rows link.now.change ≡ true }
        requires of_tables { IsOfTables (tables_in self.old) link.now }
        ensures value { OnOk result (self.new ≡ folded_with self.old link.now) }
        ensures unchanged { OnErr result (self.new ≡ self.old) }
    {
        self.steps.reserve(1)?;
        let (prev, id) = (link.prev(), link.id());
        let was_put = self.places.put_first(id, self.steps.len() + 1)?;
        match self.database.apply(alloc, link.change(), id) {
            Ok(applied) => {
                self.steps.push_reserved(Step { prev, id, applied });
                Ok(())
            }
            // A change that fits is refused for want of memory alone.
            Err(_) => {
                self.places.take_back(id, was_put);
                Err(NoMemory)
            }
        }
    }
}
