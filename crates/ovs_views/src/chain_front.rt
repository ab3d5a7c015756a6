//! All steps of a node with the chain that they end in.

ghost use Rattle.std.specs.Prelude.{◌≡◌, ◌<◌, ◌^◌, ◌++◌, ◌∷◌, ◌==◌, ◌||◌, [], length, OnOk, OnErr};
ghost use Rattle.ovs_links.specs.Absorbing.{begins_anew, last_chain};
ghost use Rattle.ovs_links.specs.StepChains.{start_of_steps};
ghost use Rattle.ovs_views.specs.Published.{IsNodeChain};

use crate::name::{NodeName, StepHistory, StepPrefix};
use ovs_links::Step;
use ovs_sync::history::{Behind, Book};
use ovs_types::TxnId;
use std::marker::Model;

/// All steps up to one, where the last chain of them begins, and how many steps that chain has. A contract sees all steps.
#[derive(Drop)]
pub struct ChainFront<K: NodeName> {
    front: StepPrefix<K>,
    start: TxnId,
    chain: u64,
}

impl<K: NodeName> Model for ChainFront<K> {
    ghost use Rattle.std.specs.Prelude.{◌≡◌, List, length};
    ghost use Rattle.std.specs.Coded.{coded_list};
    ghost use Rattle.ovs_links.specs.contracts.step.Step as step_row;
    ghost use Rattle.ovs_links.specs.declared.step.Step.{Step};
    ghost use Rattle.ovs_links.specs.Absorbing.{last_chain};
    ghost use Rattle.ovs_links.specs.StepChains.{start_of_steps};

    ghost Value = { List Step };

    ghost coded = { coded_list step_row.the_row.coded };

    ghost view = { λ p. p.front };

    ghost invariant = { λ p. (p.start ≡ start_of_steps (last_chain p.front)) × (p.chain ≡ length (last_chain p.front)) };
}

impl<K: NodeName> ChainFront<K> {
    /// No step yet.
    pub fn new(front: StepPrefix<K>) -> ChainFront<K>
        requires front { front ≡ [] }
        ensures none { result ≡ [] }
    {
        ChainFront {
            front,
            start: TxnId::zero(),
            chain: 0,
        }
    }

    /// A copy.
    pub fn again(&self) -> ChainFront<K>
        ensures same { result ≡ self.now }
    {
        ChainFront {
            front: self.front.again(),
            start: self.start,
            chain: self.chain,
        }
    }

    /// The prefix that knows the steps.
    pub fn front(&self) -> &StepPrefix<K>
        ensures value { result.now ≡ self.now }
    {
        &self.front
    }

    /// Where the last chain begins, 0 where there is none.
    pub fn start(&self) -> TxnId
        ensures value { result ≡ start_of_steps (last_chain self.now) }
    {
        self.start
    }

    /// How many steps the last chain has.
    pub fn chain_len(&self) -> u64
        ensures value { result ≡ length (last_chain self.now) }
    {
        self.chain
    }

    /// Adds a step. Where the history is longer than it knows it gives up, and nothing is changed.
    pub fn add(
        &mut self,
        book: &Book<Step, StepHistory<K>>,
        step: &Step,
    ) -> Result<(), Behind<Step, StepHistory<K>>>
        requires room { length self.old < 2 ^ 62 }
        requires next { IsNodeChain K.schema (self.old ++ step.now ∷ []) }
        ensures added { OnOk result (self.new ≡ self.old ++ step.now ∷ []) }
        ensures unchanged { OnErr result (self.new ≡ self.old) }
    {
        let is_begun = self.is_begun_by(step);
        self.front.add(book, step)?;
        if is_begun {
            self.start = step.prev;
            self.chain = 1;
        } else {
            self.chain += 1;
        }
        Ok(())
    }

    // Whether a chain begins with this step.
    fn is_begun_by(&self, step: &Step) -> bool
        ensures value { result ≡ ((length (last_chain self.now) == 0) || begins_anew (last_chain self.now) step.now) }
    {
        let start = u128::from(self.start);
        let prev = u128::from(step.prev);
        self.chain == 0 || start < prev && prev < 1 << 64
    }
}
