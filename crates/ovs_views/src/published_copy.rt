//! What is published: a database with its steps.

ghost use Rattle.std.specs.Prelude.{◌≡◌, ◌<◌, [], IfSome, IfNone, length};
ghost use Rattle.ovs_links.specs.Steps.{folded_of};
ghost use mathlib.Core.List.{IsPrefix};
ghost use Rattle.ovs_links.specs.Absorbing.{folded_by, last_chain};
ghost use Rattle.ovs_links.specs.StepChains.{start_of_steps};
ghost use Rattle.ovs_views.specs.Published.{GoesOn, is_shown};

use crate::chain_front::ChainFront;
use crate::name::{NodeName, StepPrefix};
use left_right::Absorb;
use ovs_links::{Folded, Step};
use ovs_types::{NoMemory, TxnId};
use std::alloc::{AllocError, Global};
use std::marker::Model;

/// What readers see: a database with its steps, and the prefix that knows them. A contract sees the steps.
#[derive(Drop)]
pub struct PublishedCopy<K: NodeName> {
    folded: Folded,
    front: StepPrefix<K>,
    alloc: Global,
}

impl<K: NodeName> Model for PublishedCopy<K> {
    ghost use Rattle.std.specs.Prelude.{◌≡◌, List};
    ghost use Rattle.std.specs.Coded.{coded_list};
    ghost use Rattle.ovs_links.specs.contracts.step.Step as step_row;
    ghost use Rattle.ovs_links.specs.declared.step.Step.{Step};
    ghost use Rattle.ovs_links.specs.Absorbing.{folded_by};

    ghost Value = { List Step };

    ghost coded = { coded_list step_row.the_row.coded };

    ghost view = { λ s. s.front };

    ghost invariant = { λ s. s.folded ≡ folded_by K.schema s.front };
}

impl<K: NodeName> PublishedCopy<K> {
    /// No step yet.
    pub fn new(alloc: Global, folded: Folded, front: StepPrefix<K>) -> PublishedCopy<K>
        requires folded { folded ≡ folded_of K.schema [] }
        requires front { front ≡ [] }
        ensures none { result ≡ [] }
    {
        PublishedCopy {
            folded,
            front,
            alloc,
        }
    }

    /// The prefix that knows the steps.
    pub fn front(&self) -> &StepPrefix<K>
        ensures value { result.now ≡ self.now }
    {
        &self.front
    }

    /// The database after the steps, with them.
    pub fn folded(&self) -> &Folded
        ensures value { result.now ≡ folded_by K.schema self.now }
    {
        &self.folded
    }

    /// The prefix that knows the steps, where they are no fewer than those that are known, which then begin them. `None` exactly
    /// where they are fewer.
    pub fn since(&self, known: &StepPrefix<K>) -> Option<StepPrefix<K>>
        ensures value { IfSome result (λ f. (f ≡ self.now) × GoesOn K.schema known.now f) }
        ensures fewer { IfNone result (length self.now < length known.now) }
    {
        if self.front.len() < known.len() {
            return None;
        }
        Some(known.longer(&self.front))
    }

    /// Whether the last chain of the steps that are known begins at an id or at a greater start, or has a step of that id. `None`
    /// where fewer steps are shown, and of an id that isn't 0 also where none of the chain that is shown is known: what they began
    /// with is gone then.
    pub(crate) fn has_by(&self, known: &StepPrefix<K>, id: TxnId) -> Option<bool>
        ensures value { IfSome result (λ has. has ≡ is_shown known.now id) }
    {
        if id == TxnId::zero() {
            return Some(true);
        }
        let of_chain = self.known_of_chain(known)?;
        if u128::from(id) <= u128::from(self.folded.start()) {
            return Some(true);
        }
        match self.folded.position_of(id) {
            Some(position) => Some(position as u64 <= of_chain),
            None => Some(false),
        }
    }

    // How many steps of the chain that is shown are known, where some are: they are the last chain of those that are known.
    fn known_of_chain(&self, known: &StepPrefix<K>) -> Option<u64>
        ensures value { IfSome result (λ n. (n ≡ length (last_chain known.now)) × IsPrefix (last_chain known.now) (last_chain self.now) × (start_of_steps (last_chain known.now) ≡ start_of_steps (last_chain self.now))) }
    {
        let all = self.since(known)?;
        let chain = self.folded.chain_len() as u64;
        let before = all.len() - chain;
        if known.len() <= before {
            return None;
        }
        Some(known.len() - before)
    }
}

/// The next step of the chain, and the prefix that knows it. A contract sees all steps up to it.
#[derive(Drop)]
pub struct NextStep<K: NodeName> {
    pub(crate) step: Step,
    pub(crate) front: ChainFront<K>,
}

impl<K: NodeName> Model for NextStep<K> {
    ghost use Rattle.std.specs.Prelude.{◌≡◌, ◌++◌, ◌∷◌, ◌-◌, [], List, length, take};
    ghost use Rattle.std.specs.Coded.{coded_list};
    ghost use Rattle.ovs_links.specs.contracts.step.Step as step_row;
    ghost use Rattle.ovs_links.specs.declared.step.Step.{Step};

    ghost Value = { List Step };

    ghost coded = { coded_list step_row.the_row.coded };

    ghost view = { λ f. f.front };

    ghost invariant = { λ f. f.front ≡ take (length f.front - 1) f.front ++ f.step ∷ [] };
}

impl<K: NodeName> Absorb<NextStep<K>> for PublishedCopy<K> {
    type State = [Step; 0];

    ghost state = { λ s. s };

    ghost applied = { λ before after. after };

    // The steps that are published come one after the other, so the refusal of another is never met: it stands for the condition
    // that `left_right` doesn't hand on.
    fn absorb_first(
        &mut self,
        next: &NextStep<K>,
        _other: &PublishedCopy<K>,
    ) -> Result<(), AllocError> {
        let after = next.front.front();
        let (old, new) = (self.front.len(), after.len());
        if new <= old || new - old != 1 {
            return Err(AllocError);
        }
        let front = self.front.longer(after);
        let _ = front.len();
        match self.folded.absorb(self.alloc, &next.step) {
            Ok(()) => {
                self.front = front;
                Ok(())
            }
            Err(NoMemory) => Err(AllocError),
        }
    }
}
