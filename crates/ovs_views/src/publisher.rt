//! The side of the thread that folds: what it folded in, and what of that is published.

ghost use Rattle.std.specs.Prelude.{◌≡◌, ◌++◌, ◌∷◌, ◌^◌, ◌<◌, [], None, length, OnOk, OnErr, IfOk};
ghost use Rattle.left_right.specs.Handles.{published, pending};
ghost use Rattle.ovs_links.specs.Absorbing.{last_chain};
ghost use Rattle.ovs_links.specs.StepChains.{start_of_steps};
ghost use Rattle.ovs_links.specs.Steps.{folded_of};
ghost use Rattle.ovs_views.specs.Published.{AreHandedOn, IsNodeChain, all_with};

use crate::chain_front::ChainFront;
use crate::name::{NodeName, StepHistory, StepPrefix, Told};
use crate::published_copy::{NextStep, PublishedCopy};
use crate::view::View;
use crate::view_error::NoPlace;
use left_right::WriteHandle;
use ovs_links::{Folded, Step};
use ovs_sync::history::Book;
use ovs_types::{NoMemory, TxnId};
use std::alloc::Global;
use std::sync::Wait;

/// The two copies of what is published, of which views read one.
pub type Handle<K, R> = WriteHandle<PublishedCopy<K>, NextStep<K>, R>;

/// What a node publishes with: `published handle` is what views see, and `all_with front kept` is all that was folded in.
#[derive(Drop)]
pub struct Publisher<K: NodeName, H> {
    book: Book<Step, StepHistory<K>>,
    // What was handed on to the copies.
    pub(crate) front: ChainFront<K>,
    // In the history, and not handed on yet for want of memory.
    pub(crate) kept: Option<NextStep<K>>,
    pub(crate) handle: H,
}

impl<K: NodeName, R: Wait + Drop> Publisher<K, Handle<K, R>> {
    /// With no step, and so many places for views.
    ///
    /// # Errors
    /// `NoMemory` alone.
    pub fn new(
        alloc: Global,
        rt: R,
        book: Book<Step, StepHistory<K>>,
        front: StepPrefix<K>,
        folded: (Folded, Folded),
        views: usize,
    ) -> Result<Publisher<K, Handle<K, R>>, NoMemory>
        requires folded { (folded.0 ≡ folded_of K.schema []) × (folded.1 ≡ folded_of K.schema []) }
        requires front { front ≡ [] }
        requires views { (0 < views) × (views < 2 ^ 32) }
        ensures handed_on { IfOk result (λ p. AreHandedOn (published p.handle) (pending p.handle) p.front) }
        ensures none { IfOk result (λ p. (published p.handle ≡ []) × (all_with p.front p.kept ≡ [])) }
    {
        let first = PublishedCopy::new(alloc, folded.0, front.again());
        let second = PublishedCopy::new(alloc, folded.1, front.again());
        match WriteHandle::new(alloc, rt, first, second, views) {
            Ok(handle) => Ok(Publisher {
                book,
                front: ChainFront::new(front),
                kept: None,
                handle,
            }),
            Err(_) => Err(NoMemory),
        }
    }

    // Hands on what was kept.
    fn hand_on(&mut self) -> Result<(), NoMemory>
        requires handed_on { AreHandedOn (published self.old.handle) (pending self.old.handle) self.old.front }
        ensures handed_on { AreHandedOn (published self.new.handle) (pending self.new.handle) self.new.front }
        ensures shown { published self.new.handle ≡ published self.old.handle }
        ensures all { all_with self.new.front self.new.kept ≡ all_with self.old.front self.old.kept }
        ensures handed { OnOk result (self.new.kept ≡ None) }
    {
        let Some(next) = self.kept.take() else {
            return Ok(());
        };
        let front = next.front.again();
        match self.handle.append(next) {
            Ok(()) => {
                self.front = front;
                Ok(())
            }
            Err(next) => {
                self.kept = Some(next);
                Err(NoMemory)
            }
        }
    }

    // Adds a step to the history, and keeps it to be handed on.
    fn add(&mut self, step: Step) -> Result<(), NoMemory>
        requires next { IsNodeChain K.schema (self.old.front ++ step ∷ []) }
        ensures handle { self.new.handle ≡ self.old.handle }
        ensures front { self.new.front ≡ self.old.front }
        ensures kept { OnOk result (all_with self.new.front self.new.kept ≡ self.old.front ++ step ∷ []) }
        ensures unchanged { OnErr result (self.new.kept ≡ self.old.kept) }
    {
        if self.front.front().len() >= 1 << 62 {
            return Err(NoMemory);
        }
        let mut front = self.front.again();
        if front.add(&self.book, &step).is_err() {
            return Err(NoMemory);
        }
        self.kept = Some(NextStep { step, front });
        Ok(())
    }

    /// Folds in the next step of the chain, or one that begins anew at a greater start.
    ///
    /// # Errors
    /// `NoMemory` alone; then nothing of what was folded in or is seen is changed.
    pub fn fold(&mut self, step: Step) -> Result<(), NoMemory>
        requires handed_on { AreHandedOn (published self.old.handle) (pending self.old.handle) self.old.front }
        requires next { IsNodeChain K.schema (all_with self.old.front self.old.kept ++ step ∷ []) }
        ensures handed_on { AreHandedOn (published self.new.handle) (pending self.new.handle) self.new.front }
        ensures shown { published self.new.handle ≡ published self.old.handle }
        ensures folded { OnOk result (all_with self.new.front self.new.kept ≡ all_with self.old.front self.old.kept ++ step ∷ []) }
        ensures unchanged { OnErr result (all_with self.new.front self.new.kept ≡ all_with self.old.front self.old.kept) }
    {
        self.hand_on()?;
        self.add(step)
    }

    /// Shows all that was folded in.
    ///
    /// # Errors
    /// `NoMemory` alone; then nothing of what was folded in or is seen is changed, and the steps are shown by a later call.
    pub fn publish(&mut self) -> Result<(), NoMemory>
        requires handed_on { AreHandedOn (published self.old.handle) (pending self.old.handle) self.old.front }
        ensures handed_on { AreHandedOn (published self.new.handle) (pending self.new.handle) self.new.front }
        ensures all { all_with self.new.front self.new.kept ≡ all_with self.old.front self.old.kept }
        ensures shown { OnOk result (published self.new.handle ≡ all_with self.old.front self.old.kept) }
        ensures unchanged { OnErr result (published self.new.handle ≡ published self.old.handle) }
    {
        self.hand_on()?;
        if !self.handle.has_pending_operations() {
            return Ok(());
        }
        match self.handle.publish() {
            Ok(()) => Ok(()),
            Err(_) => Err(NoMemory),
        }
    }

    /// All that is published.
    pub fn told(&self) -> Told<K>
        ensures value { result ≡ published self.now.handle }
    {
        self.handle.published().front().again()
    }

    /// A view that was told this.
    ///
    /// # Errors
    /// `NoPlace` where each place is taken, or memory ran out.
    pub fn view(&self, known: &StepPrefix<K>) -> Result<View<K>, NoPlace>
        ensures value { IfOk result (λ v. v ≡ known.now) }
    {
        match self.handle.handle() {
            Ok(handle) => Ok(View::new(handle, known.again())),
            Err(_) => Err(NoPlace),
        }
    }

    /// Waits until no view reads, and lets go what is published: from then on views answer `Gone`.
    pub fn close(self) {
        let _ = self.handle.take();
    }
}

impl<K: NodeName, H> Publisher<K, H> {
    // All that was folded in.
    fn all(&self) -> &ChainFront<K>
        ensures value { result.now ≡ all_with self.now.front self.now.kept }
    {
        match &self.kept {
            Some(next) => &next.front,
            None => &self.front,
        }
    }

    /// Where the chain of what was folded in begins, 0 where there is none.
    pub fn start(&self) -> TxnId
        ensures value { result ≡ start_of_steps (last_chain (all_with self.now.front self.now.kept)) }
        ensures chain { IsNodeChain K.schema (all_with self.now.front self.now.kept) }
    {
        let all = self.all();
        let _ = all.front().len();
        all.start()
    }

    /// How many steps that chain has.
    pub fn chain_len(&self) -> u64
        ensures value { result ≡ length (last_chain (all_with self.now.front self.now.kept)) }
    {
        self.all().chain_len()
    }
}
