//! Stores of the nodes: which one is meant, and what becomes of links that a relay is told.

ghost use Rattle.std.specs.Prelude.{◌≡◌, ◌≢◌, ◌≤◌, ◌<◌, ℕ, Ok, IfOk, IfErr, OnOk, length};
ghost use Rattle.ovs_links.specs.Chains.{GrowsInto};
ghost use Rattle.ovs_links.specs.declared.answer.By.{By};
ghost use Rattle.ovs_links.specs.declared.answer.TakeError.TheVariants as TakeError;
ghost use Rattle.ovs_links.specs.declared.link.Link.{Link};
ghost use Rattle.ovs_links.specs.Outcomes.{merge_answer, merged};
ghost use Rattle.ovs_links.specs.Settling.{KeepsLinks, after_settle};
ghost use Rattle.ovs_links.specs.Sets.{AllOf, Holds, IsOfTables};
ghost use Rattle.ovs_links.specs.Store.{Stored, IsStore, tables_of};
ghost use Rattle.ovs_source.specs.Commits.{IsSource};
ghost use Rattle.ovs_world.specs.Deliveries.{TakesSome};
ghost use Rattle.ovs_world.specs.Nodes.{IsNode, IsSettled, IsTier, Extends, Grow, LeavesMerge, MergesNodes, LeavesMergeOfNodes, DropsOld, held, node_at, plus, counts_of, no_counts};

use crate::error::WorldError;
use ovs_links::{Link, LinkStore, MergeError, TakeError, take_all};
use std::alloc::Global;

/// How many links a relay was told that it didn't hold, and how many that it did. Each count stays at its last value.
#[derive(Clone, Copy, Debug, PartialEq, Eq)]
pub struct Taken {
    pub took: usize,
    pub held: usize,
}

impl Taken {
    /// Nothing was told.
    pub(crate) fn none() -> Taken
        ensures value { result ≡ no_counts }
    {
        Taken { took: 0, held: 0 }
    }

    /// With what was told next.
    pub(crate) fn plus(self, next: Taken) -> Taken
        ensures value { result ≡ plus self next }
    {
        Taken {
            took: self.took.saturating_add(next.took),
            held: self.held.saturating_add(next.held),
        }
    }
}

/// The store of a node: 0 is the source, and the relays are counted from 1.
pub(crate) fn node<'a>(source: &'a LinkStore, relays: &'a [LinkStore], n: usize) -> &'a LinkStore
    requires place { n ≤ length relays.now }
    ensures value { result.now ≡ node_at source.now relays.now n }
{
    if n == 0 { source } else { &relays[n - 1] }
}

// What is told where a link isn't taken.
fn refusal_of(error: TakeError) -> WorldError
    requires memory { (l : Link) (by : By) (p i : ℕ) → (error ≢ TakeError.Fork l by p i) × (error ≢ TakeError.Full l) }
    ensures told { result ≡ WorldError.NoMemory }
{
    match error {
        TakeError::NoMemory { .. } => WorldError::NoMemory,
        TakeError::Fork { .. } => unreachable!(),
        TakeError::Full { .. } => unreachable!(),
    }
}

/// Takes links of the source, and settles, also where memory ran out for one.
///
/// # Errors
/// `NoMemory`: some of the links are held then, and less is folded than could be.
pub(crate) fn hold(
    alloc: Global,
    store: &mut LinkStore,
    links: Vec<Link>,
) -> Result<Taken, WorldError>
    requires node { (source : Stored) × IsStore source × IsNode source store.old × AllOf (Holds source.links) links.items }
    requires of_tables { AllOf (IsOfTables (tables_of store.old)) links.items }
    ensures held { IfOk result (λ counts. (store.new ≡ held store.old links.items) × (counts ≡ counts_of store.old links.items)) }
    ensures node { (source : Stored) → IsNode source store.old → AllOf (Holds source.links) links.items → IsNode source store.new }
    ensures extends { Extends store.old store.new }
    ensures some { TakesSome store.old links.items store.new }
    ensures memory { IfErr result (λ e. e ≡ WorldError.NoMemory) }
{
    let before = store.len();
    let told = links.len();
    let taken = take_all(store, links);
    let settled = store.settle(alloc);
    match taken {
        Ok(()) => {}
        Err(error) => return Err(refusal_of(error)),
    }
    match settled {
        Ok(_) => {}
        Err(error) => return Err(error.into()),
    }
    let took = store.len().saturating_sub(before);
    Ok(Taken {
        took,
        held: told.saturating_sub(took),
    })
}

/// Merges the links of another store of the same source, and settles.
///
/// # Errors
/// `NoMemory`: either the store is as it was, or it has the links, and less is folded than could be.
pub(crate) fn merge_stores(
    alloc: Global,
    store: &mut LinkStore,
    other: &LinkStore,
) -> Result<(), WorldError>
    requires nodes { (source : Stored) × IsSource source × IsStore source × IsNode source store.old × IsNode source other.now }
    ensures merged { OnOk result ((merge_answer store.old.links other.now.links ≡ Ok tt) × (store.new ≡ after_settle (merged store.old other.now))) }
    ensures memory { IfErr result (λ e. (e ≡ WorldError.NoMemory) × LeavesMerge store.old other.now store.new) }
    ensures node { (source : Stored) → IsNode source store.old → IsNode source other.now → IsNode source store.new }
    ensures extends { Extends store.old store.new }
{
    match store.merge(other) {
        Ok(()) => {}
        Err(MergeError::NoMemory) => return Err(WorldError::NoMemory),
        Err(MergeError::Fork { .. }) => unreachable!(),
        Err(MergeError::Full) => unreachable!(),
    }
    store.settle(alloc)?;
    Ok(())
}

/// Settles, and drops the links that can be reached from a lower start than that of the chain. How many they were.
///
/// # Errors
/// `NoMemory`: the store has the same links, and less is folded than could be.
pub(crate) fn prune_store(alloc: Global, store: &mut LinkStore) -> Result<usize, WorldError>
    ensures drops { IfOk result (λ n. DropsOld (after_settle store.old) n store.new) }
    ensures settled { OnOk result (IsSettled store.new) }
    ensures memory { IfErr result (λ e. (e ≡ WorldError.NoMemory) × KeepsLinks store.old store.new) }
    ensures node { (source : Stored) → IsNode source store.old → IsNode source store.new }
    ensures grows { GrowsInto store.old.folded store.new.folded }
{
    let _ = store.settle(alloc)?;
    let dropped = store.prune();
    // It is still one, as of every call that looks at its head.
    let _ = store.head();
    Ok(dropped)
}

/// Merges the links of a node into the store of a relay, which is another, and settles. Their numbers are those of the world.
///
/// # Errors
/// `NoMemory`, as of [`merge_stores`].
pub(crate) fn merge_nodes(
    alloc: Global,
    source: &LinkStore,
    relays: &mut [LinkStore],
    into: usize,
    from: usize,
) -> Result<(), WorldError>
    requires places { (0 < into) × (into ≤ length relays.old) × (from ≤ length relays.old) × (into ≢ from) }
    requires tier { IsTier source.now relays.old }
    ensures merged { OnOk result (MergesNodes source.now relays.old into from relays.new) }
    ensures memory { IfErr result (λ e. (e ≡ WorldError.NoMemory) × LeavesMergeOfNodes source.now relays.old into from relays.new) }
    ensures tier { IsTier source.now relays.new }
    ensures grow { Grow relays.old relays.new }
{
    if from == 0 {
        merge_stores(alloc, &mut relays[into - 1], source)
    } else if into < from {
        let (low, high) = relays.split_at_mut(from - 1);
        merge_stores(alloc, &mut low[into - 1], &high[0])
    } else {
        let (low, high) = relays.split_at_mut(into - 1);
        merge_stores(alloc, &mut high[0], &low[from - 1])
    }
}
