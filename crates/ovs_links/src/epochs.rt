//! Laws of chains that begin anew, of histories of several epochs, and of sets from which old links were dropped. Each is
//! the contract of a function with nothing to do.

ghost use Rattle.std.specs.Prelude.{◌≡◌, ◌↔◌, List, ℕ};
ghost use Rattle.std.specs.FinMap as map;
ghost use Rattle.std.specs.Ordering.{nat_cmp};
ghost use Rattle.ovs_types.specs.declared.schema.Table.{Table};
ghost use Rattle.ovs_rows.specs.Row.{Rows, no_rows, AreRowsOf};
ghost use Rattle.ovs_rows.specs.After.{after};
ghost use Rattle.ovs_rows.specs.DatabaseDifference.{database_difference, HaveSameData, IsCommit};
ghost use Rattle.ovs_links.specs.Link.{AreEnds};
ghost use Rattle.ovs_links.specs.Sets.{Holds, Among, IsConsistent, IsLinkSet};
ghost use Rattle.ovs_links.specs.Chains.{rows_after};
ghost use Rattle.ovs_links.specs.History.{Commit};
ghost use Rattle.ovs_links.specs.Join.{AreJoinable, join};
ghost use Rattle.ovs_links.specs.Epochs.{EpochHistory, IsEpochHistory, IsNextEpoch, begun_epoch, epochs_of, links_in, IsEpochChain, IsOpening, IsLatestChain, opening_of};
ghost use Rattle.ovs_links.specs.Pruning.{IsPruned};
ghost use Rattle.ovs_links.specs.declared.link.Link.{Link};

/// A set of links has one chain, which begins at the greatest start from which it has a link that fits no rows, and two
/// sets with the same links have the same one, and the same rows after it.
pub fn opening_laws()
    ensures start { (m : map.FinMap nat_cmp Link) → IsLinkSet m → IsOpening (Holds m) (opening_of m) }
    ensures exists { (tables : List Table) (m : map.FinMap nat_cmp Link)
        → IsLinkSet m → ((l : Link) → Holds m l → AreEnds l.prev l.id)
        → (ls : List Link) × IsLatestChain tables (Holds m) ls }
    ensures same { (tables : List Table) (s t : map.FinMap nat_cmp Link) (ls ms : List Link)
        → ((l : Link) → Holds s l ↔ Holds t l)
        → IsLatestChain tables (Holds s) ls → IsLatestChain tables (Holds t) ms
        → (ls ≡ ms) × (rows_after tables no_rows ls ≡ rows_after tables no_rows ms) }
{}

/// The links of a history of several epochs don't contradict each other. The chain of a set of them is that of the latest
/// epoch of which the set has the first link, up to the first link that it lacks, and leads to the rows there.
pub fn epoch_laws()
    ensures consistent { (tables : List Table) (h : EpochHistory)
        → IsEpochHistory tables h → IsConsistent (Among (links_in tables (epochs_of h))) }
    ensures chain { (tables : List Table) (h : EpochHistory) (s : map.FinMap nat_cmp Link) (ls : List Link)
        → IsEpochHistory tables h → ((l : Link) → Holds s l → Among (links_in tables (epochs_of h)) l)
        → IsLatestChain tables (Holds s) ls → IsEpochChain tables (Holds s) (epochs_of h) ls }
    ensures begun { (tables : List Table) (h : EpochHistory) (start : ℕ) (k : Commit)
        → IsEpochHistory tables h → IsNextEpoch tables h start k → IsEpochHistory tables (begun_epoch h start k) }
    ensures renewed { (tables : List Table) (rows : Rows) (id : ℕ) → AreRowsOf tables rows
        → IsCommit tables no_rows (after tables no_rows (database_difference tables no_rows rows) id) id
        × HaveSameData rows (after tables no_rows (database_difference tables no_rows rows) id) }
{}

/// Wherever there is a union of two sets of links, there is one where old links were dropped from the first, and both have
/// the same chain.
pub fn pruning_laws()
    ensures joins { (s t p : map.FinMap nat_cmp Link) (start : ℕ) → IsLinkSet s → IsLinkSet t → IsLinkSet p
        → IsPruned s p start → AreJoinable s t → AreJoinable p t }
    ensures chain { (tables : List Table) (s t p : map.FinMap nat_cmp Link) (start : ℕ) (ls : List Link)
        → IsLinkSet s → IsLinkSet t → IsLinkSet p
        → ((l : Link) → Holds s l → AreEnds l.prev l.id) → ((l : Link) → Holds t l → AreEnds l.prev l.id)
        → IsOpening (Holds s) start → IsPruned s p start → AreJoinable s t
        → IsLatestChain tables (Holds (join s t)) ls → IsLatestChain tables (Holds (join p t)) ls }
{}
