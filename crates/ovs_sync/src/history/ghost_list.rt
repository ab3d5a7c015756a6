//! A list that only proofs see.

ghost use Rattle.std.specs.Prelude.{◌≡◌, ◌++◌, ◌∷◌, []};

use crate::history::entry::{EntryFrom, Itself};
use crate::history::rule::NoGain;
use logbook::{Offer, Plain, Rule, Seen, Start};
use std::collections::LinkedList;
use std::marker::{Model, PhantomData};
use std::snapshot::Snapshot;

/// Nothing holds of the words of a ghost list's book, which no call uses.
pub struct NoRule;

impl<T> Rule<T, u64> for NoRule {
    ghost use Rattle.std.specs.Prelude.{[]};
    ghost use base.Fml.{ftrue};

    ghost holds = { λ cells log. Unit {0} };

    ghost first = { [] };

    ghost hinted = { λ n log. Unit {0} };

    ghost shows = { λ log. [] };

    ghost keeps = { λ names log. ftrue };

    ghost moves = { λ ask before after answer. Unit {0} };
}

// No entry.
struct NoEntry<T> {
    of: PhantomData<T>,
}

impl<T> Plain<NoEntry<T>, LinkedList<T>, u64> for NoEntry<T> {
    ghost use Rattle.std.specs.Prelude.{[], None};

    ghost ask = { λ _. [] };

    ghost state = { λ _. None };
}

// The list as it was, and one entry more, which `M` makes of a value.
struct OneMore<X, T, M: EntryFrom<X, T>> {
    list: Snapshot<GhostList<T>>,
    about: Snapshot<X>,
    of: PhantomData<M>,
}

impl<X, T, M: EntryFrom<X, T>> Plain<OneMore<X, T, M>, LinkedList<T>, u64> for OneMore<X, T, M> {
    ghost use Rattle.std.specs.Prelude.{[], ◌∷◌, ◌++◌, None};

    ghost ask = { λ l. l.list.value ++ M.entry l.about.value ∷ [] };

    ghost state = { λ _. None };
}

/// A list that only proofs see, and that only its holder adds to: it takes no memory, and its calls do nothing when the program
/// runs. A contract sees it as its entries. By itself it says nothing of what the program does: an invariant, or the clauses of
/// a trait, must say what its entries are.
pub struct GhostList<T> {
    seen: Seen<LinkedList<T>, u64, NoRule>,
    // An offer that is never run: what it asks is the list.
    list: Offer<LinkedList<T>, u64, NoRule, NoGain>,
}

impl<T> Model for GhostList<T> {
    ghost use Rattle.std.specs.Prelude.{List};

    ghost Value = { List T };

    ghost view = { λ l. l.list.ask };
}

impl<T> Drop for GhostList<T> {
    fn drop(self) {
        let GhostList { seen: _, list: _ } = self;
    }
}

impl<T> GhostList<T> {
    /// A list with no entry.
    pub fn new() -> GhostList<T>
        ensures none { result ≡ [] }
    {
        let (seen, _first, _second) = Seen::open(Start::alone(), 0, 0);
        let nothing = NoEntry { of: PhantomData };
        let list = seen.plain::<NoGain, NoEntry<T>, NoEntry<T>>(&nothing);
        let NoEntry { of: _ } = nothing;
        GhostList { seen, list }
    }

    /// One entry more, behind the others.
    pub fn push(&mut self, entry: &T)
        ensures pushed { self.new ≡ self.old ++ entry.now ∷ [] }
    {
        self.push_as::<T, Itself>(entry);
    }

    /// One entry more, behind the others: the one that `M` makes of a value.
    pub fn push_as<X, M: EntryFrom<X, T>>(&mut self, about: &X)
        ensures pushed { self.new ≡ self.old ++ M.entry about.now ∷ [] }
    {
        let longer = OneMore::<X, T, M> {
            list: Snapshot::of(self),
            about: Snapshot::of(about),
            of: PhantomData,
        };
        self.list = self
            .seen
            .plain::<NoGain, OneMore<X, T, M>, OneMore<X, T, M>>(&longer);
        let OneMore {
            list: _,
            about: _,
            of: _,
        } = longer;
    }
}
