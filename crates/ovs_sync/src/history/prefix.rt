//! A beginning of a history that its holder knows.

ghost use Rattle.std.specs.Prelude.{◌≡◌, ◌<◌, ◌^◌, ◌++◌, ◌∷◌, ◌⊎◌, [], length, OnOk, OnErr, IfErr};
ghost use mathlib.Core.List.{IsPrefix};

use crate::history::book::{Book, HistoryName};
use crate::history::entry::{Entry, EntryFrom, Itself};
use crate::history::rule::{Adding, LengthRule, NoGain};
use logbook::{Offer, Seen};
use std::marker::{Model, PhantomData};

/// A beginning of the history that its holder knows. A contract sees it as its entries; when the program runs it is a number.
#[derive(Drop)]
pub struct Prefix<T, K: HistoryName<T>> {
    pub(crate) entries: u64,
    pub(crate) seen: Seen<T, u64, LengthRule>,
    pub(crate) of: PhantomData<K>,
}

impl<T, K: HistoryName<T>> Model for Prefix<T, K> {
    ghost use Rattle.std.specs.Prelude.{◌≡◌, List, length};

    ghost Value = { List T };

    ghost view = { λ f. f.seen.log };

    ghost invariant = { λ f. (f.entries ≡ length f.seen.log) × (f.seen.book ≡ K.book) × K.holds f.seen.log };
}

/// A prefix wasn't at the end of its history. A contract sees it as a longer beginning of that history, which was found in the
/// place of the one that the prefix knows.
#[derive(Drop)]
pub struct Behind<T, K: HistoryName<T>> {
    seen: Seen<T, u64, LengthRule>,
    of: PhantomData<K>,
}

impl<T, K: HistoryName<T>> Model for Behind<T, K> {
    ghost use Rattle.std.specs.Prelude.{◌≡◌, List};

    ghost Value = { List T };

    ghost view = { λ b. b.seen.log };

    ghost invariant = { λ b. b.seen.book ≡ K.book };
}

impl<T, K: HistoryName<T>> Prefix<T, K> {
    /// How many entries it knows, of which the condition of the history holds.
    pub fn len(&self) -> u64
        ensures length { result ≡ length self.now }
        ensures holds { K.holds self.now }
    {
        self.entries
    }

    /// A copy.
    pub fn again(&self) -> Prefix<T, K>
        ensures same { result ≡ self.now }
    {
        Prefix {
            entries: self.entries,
            seen: self.seen.again(),
            of: PhantomData,
        }
    }

    /// The longer of two prefixes: both begin it, since both begin one history.
    pub fn longer(&self, other: &Prefix<T, K>) -> Prefix<T, K>
        ensures one { (result ≡ self.now) ⊎ (result ≡ other.now) }
        ensures this { IsPrefix self.now result }
        ensures that { IsPrefix other.now result }
    {
        let mut both = self.seen.again();
        both.learn(&other.seen);
        if self.entries < other.entries {
            other.again()
        } else {
            self.again()
        }
    }

    /// Adds an entry behind all that it knows, and knows it too. `Behind` where the history is longer than what it knows; then
    /// nothing changes.
    pub fn add(&mut self, book: &Book<T, K>, entry: &T) -> Result<(), Behind<T, K>>
        requires room { length self.old < 2 ^ 62 }
        requires holds { K.holds (self.old ++ entry.now ∷ []) }
        ensures added { OnOk result (self.new ≡ self.old ++ entry.now ∷ []) }
        ensures behind { IfErr result (λ history. IsPrefix self.old history × (length self.old < length history)) }
        ensures unchanged { OnErr result (self.new ≡ self.old) }
    {
        self.add_as::<T, Itself>(book, entry)
    }

    /// Adds the entry that `M` makes of a value, as `add` adds one: so an entry may stand for what no value of its type is made of.
    pub fn add_as<X, M: EntryFrom<X, T>>(
        &mut self,
        book: &Book<T, K>,
        about: &X,
    ) -> Result<(), Behind<T, K>>
        requires room { length self.old < 2 ^ 62 }
        requires holds { K.holds (self.old ++ M.entry about.now ∷ []) }
        ensures added { OnOk result (self.new ≡ self.old ++ M.entry about.now ∷ []) }
        ensures behind { IfErr result (λ history. IsPrefix self.old history × (length self.old < length history)) }
        ensures unchanged { OnErr result (self.new ≡ self.old) }
    {
        // A copy of what was seen takes the step, so that a step that finds another length leaves this prefix as it is.
        let mut seen = self.seen.again();
        let mut offer: Offer<T, u64, LengthRule, NoGain> = seen.plain::<NoGain, X, Entry<X, T, M>>(
            about,
        );
        let mut pen = seen.no_pen();
        let entries = self.entries;
        let found = book
            .head
            .compare_exchange::<Adding, NoGain>(
                entries,
                entries + 1,
                &mut seen,
                &mut offer,
                &mut pen,
            );
        if found != entries {
            return Err(Behind {
                seen,
                of: PhantomData,
            });
        }
        self.entries = entries + 1;
        self.seen = seen;
        Ok(())
    }
}
