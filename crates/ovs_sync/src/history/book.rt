//! A history as it is opened and named, and the book in which its length stands.

ghost use Rattle.std.specs.Prelude.{◌≡◌, []};
ghost use Rattle.ovs_sync.specs.LengthRule.{head_of};

use crate::history::prefix::Prefix;
use crate::history::rule::LengthRule;
use logbook::{Seen, Start, Word};
use std::marker::{Model, PhantomData};

/// Which history it is, and what holds of each beginning of it that a prefix knows.
pub trait HistoryName<T> {
    ghost use Rattle.std.specs.Prelude.{List};
    ghost use Rattle.logbook.specs.Pages.{Book};

    ghost book: { Book };

    ghost holds: { List T → Type 0 };
}

/// A history with no entries and no name yet.
#[derive(Drop)]
pub struct Opened<T> {
    head: Word<T, u64, LengthRule>,
    seen: Seen<T, u64, LengthRule>,
    pub ghost empty: { seen.log ≡ [] },
    pub ghost head_is: { head ≡ head_of seen.book },
}

impl<T> Opened<T> {
    /// A history of its own, which no other call opens.
    pub fn new() -> Opened<T> {
        let (seen, mut first, _second) = Seen::open(Start::alone(), 0, 0);
        Opened {
            head: Word::tracked(0, &mut first),
            seen,
        }
    }

    /// The book of the history, and the prefix that knows no entry.
    pub fn named<K: HistoryName<T>>(self) -> (Book<T, K>, Prefix<T, K>)
        requires book { self.seen.book ≡ K.book }
        requires first { K.holds [] }
        ensures empty { result.1 ≡ [] }
    {
        let Opened { head, seen } = self;
        (
            Book {
                head,
                of: PhantomData,
            },
            Prefix {
                entries: 0,
                seen,
                of: PhantomData,
            },
        )
    }
}

/// The one value through which entries are added: who holds it, or is lent it, can add.
#[derive(Drop)]
pub struct Book<T, K: HistoryName<T>> {
    pub(crate) head: Word<T, u64, LengthRule>,
    of: PhantomData<K>,
}

impl<T, K: HistoryName<T>> Model for Book<T, K> {
    ghost use Rattle.std.specs.Prelude.{◌≡◌};
    ghost use Rattle.logbook.specs.Pages.{Named, named_coded};
    ghost use Rattle.ovs_sync.specs.LengthRule.{head_of};

    ghost Value = { Named };

    ghost coded = { named_coded };

    ghost view = { λ b. b.head };

    ghost invariant = { λ b. b.head ≡ head_of K.book };
}
