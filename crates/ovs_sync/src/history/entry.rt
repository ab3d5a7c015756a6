//! Entries that are made of values.

use logbook::Plain;
use std::marker::PhantomData;

/// How an entry is made of a value, for proofs alone: no value of the entry's type is needed when the program runs.
pub trait EntryFrom<X, T> {
    ghost entry: { X → T };
}

/// The entry is the value itself.
pub(crate) struct Itself;

impl<T> EntryFrom<T, T> for Itself {
    ghost entry = { λ value. value };
}

/// The entry that `M` makes of a value, as what is asked of a step.
pub(crate) struct Entry<X, T, M: EntryFrom<X, T>> {
    about: PhantomData<X>,
    entry: PhantomData<T>,
    maker: PhantomData<M>,
}

impl<X, T, M: EntryFrom<X, T>> Plain<X, T, u64> for Entry<X, T, M> {
    ghost use Rattle.std.specs.Prelude.{None};

    ghost ask = { λ about. M.entry about };

    ghost state = { λ _. None };
}
