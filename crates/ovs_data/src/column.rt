//! What a column of a table may hold (RFC 7047 section 3.2).

ghost use Rattle.std.specs.Prelude.{◌≡◌, IfOk, IsOk, true};
ghost use Rattle.ovs_data.specs.Column.{is_single, may_count, loose, keys_column};
ghost use Rattle.ovs_data.specs.Datum.{default_datum, empty_of, one_default, IsDatumOf};

mod admitting;

use crate::atom::{Atom, AtomKind};
use crate::datum::Datum;
use crate::datum::atoms::Atoms;
use crate::datum::pairs::{Pair, Pairs};
use ovs_json::NoMemory;
use std::alloc::Global;

/// The type of a column: sets of atoms of the kind `key`, or with a `value` maps from `key` to it.
#[derive(Clone, Copy, Debug, PartialEq, Eq)]
pub struct Column {
    /// The kind of the elements, or of a map's keys.
    pub key: AtomKind,
    /// The kind of a map's values.
    pub value: Option<AtomKind>,
    /// Whether there may be no element ("min" is 0).
    pub may_be_empty: bool,
    /// The most elements ("max"), where there is a limit.
    pub most: Option<u64>,
}

impl Column {
    /// Whether a datum has one element at most, so that a difference is the whole new datum.
    pub fn is_single(&self) -> bool
        ensures single { result ≡ is_single self.now }
    {
        self.most == Some(1)
    }

    /// Whether a datum may have this many elements or pairs. Only those of a single column are
    /// counted: one, or none where that may be.
    pub(crate) fn may_count(&self, count: usize) -> bool
        ensures may { result ≡ may_count self.now count }
    {
        !self.is_single() || count == 1 || (self.may_be_empty && count == 0)
    }

    /// The column of the same kinds with any number of elements.
    pub fn loose(&self) -> Column
        ensures value { result ≡ loose self.now }
    {
        Column {
            key: self.key,
            value: self.value,
            may_be_empty: true,
            most: None,
        }
    }

    /// The column of any sets of keys of this column's maps.
    pub fn keys(&self) -> Column
        ensures value { result ≡ keys_column self.now }
    {
        Column {
            key: self.key,
            value: None,
            may_be_empty: true,
            most: None,
        }
    }

    /// The datum of a row that was given none: no element where that may be, else one element or
    /// pair of 0, false, the empty text or the id of zeros.
    ///
    /// # Errors
    /// `NoMemory` alone, and only where one element is needed.
    pub fn default_datum(&self, alloc: Global) -> Result<Datum, NoMemory>
        ensures value { IfOk result (λ d. d ≡ default_datum self.now) }
        ensures kept { IfOk result (IsDatumOf self.now) }
        // No element takes no memory.
        ensures empty { self.now.may_be_empty ≡ true → IsOk result }
    {
        if self.may_be_empty {
            Ok(empty_of(alloc, self.value))
        } else {
            one_default(alloc, self.key, self.value)
        }
    }
}

// A set or a map of nothing.
fn empty_of(alloc: Global, value: Option<AtomKind>) -> Datum
    ensures value { result ≡ empty_of value }
{
    match value {
        None => Datum::Set(Atoms::empty(alloc)),
        Some(_) => Datum::Map(Pairs::empty(alloc)),
    }
}

// A set of one default atom, or a map of one default pair.
fn one_default(alloc: Global, key: AtomKind, value: Option<AtomKind>) -> Result<Datum, NoMemory>
    ensures value { IfOk result (λ d. d ≡ one_default key value) }
{
    let key = Atom::default_atom(alloc, key);
    match value {
        None => Ok(Datum::Set(Atoms::one(alloc, key)?)),
        Some(kind) => {
            let value = Atom::default_atom(alloc, kind);
            Ok(Datum::Map(Pairs::one(alloc, Pair { key, value })?))
        }
    }
}
