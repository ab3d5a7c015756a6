//! Operations as plain data: all names are resolved, and what reading shows to be wrong is gone.

ghost use Rattle.std.specs.Prelude.{◌≡◌};

use ovs_query::{Conditions, Select};
use ovs_rows::RowKey;
use ovs_types::Datum;
use std::marker::Model;

/// What a mutation makes of the datum of a column (RFC 7047 section 5.1).
#[derive(Clone, Copy, Debug, PartialEq, Eq)]
pub(crate) enum Mutator {
    /// The value takes its place, as in a row that is inserted or updated.
    Set,
    /// `+=`
    Add,
    /// `-=`
    Subtract,
    /// "insert"
    Insert,
    /// "delete"
    Delete,
}

/// A mutation of the column with this number.
#[derive(Drop)]
pub(crate) struct Mutation {
    pub(crate) column: usize,
    pub(crate) mutator: Mutator,
    pub(crate) value: Datum,
}

/// Mutations, one after the other.
#[derive(Drop)]
pub(crate) struct Mutations {
    items: Vec<Mutation>,
}

impl Model for Mutations {
    ghost use Rattle.std.specs.Prelude.{List};
    ghost use Rattle.ovs_operations.specs.declared.operation.Mutation.{Mutation};

    ghost Value = { List Mutation };

    ghost view = { λ m. m.items.items };
}

impl Mutations {
    /// These mutations.
    pub(crate) fn new(items: Vec<Mutation>) -> Mutations
        ensures value { result ≡ items.items }
    {
        Mutations { items }
    }

    /// Lends them.
    pub(crate) fn as_slice(&self) -> &[Mutation]
        ensures value { result.now ≡ self.now }
    {
        &self.items
    }
}

/// What becomes of the rows that match.
#[derive(Drop)]
pub(crate) enum Alteration {
    /// Their columns are mutated.
    Write(Mutations),
    /// They go.
    Delete,
}

/// The operations that alter the rows that match.
#[derive(Clone, Copy, Debug, PartialEq, Eq)]
pub(crate) enum Altering {
    /// "update"
    Update,
    /// "mutate"
    Mutate,
    /// "delete"
    Delete,
}

/// An operation of a transaction.
#[derive(Drop)]
pub(crate) enum Operation {
    /// A row at this place, of the defaults of its columns and then these mutations.
    Insert {
        place: RowKey,
        mutations: Mutations,
    },
    /// The rows of the table of this number of which all conditions hold are altered.
    Alter {
        table: usize,
        conditions: Conditions,
        alteration: Alteration,
    },
    /// The rows that match are shown.
    Select(Select),
    /// Nothing: a comment, a commit that needn't be durable, an assertion that holds.
    Nothing,
}
