//! The "where" of a monitor's request (ovsdb-server(7)).

ghost use Rattle.std.specs.Prelude.{◌≡◌};
ghost use Rattle.std.specs.List.{list_any};
ghost use Rattle.ovs_query.specs.Conditions.{clause_holds, admits};

use crate::conditions::Condition;
use ovs_rows::Row;
use ovs_types::RowId;
use std::marker::Model;

/// A condition, or a constant in its place.
#[derive(Drop)]
pub enum Clause {
    /// Holds of every row, or of none.
    Always(bool),
    /// Holds where the condition does.
    Where(Condition),
}

impl Clause {
    // Whether it holds of a row.
    fn holds(&self, id: RowId, row: &Row) -> bool
        ensures value { result ≡ clause_holds id row.now self.now }
    {
        match self {
            Clause::Always(truth) => *truth,
            Clause::Where(condition) => condition.holds(id, row),
        }
    }
}

/// The clauses of a monitor's request, of which any has to hold.
#[derive(Drop)]
pub struct Clauses {
    items: Vec<Clause>,
}

impl Model for Clauses {
    ghost use Rattle.std.specs.Prelude.{List};
    ghost use Rattle.ovs_query.specs.declared.clauses.Clause.{Clause};

    ghost Value = { List Clause };

    ghost view = { λ s. s.items.items };
}

// Whether any of the clauses holds of a row.
fn any_holds(clauses: &[Clause], id: RowId, row: &Row) -> bool
    ensures value { result ≡ list_any (clause_holds id row.now) clauses.now }
{
    clauses.iter().any(|clause| clause.holds(id, row))
}

impl Clauses {
    /// These clauses.
    pub(crate) fn new(items: Vec<Clause>) -> Clauses
        ensures value { result ≡ items.items }
    {
        Clauses { items }
    }

    /// Whether any holds of a row, or there is none. No memory is taken.
    pub(crate) fn admits(&self, id: RowId, row: &Row) -> bool
        ensures value { result ≡ admits self.now id row.now }
    {
        self.items.is_empty() || any_holds(&self.items, id, row)
    }
}
