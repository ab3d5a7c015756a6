//! Conditions on rows (RFC 7047 section 5.1).

ghost use Rattle.std.specs.Prelude.{◌≡◌, ℕ, true, not, IfSome, IfNone};
ghost use Rattle.std.specs.List.{list_all};
ghost use Rattle.ovs_types.specs.Conditions.{includes, excludes};
ghost use Rattle.ovs_types.specs.Datum.{has_element};
ghost use Rattle.ovs_query.specs.Projected.{id_datum};
ghost use Rattle.ovs_query.specs.Conditions.{order_of, passes, holds, all_hold, equal_id, names_no_row, AdmitOnly};

use crate::projected::Field;
use ovs_rows::Row;
use ovs_types::{Atom, Datum, RowId};
use std::cmp::Ordering;
use std::marker::Model;

/// How a datum of a row is held against a value.
#[derive(Clone, Copy, Debug, PartialEq, Eq)]
pub enum Test {
    /// `<`
    Less,
    /// `<=`
    AtMost,
    /// `>=`
    AtLeast,
    /// `>`
    More,
    /// `==`
    Equal,
    /// `!=`
    Unequal,
    /// "includes"
    Includes,
    /// "excludes"
    Excludes,
}

/// A condition on a row: the datum of a field, held against a value.
#[derive(Drop)]
pub struct Condition {
    pub(crate) field: Field,
    pub(crate) test: Test,
    pub(crate) value: Datum,
}

fn order_of(held: &[Atom], value: &[Atom]) -> Option<Ordering>
    ensures value { result ≡ order_of held.now value.now }
{
    match (held, value) {
        ([one], [other]) => Some(one.cmp(other)),
        _ => None,
    }
}

fn passes(test: Test, held: &Datum, value: &Datum) -> bool
    ensures value { result ≡ passes test held.now value.now }
{
    match test {
        Test::Less => order_of(held.atoms(), value.atoms()).is_some_and(|order| order.is_lt()),
        Test::AtMost => order_of(held.atoms(), value.atoms()).is_some_and(|order| order.is_le()),
        Test::AtLeast => order_of(held.atoms(), value.atoms()).is_some_and(|order| order.is_ge()),
        Test::More => order_of(held.atoms(), value.atoms()).is_some_and(|order| order.is_gt()),
        Test::Equal => held == value,
        Test::Unequal => held != value,
        Test::Includes => held.includes(value),
        Test::Excludes => held.excludes(value),
    }
}

// ---- the same of an id, of which no datum is made

fn is_id(id: RowId, atom: &Atom) -> bool
    ensures value { result ≡ has_element atom.now (id_datum id) }
{
    *atom == Atom::Uuid(id)
}

fn id_equals(id: RowId, value: &Datum) -> bool
    ensures value { result ≡ passes Test.Equal (id_datum id) value.now }
{
    match value {
        Datum::Set(_) => [Atom::Uuid(id)].as_slice() == value.atoms(),
        Datum::Map(_) => false,
    }
}

// Whether each of the atoms is the id.
fn is_each(id: RowId, atoms: &[Atom]) -> bool
    ensures value { result ≡ list_all (λ x. has_element x (id_datum id)) atoms.now }
{
    atoms.iter().all(|atom| is_id(id, atom))
}

// Whether none of the atoms is the id.
fn is_none(id: RowId, atoms: &[Atom]) -> bool
    ensures value { result ≡ list_all (λ x. not (has_element x (id_datum id))) atoms.now }
{
    atoms.iter().all(|atom| !is_id(id, atom))
}

fn id_includes(id: RowId, value: &Datum) -> bool
    ensures value { result ≡ includes (id_datum id) value.now }
{
    is_each(id, value.atoms()) && value.pairs().is_empty()
}

fn id_excludes(id: RowId, value: &Datum) -> bool
    ensures value { result ≡ excludes (id_datum id) value.now }
{
    is_none(id, value.atoms())
}

fn id_passes(test: Test, id: RowId, value: &Datum) -> bool
    ensures value { result ≡ passes test (id_datum id) value.now }
{
    let held = [Atom::Uuid(id)];
    match test {
        Test::Less => order_of(&held, value.atoms()).is_some_and(|order| order.is_lt()),
        Test::AtMost => order_of(&held, value.atoms()).is_some_and(|order| order.is_le()),
        Test::AtLeast => order_of(&held, value.atoms()).is_some_and(|order| order.is_ge()),
        Test::More => order_of(&held, value.atoms()).is_some_and(|order| order.is_gt()),
        Test::Equal => id_equals(id, value),
        Test::Unequal => !id_equals(id, value),
        Test::Includes => id_includes(id, value),
        Test::Excludes => id_excludes(id, value),
    }
}

impl Condition {
    // The id that the condition asks of a row, if it asks for one.
    fn row_id(&self) -> Option<RowId>
        ensures value { result ≡ equal_id self.now.field self.now.test self.now.value }
        ensures alone { IfSome result (λ id. (other : ℕ) → (row : _) → holds other row self.now ≡ true → other ≡ id) }
    {
        match (self.field, self.test) {
            (Field::Id, Test::Equal) => match self.value.atoms() {
                [Atom::Uuid(id)] => Some(*id),
                _ => None,
            },
            _ => None,
        }
    }

    /// Whether the condition holds of a row. No memory is taken.
    pub(crate) fn holds(&self, id: RowId, row: &Row) -> bool
        ensures value { result ≡ holds id row.now self.now }
    {
        match self.field {
            Field::Id => id_passes(self.test, id, &self.value),
            Field::Version => {
                let version = RowId::from(u128::from(row.version()));
                id_passes(self.test, version, &self.value)
            }
            Field::Column(number) => match row.get(number) {
                Some(datum) => passes(self.test, datum, &self.value),
                None => false,
            },
        }
    }
}

/// Conditions that all have to hold.
#[derive(Drop)]
pub struct Conditions {
    items: Vec<Condition>,
}

impl Model for Conditions {
    ghost use Rattle.std.specs.Prelude.{List};
    ghost use Rattle.ovs_query.specs.declared.conditions.Condition.{Condition};

    ghost Value = { List Condition };

    ghost view = { λ c. c.items.items };
}

impl Conditions {
    /// These conditions.
    pub(crate) fn new(items: Vec<Condition>) -> Conditions
        ensures value { result ≡ items.items }
    {
        Conditions { items }
    }

    /// The id that a row has to have, where one of the conditions is that `_uuid` is equal to it: no other row matches.
    /// `None` where none of them says so.
    pub fn row_id(&self) -> Option<RowId>
        ensures alone { IfSome result (λ id. AdmitOnly id self.now) }
        ensures none { IfNone result (list_all names_no_row self.now ≡ true) }
    {
        for condition in &self.items {
            if let Some(id) = condition.row_id() {
                return Some(id);
            }
        }
        None
    }

    /// Whether all of them hold of a row of their table. No memory is taken.
    pub fn matches(&self, id: RowId, row: &Row) -> bool
        ensures value { result ≡ all_hold self.now id row.now }
    {
        self.items.iter().all(|condition| condition.holds(id, row))
    }
}
