//! Where rows stand.

ghost use Rattle.std.specs.Prelude.{◌≡◌};

use ovs_types::RowId;

/// Where a row stands: the table, by its number in the order of the tables' names, and the row's id.
#[derive(Clone, Copy, Debug, PartialEq, Eq, PartialOrd, Ord)]
pub struct RowKey {
    pub table: usize,
    pub id: RowId,
}

impl RowKey {
    /// The first place of the table of this number. A table's places are those from its first to the next table's.
    pub(crate) fn first(table: usize) -> RowKey
        ensures value { result ≡ record { table = table; id = 0 } }
    {
        RowKey {
            table,
            id: RowId::from(0),
        }
    }
}
