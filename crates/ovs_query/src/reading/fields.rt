//! Fields by their names: `_uuid`, `_version` and the columns of a table (RFC 7047 section 3.2).

ghost use Rattle.std.specs.Prelude.{◌≡◌, IfOk};
ghost use Rattle.ovs_query.specs.ConditionReading.{field_named, shown_field};
ghost use Rattle.ovs_query.specs.Projected.{id_column};

use crate::projected::{Field, Projected};
use ovs_types::{AtomKind, Column, NamedColumn, NamedColumns, NoMemory, Text};
use std::alloc::Global;

/// The column of an id.
pub(crate) fn id_column() -> Column
    ensures value { result ≡ id_column }
{
    Column {
        key: AtomKind::Uuid,
        value: None,
        may_be_empty: false,
        most: Some(1),
    }
}

/// The field of a name and its column, if there is one.
pub(crate) fn field_named(columns: &NamedColumns, name: &str) -> Option<(Field, Column)>
    ensures value { result ≡ field_named columns.now name.now }
{
    if name == "_uuid" {
        Some((Field::Id, id_column()))
    } else if name == "_version" {
        Some((Field::Version, id_column()))
    } else {
        match columns.find(name) {
            Some((number, column)) => Some((Field::Column(number), column)),
            None => None,
        }
    }
}

/// A field under its name.
pub(crate) fn shown_field(
    alloc: Global,
    name: &str,
    field: Field,
    column: Column,
) -> Result<Projected, NoMemory>
    ensures value { IfOk result (λ s. s ≡ shown_field name.now (field, column)) }
{
    Ok(Projected {
        field,
        named: NamedColumn {
            name: Text::new(alloc, name)?,
            column,
        },
    })
}
