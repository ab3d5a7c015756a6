//! Laws of operations.

ghost use Rattle.std.specs.Prelude.{◌≡◌, ℕ, List, Bool, Ok};
ghost use Rattle.std.specs.FinMap.{get};
ghost use Rattle.ovs_types.specs.declared.schema.NamedColumn.{NamedColumn};
ghost use Rattle.ovs_rows.specs.declared.row_key.RowKey.{RowKey};
ghost use Rattle.ovs_rows.specs.declared.row.Row.{Row};
ghost use Rattle.ovs_rows.specs.Row.{Rows};
ghost use Rattle.ovs_operations.specs.declared.operation.Alteration.{Alteration};
ghost use Rattle.ovs_operations.specs.Altering.{RunResult, alter_all, after_all};

/// An alteration that meets no fault leaves at each place of its table what it makes of the row there, and each other row as it
/// was. So the order in which the rows are altered tells in the first fault alone.
pub fn each_row_once()
    ensures rows { (id : ℕ) (before rows : Rows) (columns : List NamedColumn) (matches : RowKey × Row → Bool) (alteration : Alteration) (table : ℕ) (c : RunResult)
        → alter_all id before columns matches alteration table rows ≡ Ok c
        → (p : RowKey) → get c.rows p ≡ after_all id before columns matches alteration table p (get rows p) }
{}
