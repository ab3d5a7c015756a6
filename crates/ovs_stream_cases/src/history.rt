//! Whether links are those of a history.

ghost use Rattle.std.specs.Prelude.{◌≡◌, ◌==◌, true, IfOk};
ghost use Rattle.std.specs.List.{All, list_any};
ghost use Rattle.ovs_rows.specs.Row.{AreRowsOf};
ghost use Rattle.ovs_links.specs.Sets.{IsOfTables};
ghost use Rattle.ovs_stream_cases.specs.Made.{rows_behind, IsNext, IsMade};

use ovs_links::Link;
use ovs_rows::{ApplyError, Database};
use ovs_types::{NoMemory, Schema, TxnId};
use std::alloc::Global;

// Whether one of these links has this id.
fn has_id(links: &[Link], id: TxnId) -> bool
    ensures value { result ≡ list_any (λ l. l.id == id) links.now }
{
    links.iter().any(|link| link.id() == id)
}

// Carries out a link; false where it doesn't fit.
fn carry_out(alloc: Global, database: &mut Database, link: &Link) -> Result<bool, NoMemory>
    requires tables { IsOfTables database.old.schema.description.tables link.now }
    ensures rows { IfOk result (λ fits. fits ≡ true → database.new.rows ≡ rows_behind database.old.schema.description.tables database.old.rows link.now) }
    ensures schema { database.new.schema ≡ database.old.schema }
{
    match database.apply(alloc, link.change(), link.id()) {
        Ok(_applied) => Ok(true),
        Err(ApplyError::NoMemory) => Err(NoMemory),
        Err(_) => Ok(false),
    }
}

// Whether a link leads on from this commit and these rows, and none of those behind it has its id. Then it is carried out.
fn leads_on(
    alloc: Global,
    database: &mut Database,
    head: TxnId,
    link: &Link,
    later: &[Link],
) -> Result<bool, NoMemory>
    requires tables { IsOfTables database.old.schema.description.tables link.now }
    requires rows { AreRowsOf database.old.schema.description.tables database.old.rows }
    ensures next { IfOk result (λ leads. leads ≡ true → IsNext database.old.schema.description.tables head database.old.rows link.now later.now) }
    ensures rows { IfOk result (λ leads. leads ≡ true → database.new.rows ≡ rows_behind database.old.schema.description.tables database.old.rows link.now) }
    ensures schema { database.new.schema ≡ database.old.schema }
{
    if link.prev() != head || has_id(later, link.id()) {
        return Ok(false);
    }
    let before = database.copy(alloc)?;
    if !carry_out(alloc, database, link)? {
        return Ok(false);
    }
    let difference = Database::diff(alloc, &before, database)?;
    Ok(difference.same(link.change()))
}

/// Whether a source may have made these links, in this order, in a database without rows: each from the commit before it, the first from
/// 0, under ids that differ, with exactly the difference between the databases before and after it.
///
/// # Errors
/// `NoMemory` alone.
pub(crate) fn are_of_history(
    alloc: Global,
    schema: &Schema,
    links: &[Link],
) -> Result<bool, NoMemory>
    requires tables { All (IsOfTables schema.now.description.tables) links.now }
    ensures made { IfOk result (λ are. are ≡ true → IsMade schema.now.description.tables links.now) }
{
    let mut database = Database::empty(alloc, schema)?;
    let mut head = TxnId::zero();
    for (number, link) in links.iter().enumerate() {
        let later = &links[number + 1..];
        if !leads_on(alloc, &mut database, head, link, later)? {
            return Ok(false);
        }
        head = link.id();
    }
    Ok(true)
}
