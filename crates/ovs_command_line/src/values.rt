//! What the words behind options stand for.

ghost use Rattle.std.specs.Prelude.{IfSome};
ghost use Rattle.ovs_address.specs.Address.{Stands};
ghost use Rattle.ovs_command_line.specs.Values.{SpellsCommit, SpellsRow, SpellsNumber};

use ovs_data::{RowId, TxnId};

/// The id of a commit that a word spells.
pub(crate) fn read_commit(word: &str) -> Option<TxnId>
    ensures value { Stands SpellsCommit word.now result }
{
    let Ok(id) = TxnId::read(word) else {
        return None;
    };
    if id.is_start() { None } else { Some(id) }
}

/// The id of a row that a word spells.
pub(crate) fn read_row(word: &str) -> Option<RowId>
    ensures value { Stands SpellsRow word.now result }
{
    match RowId::read(word) {
        Ok(id) => Some(id),
        Err(_) => None,
    }
}

/// The number within these bounds that a word spells.
pub(crate) fn read_number(word: &str, least: u32, greatest: u32) -> Option<u32>
    ensures value { Stands (SpellsNumber least greatest) word.now result }
{
    let Ok(count) = word.parse::<u32>() else {
        return None;
    };
    if count < least || count > greatest {
        return None;
    }
    Some(count)
}
