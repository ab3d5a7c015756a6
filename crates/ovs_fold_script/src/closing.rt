//! The last lines of the script `fold`.

ghost use Rattle.std.specs.Prelude.{◌≡◌, ◌++◌, ◌-◌, IfOk, codes, not, ◌&&◌, string_bytes};
ghost use Rattle.ovs_links.specs.Settling.{KeepsLinks, IsWholeChain, chain_of};
ghost use Rattle.ovs_fold_script.specs.Closing.{stuck_line, head_line, counts_line, chain_lines, database_line, last_lines, end_text, is_whole_chain};

use ovs_links::{LinkStore, Settled};
use ovs_rows::Database;
use ovs_script::ScriptEnd;
use ovs_types::{NoMemory, TxnId};
use std::alloc::{AllocError, Global};

fn stuck_text(alloc: Global, id: &str) -> Result<String, AllocError>
    ensures text { IfOk result (λ line. string_bytes line ≡ codes "stuck " ++ (id.now ++ codes "\n")) }
{
    format!(in alloc; "stuck {id}\n")
}

fn stuck_line(alloc: Global, settled: Settled) -> Result<String, NoMemory>
    ensures text { IfOk result (λ line. string_bytes line ≡ stuck_line settled) }
{
    match settled {
        Settled::Done => Ok(String::new(alloc)),
        Settled::Stuck(id) => {
            let id = id.to_text(alloc)?;
            Ok(stuck_text(alloc, id.as_str())?)
        }
    }
}

fn head_text(alloc: Global, id: &str) -> Result<String, AllocError>
    ensures text { IfOk result (λ line. string_bytes line ≡ codes "head " ++ (id.now ++ codes "\n")) }
{
    format!(in alloc; "head {id}\n")
}

fn head_line(alloc: Global, head: TxnId) -> Result<String, NoMemory>
    ensures text { IfOk result (λ line. string_bytes line ≡ head_line head) }
{
    let head = head.to_text(alloc)?;
    Ok(head_text(alloc, head.as_str())?)
}

fn counts_line(
    alloc: Global,
    links: usize,
    chain: usize,
    parked: usize,
) -> Result<String, AllocError>
    requires parked { parked ≡ links - chain }
    ensures text { IfOk result (λ line. string_bytes line ≡ counts_line links chain) }
{
    format!(in alloc; "links {links} chain {chain} parked {parked}\n")
}

// The text, and behind it the line with the database, which is long: so it is written where it stands at last.
fn with_database(alloc: Global, text: String, database: &Database) -> Result<String, NoMemory>
    ensures text { IfOk result (λ t. string_bytes t ≡ string_bytes text ++ database_line database.now) }
{
    let mut text = database.json_behind(alloc, text)?;
    text.push_str("\n")?;
    Ok(text)
}

/// The lines that tell of a store's chain: its head, and how many links are held, are in the chain, and wait.
///
/// # Errors
/// `NoMemory` alone.
pub fn chain_lines(alloc: Global, store: &LinkStore) -> Result<String, NoMemory>
    ensures text { IfOk result (λ lines. string_bytes lines ≡ chain_lines store.now) }
{
    let mut text = head_line(alloc, store.head())?;
    let counts = counts_line(alloc, store.len(), store.chain_len(), store.parked())?;
    text.push_str(counts.as_str())?;
    Ok(text)
}

fn last_lines(alloc: Global, store: &LinkStore, settled: Settled) -> Result<String, NoMemory>
    ensures text { IfOk result (λ text. string_bytes text ≡ last_lines settled store.now) }
{
    let mut text = stuck_line(alloc, settled)?;
    let chain = chain_lines(alloc, store)?;
    text.push_str(chain.as_str())?;
    with_database(alloc, text, store.database())
}

/// Folds the longest chain and tells of it. It is content where no line was refused and the chain isn't stuck.
///
/// Where all links come from one history, the chain is the history's as far as the links hold all of it. After `NoMemory`
/// the links are the same, and a longer beginning of the chain may be folded.
pub(crate) fn close_store(
    alloc: Global,
    store: &mut LinkStore,
    refused: bool,
) -> Result<ScriptEnd, NoMemory>
    ensures text { IfOk result (λ closing. string_bytes closing.text ≡ end_text store.old) }
    ensures content { IfOk result (λ closing. closing.is_content ≡ (not refused && is_whole_chain store.old)) }
    ensures links { KeepsLinks store.old store.new }

    // The chain that is told of is the longest, and no other is as long.
    ensures whole { IsWholeChain store.old (chain_of store.old) }
{
    let settled = store.settle(alloc)?;
    let text = last_lines(alloc, store, settled)?;
    Ok(ScriptEnd {
        text,
        is_content: !refused && matches!(settled, Settled::Done),
    })
}
