//! The last lines of the script `world`.

ghost use Rattle.std.specs.Prelude.{◌≡◌, ◌++◌, IfOk, codes, string_bytes};
ghost use Rattle.std.specs.Fmt.{decimal};
ghost use Rattle.ovs_world_script.specs.Closing.{node_line, last_lines};

use ovs_links::LinkStore;
use ovs_types::NoMemory;
use ovs_world::{MAX_RELAYS, World};
use std::alloc::Global;

fn node_text(
    alloc: Global,
    node: usize,
    head: &str,
    links: usize,
    chain: usize,
) -> Result<String, NoMemory>
    ensures text { IfOk result (λ line. string_bytes line ≡ codes "node " ++ (decimal node ++ (codes " head " ++ (head.now ++ (codes " links " ++ (decimal links ++ (codes " chain " ++ (decimal chain ++ codes "\n")))))))) }
{
    Ok(format!(in alloc; "node {node} head {head} links {links} chain {chain}\n")?)
}

fn node_line(alloc: Global, node: usize, store: &LinkStore) -> Result<String, NoMemory>
    ensures text { IfOk result (λ line. string_bytes line ≡ node_line node store.now) }
{
    let head = store.head().to_text(alloc)?;
    node_text(alloc, node, head.as_str(), store.len(), store.chain_len())
}

/// A line for each node: its head, how many links it holds, and how many of them its chain has.
pub(crate) fn last_lines(alloc: Global, world: &World) -> Result<String, NoMemory>
    ensures text { IfOk result (λ text. string_bytes text ≡ last_lines world.now) }
{
    let mut text = String::new(alloc);
    for node in 0..MAX_RELAYS + 1 {
        let Some(store) = world.store(node) else {
            break;
        };
        let line = node_line(alloc, node, store)?;
        text.push_str(line.as_str())?;
    }
    Ok(text)
}
