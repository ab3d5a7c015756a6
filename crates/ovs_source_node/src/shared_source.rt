//! The source's desk, which its threads share.

ghost use Rattle.std.specs.Prelude.{◌≡◌, ◌++◌, ◌∷◌, [], List, IfSome, MatchOption};
ghost use Rattle.ovs_links.specs.Sets.{IsOfTables};
ghost use Rattle.ovs_links.specs.declared.link.Link.{Link};
ghost use Rattle.ovs_source.specs.SourceDesk.{AreFirst};

use ovs_links::Link;
use ovs_node_threads::SharedAuthority;
use ovs_views::NodeName;
use ovs_worker::Wake;

/// The desk of a source, as the thread shares it that sends its links to the node's feed, which knows those that were taken out by a `T`.
/// To wake it is to wake that thread.
pub trait SharedSource<K: NodeName, T>: SharedAuthority<K> + Wake {
    // Which links were taken out, in their order.
    ghost links: { T → List Link };

    // All links that were taken out of it may be these, in this order.
    ghost gives: { List Link → Type 0 };

    /// Takes out the next link that came of what was asked, if there is one. Once another thread took one out, none is given any more.
    fn next_link(&self, taken: &mut T) -> Option<Link>
        ensures next { MatchOption result (links taken.new ≡ links taken.old) (λ l. links taken.new ≡ links taken.old ++ l ∷ []) }
        ensures given { gives (links taken.new) }
        ensures tables { IfSome result (IsOfTables K.schema.description.tables) };

    /// Waits until it was woken since the last call came back, or, if this is the first, at all. Only the thread that sends its
    /// links is to call it.
    fn wait(&self);

    // At first none was.
    ghost gives_none: { gives [] };

    // They are the first of a history of the node's tables.
    ghost gives_first: { (ls : List Link) → gives ls → AreFirst K.schema.description.tables ls };
}
