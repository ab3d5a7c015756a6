//! What a thread sends links with.

ghost use Rattle.std.specs.Prelude.{List, IfOk};
ghost use Rattle.ovs_links.specs.declared.link.Link.{Link};

use crate::run_error::RunError;
use ovs_node::NodeLink;
use ovs_sync::feed::{FeedEnd, FeedName};
use ovs_views::NodeName;

/// What is left of a thread that sent links to the folder.
pub trait Sender<K: NodeName, Q: FeedName> {
    // Which links may have been sent, in this order.
    ghost sends: { List Link → Type 0 };

    /// The end of the feed that the links were sent to.
    ///
    /// # Errors
    /// Why the links that were to come didn't.
    fn take_end(self) -> Result<FeedEnd<NodeLink<K>, Q>, RunError>
        ensures sent { IfOk result (λ end. ∥ sends end.1 ∥₁) };
}
