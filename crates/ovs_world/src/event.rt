//! What may happen to a world, and what is replied.

use ovs_json::Json;
use ovs_types::TxnId;
use ovs_wire::Params;

/// What happens to a world. Node 0 is its source, and relays are counted from 1, as sessions are.
#[derive(Debug, Drop)]
pub enum Event {
    /// The source carries out operations, and what they change is a commit of this id.
    Commit { id: TxnId, operations: Params },
    /// The source begins a new epoch, whose first commit has this id and inserts all rows.
    Trim { id: TxnId },
    /// A relay opens a session with another node.
    Connect { relay: usize, upstream: usize },
    /// Up to so many bytes of what is on its way in a session reach the session's relay.
    Deliver { session: usize, bytes: usize },
    /// A session is cut: what is on its way is lost.
    Cut { session: usize },
    /// A relay begins anew, with no link; each session of which it is an end is cut.
    Restart { relay: usize },
    /// A relay gets all links that another node holds.
    MergeFrom { into: usize, from: usize },
    /// A relay settles, and drops the links that its chain no longer needs: those of lower starts.
    Prune { relay: usize },
    /// A node carries out operations that only read.
    Read { node: usize, operations: Params },
}

/// What is replied to an event.
#[derive(Debug, Drop)]
pub enum Reply {
    /// The results of operations, one for each.
    Results(Json),
    /// The number of the session that was opened.
    Session(usize),
    /// How many links the relay was told that it didn't hold, and how many that it did.
    Took { took: usize, held: usize },
    /// How many links were dropped.
    Dropped(usize),
    /// The event has happened, and there is nothing to tell of it.
    Done,
}
