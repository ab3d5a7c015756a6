//! What is left of a node.

use crate::node_link::NodeLink;
use crate::refused::RefusedLink;
use ovs_links::{LinkStore, Settled};
use ovs_sync::feed::{Feed, FeedName};
use ovs_views::{NodeName, Publisher, Told};

/// What became of all that the ends of a node sent.
#[derive(Drop)]
pub struct Report<K: NodeName, Q: FeedName, H> {
    /// The feed that they sent to. A contract sees what each of them sent, by its number.
    pub feed: Feed<NodeLink<K>, Q>,
    /// The links that are held, with the longest chain folded.
    pub store: LinkStore,
    /// What `settle` answers on the store.
    pub settled: Settled,
    /// How many links were refused as contradictions of a held one; it stays at its last value.
    pub forks: u64,
    /// How many links were refused for want of room in the store; it stays at its last value.
    pub short: u64,
    /// How many links were dropped, since they can be reached from a lower start than the chain's; it stays at its last value.
    pub dropped: u64,
    /// The links that were refused and not told, in the order in which they came.
    pub refused: Vec<RefusedLink>,
    /// All that is published: the steps of the whole chain.
    pub told: Told<K>,
    /// What the node published with. Views can be read while it lives.
    pub publisher: Publisher<K, H>,
}
