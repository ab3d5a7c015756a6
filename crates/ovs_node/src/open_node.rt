//! How a node is made.

ghost use Rattle.std.specs.Prelude.{◌≡◌, ◌≢◌, ◌≤◌, ◌↔◌, [], None, false, IfErr, IfOk, MatchResult, OnOk, vec_len};
ghost use Rattle.ovs_node.specs.Nodes.{NodeInStep, OpenNodeInStep};
ghost use Rattle.ovs_node.specs.Ledger.{AreCounts, IsFresh, fresh_ends};

use crate::intake::Intake;
use crate::node::Node;
use crate::node_link::NodeLink;
use ovs_links::{Folded, LinkStore, Step};
use ovs_sync::feed::{Feed, FeedEnd, FeedName, FeedQueue, OpenFeed};
use ovs_sync::history::Opened;
use ovs_types::{NoMemory, Schema};
use ovs_views::{Board, Handle, NoPlace, NodeName, Publisher, StepHistory, StepPrefix, View};
use std::alloc::{AllocError, Global};
use std::sync::{Mutex, Wait};
use thiserror::Error;

/// How many upstreams a node follows at most.
pub const MAX_UPSTREAMS: usize = 4;

/// How many views a node has at most.
pub const MAX_VIEWS: usize = 12;

/// Why no node is made.
#[derive(Clone, Copy, Debug, PartialEq, Eq, Error)]
pub enum NodeError {
    /// Not 1 to 4 upstreams, or not 1 to 12 views.
    #[error("not 1 to 4 upstreams and 1 to 12 views")]
    BadCount,
    /// There was no place for a view; another try may find one.
    #[error("no place for a view")]
    NoPlace,
    /// Memory ran out.
    #[error("out of memory")]
    NoMemory,
}

impl From<NoMemory> for NodeError {
    ghost use Rattle.std.specs.Prelude.{◌≡◌};
    ghost use Rattle.ovs_node.specs.declared.open_node.NodeError.TheVariants as faults;

    ghost from_gives = { λ _ e. e ≡ faults.NoMemory };

    fn from(_want: NoMemory) -> NodeError {
        NodeError::NoMemory
    }
}

impl From<AllocError> for NodeError {
    ghost use Rattle.std.specs.Prelude.{◌≡◌};
    ghost use Rattle.ovs_node.specs.declared.open_node.NodeError.TheVariants as faults;

    ghost from_gives = { λ _ e. e ≡ faults.NoMemory };

    fn from(_want: AllocError) -> NodeError {
        NodeError::NoMemory
    }
}

impl From<NoPlace> for NodeError {
    ghost use Rattle.std.specs.Prelude.{◌≡◌};
    ghost use Rattle.ovs_node.specs.declared.open_node.NodeError.TheVariants as faults;

    ghost from_gives = { λ _ e. e ≡ faults.NoPlace };

    fn from(_full: NoPlace) -> NodeError {
        NodeError::NoPlace
    }
}

/// A node whose feed has no name yet.
#[derive(Drop)]
pub struct OpenNode<K: NodeName, H> {
    alloc: Global,
    pub(crate) feed: OpenFeed<NodeLink<K>>,
    pub(crate) store: LinkStore,
    pub(crate) publisher: Publisher<K, H>,
    pub(crate) views: Vec<View<K>>,
    pub(crate) told: StepPrefix<K>,
    pub(crate) upstreams: usize,
}

/// The parts of a node, each for the thread that it is for.
#[derive(Drop)]
pub struct Parts<K: NodeName, Q: FeedName, H> {
    /// For the thread that folds.
    pub node: Node<K, Q, H>,
    /// What the ends and the node share.
    pub queue: FeedQueue<NodeLink<K>, Q>,
    /// One for each upstream, by their numbers.
    pub ends: Vec<FeedEnd<NodeLink<K>, Q>>,
    /// One for each reader.
    pub views: Vec<View<K>>,
    /// Where the node posts what it published.
    pub board: Mutex<Board<K>>,
}

impl<K: NodeName, R: Wait + Drop> OpenNode<K, Handle<K, R>> {
    /// A node of this schema, without links, for so many upstreams and views. `rt` is what the node waits with for views that
    /// read what is no longer shown.
    ///
    /// # Errors
    /// `BadCount` exactly where there aren't 1 to 4 upstreams and 1 to 12 views; `NoPlace`; `NoMemory`.
    pub fn new(
        alloc: Global,
        rt: R,
        schema: &Schema,
        opened: Opened<Step>,
        upstreams: usize,
        views: usize,
    ) -> Result<OpenNode<K, Handle<K, R>>, NodeError>
        requires name { (opened.seen.book ≡ K.book) × (schema.now ≡ K.schema) }
        ensures count { MatchResult result (λ _. AreCounts upstreams views) (λ e. (e ≡ NodeError.BadCount) ↔ ¬ (AreCounts upstreams views)) }
        ensures counts { IfOk result (λ n. (n.upstreams ≡ upstreams) × (vec_len n.views ≡ views)) }
        ensures store { IfOk result (λ n. IsFresh K.schema n.store) }
        ensures publisher { IfOk result OpenNodeInStep }
        ensures told { IfOk result (λ n. n.told ≡ []) }
    {
        if upstreams == 0 || upstreams > MAX_UPSTREAMS || views == 0 || views > MAX_VIEWS {
            return Err(NodeError::BadCount);
        }
        OpenNode::made(alloc, rt, schema, opened, upstreams, views)
    }

    // The node, once its counts of upstreams and views are found right.
    #[tactic(auto, using(crate::proofs::Begins::none_shown))]
    fn made(
        alloc: Global,
        rt: R,
        schema: &Schema,
        opened: Opened<Step>,
        upstreams: usize,
        views: usize,
    ) -> Result<OpenNode<K, Handle<K, R>>, NodeError>
        requires name { (opened.seen.book ≡ K.book) × (schema.now ≡ K.schema) }
        requires counts { AreCounts upstreams views }
        ensures error { IfErr result (λ e. e ≢ NodeError.BadCount) }
        ensures counts { IfOk result (λ n. (n.upstreams ≡ upstreams) × (vec_len n.views ≡ views)) }
        ensures store { IfOk result (λ n. IsFresh K.schema n.store) }
        ensures publisher { IfOk result OpenNodeInStep }
        ensures told { IfOk result (λ n. n.told ≡ []) }
    {
        let (book, told) = opened.named::<StepHistory<K>>();
        let folded = (Folded::new(alloc, schema)?, Folded::new(alloc, schema)?);
        let publisher = Publisher::new(alloc, rt, book, told.again(), folded, views)?;
        let views = views_of(alloc, &publisher, &told, views)?;
        let store = LinkStore::new(alloc, schema)?;
        let Ok(feed) = OpenFeed::new(alloc) else {
            return Err(NodeError::NoMemory);
        };
        Ok(OpenNode {
            alloc,
            feed,
            store,
            publisher,
            views,
            told,
            upstreams,
        })
    }

    /// The parts of the node, whose feed has this name from now on.
    ///
    /// # Errors
    /// `NoMemory` alone.
    pub fn named<Q: FeedName>(self) -> Result<Parts<K, Q, Handle<K, R>>, NoMemory>
        requires table { self.feed.items.table.shared.table_id ≡ Q.table }
        requires upstreams { self.upstreams ≤ 4 }
        requires store { IsFresh K.schema self.store }
        requires publisher { OpenNodeInStep self }
        ensures in_step { IfOk result (λ p. NodeInStep p.node) }
        ensures intake { IfOk result (λ p. p.node.intake ≡ record { store = self.store; feed = record { taken = []; ends = self.upstreams; returned = [] }; kept = None; forks = 0; short = 0; dropped = 0; prunes = false; untold = [] }) }
        ensures ends { IfOk result (λ p. p.ends.items ≡ fresh_ends self.upstreams) }
        ensures views { IfOk result (λ p. p.views.items ≡ self.views.items) }
    {
        let OpenNode {
            alloc,
            feed,
            store,
            publisher,
            views,
            told,
            upstreams,
        } = self;
        let (queue, mut feed) = feed.named::<Q>();
        let ends = ends_of(alloc, &queue, &mut feed, upstreams)?;
        let intake = Intake::new(alloc, store, feed);
        Ok(Parts {
            node: Node::new(alloc, intake, publisher),
            queue,
            ends,
            views,
            board: Mutex::new(Board::new(told)),
        })
    }
}

// So many views, which were told this.
fn views_of<K: NodeName, R: Wait + Drop>(
    alloc: Global,
    publisher: &Publisher<K, Handle<K, R>>,
    told: &StepPrefix<K>,
    count: usize,
) -> Result<Vec<View<K>>, NodeError>
    ensures count { IfOk result (λ v. vec_len v ≡ count) }
    ensures error { IfErr result (λ e. e ≢ NodeError.BadCount) }
{
    let mut views = Vec::with_capacity(alloc, count)?;
    for number in 0..count {
        let _ = number;
        views.push_reserved(publisher.view(told)?);
    }
    Ok(views)
}

// So many ends, the first that are made.
fn ends_of<K: NodeName, Q: FeedName>(
    alloc: Global,
    queue: &FeedQueue<NodeLink<K>, Q>,
    feed: &mut Feed<NodeLink<K>, Q>,
    count: usize,
) -> Result<Vec<FeedEnd<NodeLink<K>, Q>>, NoMemory>
    requires none { feed.old ≡ record { taken = []; ends = 0; returned = [] } }
    requires few { count ≤ 4 }
    ensures ends { IfOk result (λ v. v.items ≡ fresh_ends count) }
    ensures feed { OnOk result (feed.new ≡ record { taken = []; ends = count; returned = [] }) }
{
    let mut ends = Vec::with_capacity(alloc, count)?;
    for number in 0..count {
        let _ = number;
        ends.push_reserved(feed.new_end(queue));
    }
    Ok(ends)
}
