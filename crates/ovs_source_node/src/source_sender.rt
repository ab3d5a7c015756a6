//! What the thread of a source's desk sends with.

ghost use Rattle.std.specs.Prelude.{◌≡◌, [], IfOk, OnOk};
ghost use Rattle.std.specs.Coded.{Coded-set, coded_list};
ghost use Rattle.ovs_links.specs.contracts.link.Link as link;
ghost use Rattle.ovs_session.specs.declared.ended.Ended.{Ended};

use crate::shared_source::SharedSource;
use ovs_node::NodeLink;
use ovs_node_threads::{RunError, Sender};
use ovs_session::Ended;
use ovs_sync::feed::{FeedEnd, FeedName};
use ovs_views::NodeName;
use std::marker::PhantomData;

/// An end of a node's feed to which nothing was sent, and what the links are taken out of the source's desk with.
#[derive(Drop)]
pub struct SourceSender<K: NodeName, Q: FeedName, T: Drop, L: SharedSource<K, T>> {
    end: FeedEnd<NodeLink<K>, Q>,
    taken: T,
    of: PhantomData<L>,
    ghost unsent: { end.1 ≡ [] } by { Coded-set (coded_list link.the_row.coded) end.1 [] },
    ghost untaken: { L.links taken ≡ [] } by { Coded-set (coded_list link.the_row.coded) (L.links taken) [] },
}

/// What is left of it once nothing more is sent: what was sent is all that was taken out of the source's desk, in order.
#[derive(Drop)]
pub struct SourceSent<K: NodeName, Q: FeedName, T: Drop, L: SharedSource<K, T>> {
    end: FeedEnd<NodeLink<K>, Q>,
    // `Closed` where its thread came to its end, and `NoMemory` where there was no memory for one, so that none was sent.
    ended: Ended,
    of: PhantomData<L>,
    by: PhantomData<T>,
    ghost given: { ∥ L.gives end.1 ∥₁ },
}

impl<K: NodeName, Q: FeedName, T: Drop, L: SharedSource<K, T>> SourceSender<K, Q, T, L> {
    /// An end to which nothing was sent, and a desk that nothing was taken out of.
    pub fn new(end: FeedEnd<NodeLink<K>, Q>, taken: T) -> SourceSender<K, Q, T, L>
        requires unsent { end.1 ≡ [] }
        requires untaken { L.links taken ≡ [] }
        ensures end { result.end ≡ end }
    {
        SourceSender {
            end,
            taken,
            of: PhantomData,
        }
    }

    /// The end, and what the links are taken out with.
    pub(crate) fn into_parts(self) -> (FeedEnd<NodeLink<K>, Q>, T)
        ensures end { result.0 ≡ self.end }
        ensures unsent { result.0.1 ≡ [] }
        ensures untaken { L.links result.1 ≡ [] }
    {
        let SourceSender { end, taken, of: _ } = self;
        (end, taken)
    }

    /// What is left where there is no thread for it.
    pub(crate) fn into_refused(self) -> SourceSent<K, Q, T, L>
        ensures ended { result.ended ≡ Ended.NoMemory }
    {
        let SourceSender {
            end,
            taken: _,
            of: _,
        } = self;
        SourceSent {
            end,
            ended: Ended::NoMemory,
            of: PhantomData,
            by: PhantomData,
        }
    }
}

impl<K: NodeName, Q: FeedName, T: Drop, L: SharedSource<K, T>> SourceSent<K, Q, T, L> {
    /// All was sent that the desk gave.
    pub(crate) fn new(end: FeedEnd<NodeLink<K>, Q>) -> SourceSent<K, Q, T, L>
        requires given { ∥ L.gives end.1 ∥₁ }
        ensures end { result.end ≡ end }
    {
        SourceSent {
            end,
            ended: Ended::Closed,
            of: PhantomData,
            by: PhantomData,
        }
    }
}

impl<K: NodeName, Q: FeedName, T: Drop, L: SharedSource<K, T>> Sender<K, Q>
    for SourceSent<K, Q, T, L> {
    ghost sends = { λ ls. L.gives ls };

    // Where there was no thread nothing was sent, though the desk may have made links.
    fn take_end(self) -> Result<FeedEnd<NodeLink<K>, Q>, RunError>
        ensures sent { IfOk result (λ end. ∥ L.gives end.1 ∥₁) }
        ensures whole { OnOk result (self.ended ≡ Ended.Closed) }
    {
        let SourceSent {
            end,
            ended,
            of: _,
            by: _,
        } = self;
        match ended {
            Ended::Closed => Ok(end),
            _ => Err(RunError::NoMemory),
        }
    }
}
