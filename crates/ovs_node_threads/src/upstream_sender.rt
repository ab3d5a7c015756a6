//! What the thread of an upstream sends with.

ghost use Rattle.std.specs.Prelude.{◌≡◌, []};
ghost use Rattle.ovs_links.specs.Sets.{AllOf};

use crate::connector::Connector;
use crate::run_error::RunError;
use crate::sender::Sender;
use ovs_node::NodeLink;
use ovs_sync::feed::{FeedEnd, FeedName};
use ovs_views::NodeName;
use std::marker::PhantomData;

/// An end of a node's feed, to which nothing was sent but links that may come of a connector's connections.
#[derive(Drop)]
pub struct UpstreamSender<K: NodeName, Q: FeedName, C: Connector> {
    end: FeedEnd<NodeLink<K>, Q>,
    of: PhantomData<C>,
    ghost admitted: { ∥ AllOf (C.admits K.schema) end.1 ∥₁ },
}

impl<K: NodeName, Q: FeedName, C: Connector> UpstreamSender<K, Q, C> {
    /// An end to which nothing was sent.
    pub fn new(end: FeedEnd<NodeLink<K>, Q>) -> UpstreamSender<K, Q, C>
        requires unsent { end.1 ≡ [] }
        ensures end { result.end ≡ end }
    {
        UpstreamSender {
            end,
            of: PhantomData,
        }
    }

    /// An end to which nothing else was sent.
    pub(crate) fn again(end: FeedEnd<NodeLink<K>, Q>) -> UpstreamSender<K, Q, C>
        requires admitted { ∥ AllOf (C.admits K.schema) end.1 ∥₁ }
        ensures end { result.end ≡ end }
    {
        UpstreamSender {
            end,
            of: PhantomData,
        }
    }

    /// The end.
    pub fn into_end(self) -> FeedEnd<NodeLink<K>, Q>
        ensures end { result ≡ self.end }
        ensures admitted { ∥ AllOf (C.admits K.schema) result.1 ∥₁ }
    {
        let UpstreamSender { end, of: _ } = self;
        end
    }
}

impl<K: NodeName, Q: FeedName, C: Connector> Sender<K, Q> for UpstreamSender<K, Q, C> {
    ghost sends = { λ ls. AllOf (C.admits K.schema) ls };

    fn take_end(self) -> Result<FeedEnd<NodeLink<K>, Q>, RunError> {
        Ok(self.into_end())
    }
}
