//! Steps of a source's desk.

use ovs_authority::Ask;
use ovs_json::SessionId;
use ovs_links::Link;
use ovs_wire::Message;

/// A call of a source's desk that wasn't refused memory, with what it gave. No value of it is made: it is what stands in the history
/// of a desk.
#[derive(Drop)]
pub enum SourceStep {
    /// A session asked, and the desk replied. The reply to a transaction waits until it is given; any other is given at once.
    Asked {
        /// The session.
        session: SessionId,
        /// What it asked.
        ask: Ask,
        /// The reply.
        reply: Message,
        /// The link that came of it, if one did.
        link: Option<Link>,
    },
    /// A session was given the reply that waited first for it.
    Given {
        /// The session.
        session: SessionId,
        /// The reply.
        reply: Message,
    },
    /// A session for which no reply waited was given a notice of a lock, if one was owed.
    Collected {
        /// The session.
        session: SessionId,
        /// The notice.
        notice: Option<Message>,
    },
    /// A session ended.
    Ended {
        /// The session.
        session: SessionId,
    },
    /// The first link was taken out.
    TookLink {
        /// The link, if there was one.
        link: Option<Link>,
    },
    /// An epoch that was due began.
    BeganEpoch {
        /// The link that begins it.
        link: Link,
    },
}
