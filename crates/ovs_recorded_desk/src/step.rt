//! Steps of a relay's desk.

use ovs_authority::Ask;
use ovs_desk::{BadReply, SourceMessage};
use ovs_json::SessionId;
use ovs_wire::Message;

/// A call of a relay's desk that wasn't refused memory, with what it gave. No value of it is made: it is what stands in the
/// history of a desk.
#[derive(Drop)]
pub enum DeskStep {
    /// A session asked.
    Asked {
        /// The session.
        session: SessionId,
        /// What it asked.
        ask: Ask,
        /// The reply, where it was known at once.
        reply: Option<Message>,
    },
    /// A session was given what was owed to it.
    Collected {
        /// The session.
        session: SessionId,
        /// What it was given, if something was owed.
        message: Option<Message>,
    },
    /// A session ended.
    Ended {
        /// The session.
        session: SessionId,
    },
    /// The source was sent a request.
    WentUp {
        /// The request, if one was due.
        message: Option<Message>,
    },
    /// The source said something.
    Heard {
        /// What it said.
        message: SourceMessage,
        /// Whether that was an answer that can be read.
        result: Result<(), BadReply>,
    },
    /// There is a source.
    FoundSource,
    /// The source was lost.
    LostSource,
}
