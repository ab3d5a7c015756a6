//! What a relay's source says to its desk.

use crate::standing::StandingAnswer;
use ovs_json::Text;

/// What the source says of what went up, and of the relay's locks.
#[derive(Drop)]
pub enum SourceMessage {
    /// The answer to the request that went up under this number.
    ReplyFor {
        /// The number, by which the request was asked for.
        number: u64,
        /// Its answer, and where that stands.
        answer: StandingAnswer,
    },
    /// The lock of this name is held from now on (RFC 7047 section 4.1.9).
    Locked(Text),
    /// The lock of this name was taken away (RFC 7047 section 4.1.10).
    Stolen(Text),
}
