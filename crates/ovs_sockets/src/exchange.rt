//! How far a relay and its upstream have come over a connection.

ghost use Rattle.std.specs.Prelude.{◌≡◌, ◌⊎◌, ◌↔◌, IsTrue};

use ovs_session::Ended;

/// How far a relay and its upstream have come over a connection: the relay asks for commits once it has heard the upstream's
/// schema, and that this is its own.
#[derive(Clone, Copy, Debug, PartialEq, Eq)]
pub(crate) enum Exchange {
    /// Nothing came.
    Opened,
    /// Something came.
    Heard,
    /// Something was written behind that.
    Asked,
    /// Something came behind that.
    Answered,
}

impl Exchange {
    /// How far they have come once something came.
    pub(crate) fn after_read(self) -> Exchange
        ensures answered { (result ≡ Exchange.Answered) ↔ ((self ≡ Exchange.Asked) ⊎ (self ≡ Exchange.Answered)) }
    {
        match self {
            Exchange::Opened => Exchange::Heard,
            Exchange::Asked => Exchange::Answered,
            _ => self,
        }
    }

    /// How far they have come once something was written.
    pub(crate) fn after_write(self) -> Exchange
        ensures asked { (result ≡ Exchange.Asked) ↔ ((self ≡ Exchange.Heard) ⊎ (self ≡ Exchange.Asked)) }
    {
        match self {
            Exchange::Heard => Exchange::Asked,
            _ => self,
        }
    }

    /// Whether the upstream, with which the session ended so, is one that can be followed: it has answered what was asked for, and
    /// then the connection was lost.
    pub(crate) fn was_followed(self, ended: Ended) -> bool
        ensures value { IsTrue result ↔ ((self ≡ Exchange.Answered) × ((ended ≡ Ended.Closed) ⊎ ((ended ≡ Ended.ReadFault) ⊎ (ended ≡ Ended.WriteFault)))) }
    {
        let is_lost = matches!(ended, Ended::Closed | Ended::ReadFault | Ended::WriteFault);
        is_lost && self == Exchange::Answered
    }
}
