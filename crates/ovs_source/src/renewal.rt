//! When a source's desk begins a new epoch.

ghost use Rattle.std.specs.Prelude.{◌≡◌, ◌≤◌, ◌↔◌, IsTrue};
ghost use Rattle.ovs_source.specs.Renewing.{renewal_from};

/// After how many links of one epoch the next begins, and how long the chain is then.
#[derive(Clone, Copy, Debug, PartialEq, Eq)]
pub(crate) struct Renewal {
    pub every: u64,
    pub at: u64,
}

impl Renewal {
    /// After so many links beside these.
    pub(crate) fn from(every: u64, links: u64) -> Renewal
        ensures value { result ≡ renewal_from every links }
    {
        Renewal {
            every,
            at: links.saturating_add(every),
        }
    }

    /// Whether a chain of so many links is long enough.
    pub(crate) fn is_due(self, links: u64) -> bool
        ensures value { IsTrue result ↔ (self.at ≤ links) }
    {
        self.at <= links
    }
}
