//! Where links go.

ghost use Rattle.std.specs.Prelude.{◌≡◌, ◌++◌, [], ◌∷◌, List};
ghost use Rattle.ovs_links.specs.declared.link.Link.{Link};

use ovs_links::Link;

/// Where the links of an upstream go.
pub trait LinkSink: Drop {
    // Which links it takes.
    ghost takes: { Link → Type 0 };

    // The links that it was sent, in order.
    ghost sent: { Self → List Link };

    /// Sends a link, which was made of a whole copy or wasn't.
    fn send(&mut self, link: Link, is_of_copy: bool)
        requires taken { takes link }
        ensures sent { sent self.new ≡ sent self.old ++ link ∷ [] };
}
