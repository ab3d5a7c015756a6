//! Laws of connections with an upstream that has a history, and of nodes that have run. Each is the contract of a function with nothing
//! to do.

ghost use Rattle.std.specs.Prelude.{◌≡◌, ◌↔◌, ℕ, List, Some};
ghost use Rattle.ovs_node.specs.Ledger.{WasSent};
ghost use Rattle.ovs_links.specs.Epochs.{EpochHistory, IsEpochHistory, epochs_of};
ghost use Rattle.ovs_links.specs.Sets.{Holds};
ghost use Rattle.ovs_links.specs.Store.{Stored, rows_of, tables_of};
ghost use Rattle.ovs_links.specs.declared.answer.Settled.{Settled};
ghost use Rattle.ovs_links.specs.declared.link.Link.{Link};
ghost use Rattle.ovs_types.specs.declared.schema.Schema.{Schema};
ghost use Rattle.ovs_upstream.specs.Lawful.{IsLawfulOf, IsStreamOf};
ghost use Rattle.ovs_wire.specs.declared.message.Message.{Message};
ghost use Rattle.ovs_node_threads.specs.Lines.{AdmitsBytes, AmongHistory};
ghost use Rattle.ovs_node_threads.specs.Reporting.{IsReportOf};

/// A connection whose bytes are what an upstream with a history may say, in whatever spelling, and wherever they are broken off, admits
/// links of that history alone, however many bytes a message of the session with it may have.
pub fn lawful_streams_are_admitted()
    ensures admitted { (schema : Schema) (h : EpochHistory) (most asked : ℕ) (said : List Message) (stream : List ℕ)
        → IsEpochHistory schema.description.tables h
        → IsLawfulOf schema.description (epochs_of h) asked said
        → IsStreamOf most said stream
        → AdmitsBytes (AmongHistory schema h) asked (Some stream) }
{}

/// Two nodes that have run, and hold the same links, have folded the same chain, and have the same rows, versions included. They hold
/// the same where the same links were sent to both, from whatever ends, in whatever order and how often, and neither refused or dropped
/// any.
pub fn nodes_with_the_same_links_agree()
    ensures same { (sent others : List (List Link)) (s t : Stored) (settled also : Settled) (forks short dropped forks_2 short_2 dropped_2 : ℕ)
        → IsReportOf sent s settled forks short dropped → IsReportOf others t also forks_2 short_2 dropped_2
        → tables_of s ≡ tables_of t → ((l : Link) → Holds s.links l ↔ Holds t.links l)
        → (s.folded ≡ t.folded) × (rows_of s ≡ rows_of t) }
    ensures held { (sent others : List (List Link)) (s t : Stored) (settled also : Settled)
        → IsReportOf sent s settled 0 0 0 → IsReportOf others t also 0 0 0 → ((l : Link) → WasSent sent l ↔ WasSent others l)
        → (l : Link) → Holds s.links l ↔ Holds t.links l }
{}
