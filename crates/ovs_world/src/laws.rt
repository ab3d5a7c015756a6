//! Laws on what a node tells a relay that follows it.
ghost use Rattle.std.specs.Prelude.{◌≡◌, ◌≤◌, ◌∷◌, [], ℕ, List, false, Ok, Some, length, take};
ghost use Rattle.ovs_types.specs.declared.schema.Table.{Table};
ghost use Rattle.ovs_rows.specs.Row.{no_rows};
ghost use Rattle.ovs_links.specs.Chains.{start_of};
ghost use Rattle.ovs_links.specs.Epochs.{Epoch, links_within};
ghost use Rattle.ovs_links.specs.History.{IsHistory};
ghost use Rattle.ovs_links.specs.Link.{IsStart};
ghost use Rattle.ovs_links.specs.Steps.{steps_of};
ghost use Rattle.ovs_reader.specs.Telling.{told, AreToldReadably};
ghost use Rattle.ovs_reader.specs.declared.subscription.Subscription.{Subscription};
ghost use Rattle.ovs_types.specs.Schema.{SchemaValue};
ghost use Rattle.ovs_types.specs.SchemaReading.{read_description};
ghost use Rattle.ovs_links.specs.Steps.{FoldedValue, folded_of};
ghost use Rattle.ovs_links.specs.declared.link.Link.{Link};
ghost use Rattle.ovs_reader.specs.Session.{SessionValue};
ghost use Rattle.ovs_reader.specs.Turns.{turn, after_turn};
ghost use Rattle.ovs_upstream.specs.Hearing.{heard, hears, opening};
ghost use Rattle.ovs_upstream.specs.Requests.{CanBeAsked, schema_request, monitor_request};
ghost use Rattle.ovs_upstream.specs.Talk.{talk_of};
ghost use Rattle.ovs_upstream.specs.declared.up_event.UpEvent.TheVariants.{Send};
ghost use Rattle.ovs_upstream.specs.declared.up_session.SyncState.TheVariants.{Asking};
ghost use Rattle.ovs_wire.specs.declared.message.Message.{Message};
ghost use Rattle.ovs_world.specs.Asking.{schema_reply};
ghost use Rattle.ovs_world.specs.Awaiting.{IsRelayMonitor, TellsPlace, TellLinks};

/// A session of a relay opens: the node that it follows replies with its schema, which a relay with the same schema hears
/// as its own, and then asks for the monitor of all columns; that monitor is made, and the reply says where the id that
/// was asked for stands in the node's chain, or that all links will be told.
///
/// Where a node has folded the first links of an epoch, what it tells a relay's monitor are these links, one by one, from
/// the monitor's position on.
pub fn relay_laws()
    ensures schema { (f : FoldedValue) (s : SessionValue) → s.is_ended ≡ false
        → ((turn s f (schema_request f.database.schema)).out ≡ Some (schema_reply f.database.schema))
        × ((after_turn s f (schema_request f.database.schema)).monitors ≡ s.monitors) }
    ensures asks { (schema : SchemaValue) (asked : ℕ) → read_description schema.json ≡ Ok schema.description
        → hears (opening schema asked) (schema_reply schema) ≡ heard Asking (Send (monitor_request schema asked)) }
    ensures monitor { (schema : SchemaValue) (chain : List Link) (s : SessionValue) (asked : ℕ) → IsStart (start_of chain) → CanBeAsked schema asked
        → s.is_ended ≡ false → s.monitors ≡ []
        → (m : Subscription) × (reply : Message) × IsRelayMonitor schema.description.tables m × (m.position ≤ length chain)
        × ((turn s (folded_of schema chain) (monitor_request schema asked)).out ≡ Some reply)
        × ((after_turn s (folded_of schema chain) (monitor_request schema asked)).monitors ≡ m ∷ [])
        × TellsPlace schema.description.tables chain asked m.position (talk_of reply) }
    ensures told { (tables : List Table) (e : Epoch) (n : ℕ) (m : Subscription) → IsHistory tables no_rows e.commits → n ≤ length e.commits
        → IsRelayMonitor tables m → m.position ≤ n → AreToldReadably (m ∷ []) (steps_of tables no_rows (take n (links_within tables e)))
        → TellLinks tables (links_within tables e) m.position n (told (m ∷ []) (steps_of tables no_rows (take n (links_within tables e)))) }
{}
