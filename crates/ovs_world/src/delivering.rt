//! Deliveries: what a node tells reaches the relay that follows it, byte by byte.

ghost use Rattle.std.specs.Prelude.{◌≡◌, [], true, false, List, Ok, IfOk, IfErr, OnOk};
ghost use Rattle.ovs_links.specs.declared.link.Link.{Link};
ghost use Rattle.ovs_world.specs.Deliveries.{scene, Hear, Does, Leads, Delivers, IsQuiet, IsScene, StopsHearing, StopsHearingAll, BreaksOff};
ghost use Rattle.ovs_world.specs.Nodes.{IsTier, Grow, no_counts};

use crate::error::WorldError;
use crate::holding::{Taken, hold, node};
use crate::sim_session::SimSession;
use ovs_links::LinkStore;
use std::alloc::Global;

// The relay hears the first message that is whole at its end. False where none is.
fn hear_next(
    alloc: Global,
    source: &LinkStore,
    relays: &mut [LinkStore],
    session: &mut SimSession,
    counts: &mut Taken,
) -> Result<bool, WorldError>
    requires scene { IsScene source.now relays.old session.old }
    ensures tier { IsTier source.now relays.new }
    ensures grow { Grow relays.old relays.new }
    ensures scene { OnOk result (IsScene source.now relays.new session.new) }
    ensures heard { result ≡ Ok true → (links : List Link) × Does source.now (Hear links) (scene relays.old session.old counts.old) (scene relays.new session.new counts.new) }
    ensures ending { OnOk result (session.new.downward.framing.ending ≡ session.old.downward.framing.ending) }
    ensures refused { IfErr result (λ e. StopsHearing source.now session.old relays.old e relays.new) }
    ensures none { result ≡ Ok false → (session.old.downward.framing.waiting ≡ []) × (scene relays.new session.new counts.new ≡ scene relays.old session.old counts.old) }
{
    let followed = node(source, relays, session.upstream);
    let Some(links) = session.hear_next(alloc, followed)? else {
        return Ok(false);
    };
    let told = hold(alloc, &mut relays[session.relay - 1], links)?;
    *counts = counts.plus(told);
    Ok(true)
}

// The relay hears all messages that are whole at its end.
fn hear_all(
    alloc: Global,
    source: &LinkStore,
    relays: &mut [LinkStore],
    session: &mut SimSession,
    counts: &mut Taken,
) -> Result<(), WorldError>
    requires scene { IsScene source.now relays.old session.old }
    ensures tier { IsTier source.now relays.new }
    ensures grow { Grow relays.old relays.new }
    ensures scene { OnOk result (IsScene source.now relays.new session.new) }
    ensures leads { OnOk result (Leads source.now 0 (scene relays.old session.old counts.old) (scene relays.new session.new counts.new)) }
    ensures heard { OnOk result (session.new.downward.framing.waiting ≡ []) }
    ensures ending { OnOk result (session.new.downward.framing.ending ≡ session.old.downward.framing.ending) }
    ensures refused { IfErr result (λ e. StopsHearingAll source.now (scene relays.old session.old counts.old) e relays.new) }
{
    loop {
        if !hear_next(alloc, source, relays, session, counts)? {
            return Ok(());
        }
    }
}

/// Delivers up to `n` bytes of what is on its way to the relay. Whenever nothing is in flight, the node tells what it hasn't
/// told yet. How many links the relay was told that were new to it, and how many that weren't.
///
/// # Errors
/// `TooLarge` at the byte that makes a message larger than the limits, after those before it were heard, or where what the
/// relay has to ask is larger; `NoMemory`. The session can't go on then.
pub(crate) fn deliver(
    alloc: Global,
    source: &LinkStore,
    relays: &mut [LinkStore],
    session: &mut SimSession,
    n: usize,
) -> Result<Taken, WorldError>
    requires scene { IsScene source.now relays.old session.old }
    requires quiet { IsQuiet session.old }
    ensures tier { IsTier source.now relays.new }
    ensures grow { Grow relays.old relays.new }
    ensures scene { OnOk result (IsScene source.now relays.new session.new) }
    ensures delivers { IfOk result (λ counts. Delivers source.now n (scene relays.old session.old no_counts) (scene relays.new session.new counts)) }
    ensures refused { IfErr result (λ e. BreaksOff source.now n (scene relays.old session.old no_counts) e relays.new) }
{
    let mut counts = Taken::none();
    let mut left = n;
    'turns: while left > 0 {
        session.pump(alloc, node(source, relays, session.upstream))?;
        if session.in_flight() == 0 {
            return Ok(counts);
        }
        let fed = session.feed(left);
        hear_all(alloc, source, relays, session, &mut counts)?;
        left -= fed?;
    }
    Ok(counts)
}
