//! That a relay's desk with its history may go to other threads. It follows from its parts, since the search that finds this of
//! small types gives up at large ones.

ghost use denote.Param.Send.{IsSend};
ghost use Rattle.ovs_desk.specs.contracts.relay_desk.RelayDesk as relay_desk;

use ovs_desk::{Forwards, RelayDesk};
use ovs_lock_desk::lock_desk_sends;

// What is known of the type is a fact from here on.
fn sends<T: Send>()
    ensures { IsSend T.row }
{}

/// A relay's desk may go to other threads, and with it one with its history (`recorded_desk_sends` of the proofs): who shares one
/// behind a lock calls this, and has it as a fact.
pub fn relay_desk_sends()
    ensures { IsSend relay_desk.the_row }
{
    sends::<Forwards>();
    lock_desk_sends();
    sends::<RelayDesk>();
}
