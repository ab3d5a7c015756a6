//! That a relay's locks may go to other threads. It follows from their parts, since the search that finds this of small types gives
//! up at large ones.

ghost use denote.Param.Send.{IsSend};
ghost use Rattle.ovs_lock_desk.specs.contracts.lock_desk.LockDesk as lock_desk;

use crate::desk_table::DeskTable;
use crate::due_names::DueNames;
use crate::lock_desk::LockDesk;
use crate::open_requests::OpenRequests;
use crate::upward_table::UpwardTable;

// What is known of the type is a fact from here on.
fn sends<T: Send>()
    ensures { IsSend T.row }
{}

/// A relay's locks may go to other threads: who shares them behind a lock calls this, and has it as a fact.
pub fn lock_desk_sends()
    ensures { IsSend lock_desk.the_row }
{
    sends::<DeskTable>();
    sends::<OpenRequests>();
    sends::<DueNames>();
    sends::<UpwardTable>();
    sends::<LockDesk>();
}
