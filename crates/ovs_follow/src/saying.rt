//! Messages are said.

ghost use Rattle.std.specs.Prelude.{◌≡◌, ◌++◌, ℕ, List, OnOk, OnErr};
ghost use Rattle.ovs_wire.specs.Message.{IsWritten};

use ovs_json::NoMemory;
use ovs_session::Outbox;
use ovs_wire::Message;
use std::alloc::Global;

/// Puts the text of a message behind what is to be written. After `NoMemory` nothing has changed.
pub(crate) fn say(alloc: Global, message: &Message, out: &mut Outbox) -> Result<(), NoMemory>
    ensures ok { OnOk result ((said : List ℕ) × IsWritten message.now said × (out.new ≡ out.old ++ said)) }
    ensures err { OnErr result (out.new ≡ out.old) }
{
    let text = message.write(alloc)?;
    out.push(&text)
}
