//! A message is said.
ghost use Rattle.std.specs.Prelude.{◌≡◌, ◌++◌, ℕ, List, IfErr, OnOk};
ghost use Rattle.ovs_service.specs.Texts.{IsTextOf};

use ovs_session::Outbox;
use ovs_wire::Message;
use std::alloc::Global;

/// Says a message whole, or gives it back where memory runs out; then nothing is said.
pub(crate) fn say_or_keep(alloc: Global, message: Message, out: &mut Outbox) -> Result<(), Message>
    ensures said { OnOk result ((t : List ℕ) × IsTextOf message t × (out.new ≡ out.old ++ t)) }
    ensures kept { IfErr result (λ kept. (kept ≡ message) × (out.new ≡ out.old)) }
{
    let (message, text) = message.write_owned(alloc);
    match text {
        Ok(text) if out.push(&text).is_ok() => Ok(()),
        _ => Err(message),
    }
}
