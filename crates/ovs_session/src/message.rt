//! The message that a text says.

ghost use Rattle.std.specs.Prelude.{◌≡◌, Err, IfOk};
ghost use Rattle.ovs_wire.specs.Message.{Says};
ghost use Rattle.ovs_session.specs.Messages.{SaysNothing};

use crate::ended::ServiceError;
use ovs_wire::{Message, MessageError};
use std::alloc::Global;

/// The message that a text says (RFC 7047 section 4).
///
/// # Errors
/// - `BadInput`: it says none.
/// - `NoMemory`.
pub fn read_message(alloc: Global, text: &[u8]) -> Result<Message, ServiceError>
    ensures says { IfOk result (λ message. Says text.now message) }
    ensures bad { result ≡ Err ServiceError.BadInput → SaysNothing text.now }
    ensures never_gone { result ≡ Err ServiceError.Gone → ⊥ }
    ensures never_epoch { result ≡ Err ServiceError.Epoch → ⊥ }
{
    match Message::read(alloc, text) {
        Ok(message) => Ok(message),
        Err(MessageError::NoMemory) => Err(ServiceError::NoMemory),
        Err(_) => Err(ServiceError::BadInput),
    }
}
