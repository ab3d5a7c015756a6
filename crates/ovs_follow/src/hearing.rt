//! What the text of a message comes to.

ghost use Rattle.std.specs.Prelude.{◌≡◌, ◌≤◌, ℕ, List, Ok, Err, IfOk, IfSome, length};
ghost use Rattle.ovs_wire.specs.Message.{Says};
ghost use Rattle.ovs_links.specs.Sets.{AllOf, IsOfTables};
ghost use Rattle.ovs_upstream.specs.Hearing.{hears, links_in};
ghost use Rattle.ovs_upstream.specs.declared.error.UpError.{UpError};
ghost use Rattle.ovs_follow.specs.UpstreamState.{IsHeard, IsUnheard};
ghost use Rattle.ovs_follow.specs.Faults.{IsFaultOf, fault_of_heard};

use crate::input_fault::InputFault;
use ovs_session::{ServiceError, read_message};
use ovs_upstream::{Heard, UpError, UpSession};
use ovs_wire::Message;
use std::alloc::Global;

// What a message comes to.
fn hear_message(alloc: Global, up: &UpSession, message: Message) -> Result<Heard, ServiceError>
    ensures heard { IfOk result (λ h. hears up.now message ≡ Ok h) }
    ensures tables { IfOk result (λ h. AllOf (IsOfTables up.now.schema.description.tables) (links_in h.event) × (length (links_in h.event) ≤ 1)) }
    ensures bad { result ≡ Err ServiceError.BadInput → (e : UpError) × (hears up.now message ≡ Err e) }
    ensures never_gone { result ≡ Err ServiceError.Gone → ⊥ }
    ensures never_epoch { result ≡ Err ServiceError.Epoch → ⊥ }
{
    match up.hear(alloc, message) {
        Ok(heard) => Ok(heard),
        Err(UpError::NoMemory) => Err(ServiceError::NoMemory),
        Err(_) => Err(ServiceError::BadInput),
    }
}

/// What the text of a message comes to, and how far the session is after it. Nothing is changed.
///
/// - `BadInput`: the text says no message, or the session refuses it.
/// - `NoMemory`.
pub(crate) fn hear(alloc: Global, up: &UpSession, text: &[u8]) -> Result<Heard, ServiceError>
    ensures heard { IfOk result (λ h. IsHeard up.now text.now h) }
    ensures tables { IfOk result (λ h. AllOf (IsOfTables up.now.schema.description.tables) (links_in h.event) × (length (links_in h.event) ≤ 1)) }
    ensures bad { result ≡ Err ServiceError.BadInput → IsUnheard up.now text.now }
    ensures never_gone { result ≡ Err ServiceError.Gone → ⊥ }
    ensures never_epoch { result ≡ Err ServiceError.Epoch → ⊥ }
{
    match read_message(alloc, text) {
        Ok(message) => hear_message(alloc, up, message),
        Err(refusal) => Err(refusal),
    }
}

// What is wrong with a message that came to this, where it was refused.
fn fault_of_heard(heard: &Result<Heard, UpError>) -> Option<InputFault>
    ensures value { result ≡ fault_of_heard heard.now }
{
    match heard {
        Ok(_) => Some(InputFault::Reply),
        Err(UpError::NoMemory) => None,
        Err(error) => Some(InputFault::Message(*error)),
    }
}

// What is wrong with a message that the session, or else the handler, refused. `None` where memory ran out.
fn fault_of_message(alloc: Global, up: &UpSession, message: Message) -> Option<InputFault>
    ensures fault { (text : List ℕ) → Says text message → IfSome result (IsFaultOf up.now text) }
{
    let heard = up.hear(alloc, message);
    fault_of_heard(&heard)
}

/// What is wrong with a text that was refused. `None` where memory ran out.
pub(crate) fn fault_of_text(alloc: Global, up: &UpSession, text: &[u8]) -> Option<InputFault>
    ensures fault { IfSome result (IsFaultOf up.now text.now) }
{
    match read_message(alloc, text) {
        Ok(message) => fault_of_message(alloc, up, message),
        Err(ServiceError::BadInput) => Some(InputFault::NoMessage),
        Err(_) => None,
    }
}
