//! What is due is done, in its order.
ghost use Rattle.std.specs.Prelude.{◌≡◌, ◌∷◌, ◌++◌, List, [], ℕ, false, option_to_list, IfOk, IfErr, OnOk, OnErr};
ghost use Rattle.ovs_service.specs.declared.session_token.AuthorityCall.TheVariants as calls;
ghost use Rattle.ovs_service.specs.Asking.{with_calls};
ghost use Rattle.ovs_service.specs.Deeds.{tasks, Replies, Does, SaysFirst, PutsTo};

use crate::pending::{Pending, Several};
use crate::saying::say_or_keep;
use crate::service_authority::ServiceAuthority;
use crate::session_token::SessionToken;
use ovs_authority::Ask;
use ovs_json::NoMemory;
use ovs_session::Outbox;
use ovs_views::NodeName;
use ovs_wire::Message;
use std::alloc::Global;
use std::collections::VecDeque;

// Asks for a session. After `NoMemory` nothing was asked: so it is also where as many asks wait for their replies as may, which
// `Client::takes` rules out for whoever asks it before.
fn put<K: NodeName, D: ServiceAuthority<K>>(
    alloc: Global,
    ask: &Ask,
    token: &mut SessionToken,
    desk: &mut D,
) -> Result<Option<Message>, NoMemory>
    ensures replied { IfOk result (Replies (D.replies token.old.session_id) ask.now) }
    ensures asked { IfOk result (λ r. token.new ≡ with_calls token.old (calls.Asked ask.now r ∷ [])) }
    ensures unchanged { OnErr result (token.new ≡ token.old) }
    ensures none_ended { D.ended desk.new ≡ D.ended desk.old }
{
    if !token.has_room() {
        return Err(NoMemory);
    }
    desk.ask(alloc, token, ask)
}

// Says a message that is due, or gives it back.
fn done_saying(
    alloc: Global,
    message: Message,
    out: &mut Outbox,
) -> Result<Option<Pending>, Pending>
    ensures done { IfOk result (λ next. SaysFirst (message ∷ []) out.old (tasks (option_to_list next)) out.new) }
    ensures back { IfErr result (λ kept. kept ≡ Pending.Say message) }
    ensures unchanged { OnErr result (out.new ≡ out.old) }
{
    match say_or_keep(alloc, message, out) {
        Ok(()) => Ok(None),
        Err(message) => Err(Pending::Say(message)),
    }
}

// Says the first of several messages that are due, or gives them back.
fn done_telling(
    alloc: Global,
    several: Several,
    out: &mut Outbox,
) -> Result<Option<Pending>, Pending>
    ensures done { IfOk result (λ next. SaysFirst several out.old (tasks (option_to_list next)) out.new) }
    ensures back { IfErr result (λ kept. kept ≡ Pending.Tell several) }
    ensures unchanged { OnErr result (out.new ≡ out.old) }
{
    let mut left = several;
    match left.say_first(alloc, out) {
        Err(NoMemory) => Err(Pending::Tell(left)),
        Ok(()) if left.is_empty() => Ok(None),
        Ok(()) => Ok(Some(Pending::Tell(left))),
    }
}

// Asks, and what is replied is to be said next; or gives the ask back.
fn forward_ask<K: NodeName, D: ServiceAuthority<K>>(
    alloc: Global,
    ask: Ask,
    token: &mut SessionToken,
    desk: &mut D,
) -> Result<Option<Pending>, Pending>
    ensures done { IfOk result (λ next. PutsTo D.replies ask token.old (tasks (option_to_list next)) token.new) }
    ensures back { IfErr result (λ kept. kept ≡ Pending.Put ask) }
    ensures unchanged { OnErr result (token.new ≡ token.old) }
    ensures none_ended { D.ended desk.new ≡ D.ended desk.old }
{
    match put(alloc, &ask, token, desk) {
        Ok(Some(reply)) => Ok(Some(Pending::Say(reply))),
        Ok(None) => Ok(None),
        Err(NoMemory) => Err(Pending::Put(ask)),
    }
}

// Does what is due, and gives what is due in its place then, if anything; gives it back where memory runs out.
fn done<K: NodeName, D: ServiceAuthority<K>>(
    alloc: Global,
    due: Pending,
    token: &mut SessionToken,
    desk: &mut D,
    out: &mut Outbox,
) -> Result<Option<Pending>, Pending>
    ensures done { IfOk result (λ next. Does D.replies (tasks (due ∷ [])) token.old out.old (tasks (option_to_list next)) token.new out.new) }
    ensures back { IfErr result (λ kept. kept ≡ due) }
    ensures unchanged { OnErr result ((out.new ≡ out.old) × (token.new ≡ token.old)) }
    ensures none_ended { D.ended desk.new ≡ D.ended desk.old }
{
    match due {
        Pending::Say(message) => done_saying(alloc, message, out),
        Pending::Tell(several) => done_telling(alloc, several, out),
        Pending::Put(ask) => forward_ask(alloc, ask, token, desk),
    }
}

// Does what is due first. After `NoMemory` it is still due.
fn do_first<K: NodeName, D: ServiceAuthority<K>>(
    alloc: Global,
    pending: &mut VecDeque<Pending>,
    token: &mut SessionToken,
    desk: &mut D,
    out: &mut Outbox,
) -> Result<(), NoMemory>
    ensures done { OnOk result (Does D.replies (tasks pending.old.items) token.old out.old (tasks pending.new.items) token.new out.new) }
    ensures unchanged { OnErr result ((pending.new.items ≡ pending.old.items) × (out.new ≡ out.old) × (token.new ≡ token.old)) }
    ensures none_ended { D.ended desk.new ≡ D.ended desk.old }
{
    let Some(due) = pending.pop_front() else {
        return Ok(());
    };
    match done(alloc, due, token, desk, out) {
        Ok(None) => Ok(()),
        Ok(Some(next)) => {
            pending.push_front_reserved(next);
            Ok(())
        }
        Err(due) => {
            pending.push_front_reserved(due);
            Err(NoMemory)
        }
    }
}

/// Does what is due, in its order, until memory runs out. Whether something was done.
pub(crate) fn flush<K: NodeName, D: ServiceAuthority<K>>(
    alloc: Global,
    pending: &mut VecDeque<Pending>,
    token: &mut SessionToken,
    desk: &mut D,
    out: &mut Outbox,
) -> bool
    ensures settled { Does D.replies (tasks pending.old.items) token.old out.old (tasks pending.new.items) token.new out.new }
    ensures unchanged { result ≡ false → (pending.new.items ≡ pending.old.items) × (out.new ≡ out.old) × (token.new ≡ token.old) }
    ensures none { pending.old.items ≡ [] → result ≡ false }
    ensures none_ended { D.ended desk.new ≡ D.ended desk.old }
{
    let mut is_changed = false;
    for _step in 0..u64::MAX {
        if pending.is_empty() {
            break;
        }
        match do_first(alloc, pending, token, desk, out) {
            Ok(()) => is_changed = true,
            Err(NoMemory) => break,
        }
    }
    is_changed
}
