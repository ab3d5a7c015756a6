//! What the authority owes a session is collected.
ghost use Rattle.std.specs.Prelude.{◌≡◌, Ok, true, false};
ghost use Rattle.ovs_service.specs.Asking.{HasNothingMore};
ghost use Rattle.ovs_service.specs.Deeds.{Collects};

use crate::adding::{add, make_room};
use crate::pending::Pending;
use crate::service_authority::ServiceAuthority;
use crate::session_token::SessionToken;
use ovs_views::{NodeName, View, ViewError, ViewSession};
use std::alloc::Global;
use std::collections::VecDeque;

/// So many messages at most are collected in a call.
const MOST_COLLECTED: u32 = 64;

// Collects a message, behind what is due. `false` where nothing may be owed, or nothing is. After an error nothing was given.
fn collect_one<K: NodeName, D: ServiceAuthority<K>>(
    alloc: Global,
    is_held_back: bool,
    view: &mut View<K>,
    session: &ViewSession<K>,
    pending: &mut VecDeque<Pending>,
    token: &mut SessionToken,
    desk: &mut D,
) -> Result<bool, ViewError>
    ensures collected { Collects (λ session_id. D.owes is_held_back session_id session.now.last) is_held_back pending.old.items token.old pending.new.items token.new }
    ensures nothing { result ≡ Ok false → HasNothingMore token.new.calls }
    ensures view { view.new ≡ view.old }
    ensures none_ended { D.ended desk.new ≡ D.ended desk.old }
{
    if !token.may_be_owed() {
        return Ok(false);
    }
    make_room(pending, 1)?;
    match desk.collect(alloc, token, is_held_back, view, session)? {
        Some(message) => {
            add(pending, Some(Pending::Say(message)));
            Ok(true)
        }
        None => Ok(false),
    }
}

/// Collects what the authority owes a session, behind what is due: at most 64 messages, as far as memory and the view allow, and where
/// answers are held back as far as what they stand for was shown to the session. `true` only where nothing more is owed now.
pub(crate) fn collect<K: NodeName, D: ServiceAuthority<K>>(
    alloc: Global,
    is_held_back: bool,
    view: &mut View<K>,
    session: &ViewSession<K>,
    pending: &mut VecDeque<Pending>,
    token: &mut SessionToken,
    desk: &mut D,
) -> bool
    ensures collected { Collects (λ session_id. D.owes is_held_back session_id session.now.last) is_held_back pending.old.items token.old pending.new.items token.new }
    ensures nothing { result ≡ true → HasNothingMore token.new.calls }
    ensures view { view.new ≡ view.old }
    ensures none_ended { D.ended desk.new ≡ D.ended desk.old }
{
    for _collected in 0..MOST_COLLECTED {
        match collect_one(alloc, is_held_back, view, session, pending, token, desk) {
            Ok(true) => {}
            Ok(false) => return true,
            Err(_) => return false,
        }
    }
    false
}
