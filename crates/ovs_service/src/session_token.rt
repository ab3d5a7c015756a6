//! A session as its desk knows it.
ghost use Rattle.std.specs.Prelude.{◌≡◌, ◌<◌, ◌↔◌, ◌++◌, ◌∷◌, [], false, IsTrue};
ghost use Rattle.std.specs.List.{list_any};
ghost use Rattle.ovs_service.specs.declared.session_token.AuthorityCall.TheVariants as calls;
ghost use Rattle.ovs_service.specs.Asking.{with_calls, most_unanswered, without_reply, asks_for_a_lock};

use ovs_authority::{Ask, Verb};
use ovs_json::SessionId;
use ovs_sync::history::{EntryFrom, GhostList};
use ovs_wire::Message;
use std::marker::Model;
use std::snapshot::Snapshot;

// So many asks of a session at most have no reply yet.
const MOST_UNANSWERED: u64 = 128;

/// A call that was made for a session at its desk, with what it gave. No value of it is made: it is what a token shows.
#[derive(Drop)]
pub enum AuthorityCall {
    /// The session asked, and this was replied at once, or nothing.
    Asked {
        /// What it asked.
        ask: Ask,
        /// What was replied at once.
        reply: Option<Message>,
    },
    /// The next message for the session was collected.
    Collected {
        /// Whether answers were held back until what they stand for was shown to the session.
        is_held_back: bool,
        /// The message, where there was one.
        message: Option<Message>,
    },
}

// A call by which a session asks.
#[derive(Drop)]
struct AskingCall {
    ask: Snapshot<Ask>,
    reply: Snapshot<Option<Message>>,
}

impl EntryFrom<AskingCall, AuthorityCall> for AskingCall {
    ghost use Rattle.ovs_service.specs.declared.session_token.AuthorityCall.TheVariants as calls;

    ghost entry = { λ c. calls.Asked c.ask.value c.reply.value };
}

// A call by which a message is collected.
#[derive(Drop)]
struct CollectingCall {
    is_held_back: bool,
    message: Snapshot<Option<Message>>,
}

impl EntryFrom<CollectingCall, AuthorityCall> for CollectingCall {
    ghost use Rattle.ovs_service.specs.declared.session_token.AuthorityCall.TheVariants as calls;

    ghost entry = { λ c. calls.Collected c.is_held_back c.message.value };
}

/// A session as its desk knows it: by a number. It can't be copied, and is lent to each call of the desk for the session. A
/// contract sees, beside the number, all calls that were made for it, with what they gave; when the program runs it keeps of
/// these what the session may wait for, so that one that asked nothing costs no call of the desk.
#[derive(Drop)]
pub struct SessionToken {
    session_id: SessionId,
    unanswered: u64,
    has_locks: bool,
    calls: GhostList<AuthorityCall>,
}

impl Model for SessionToken {
    ghost use Rattle.std.specs.Prelude.{◌≡◌, ◌≤◌, ℕ, List, refl};
    ghost use Rattle.std.specs.List.{list_any};
    ghost use Rattle.std.specs.Coded.{code_by, coded×, coded_ℕ, coded_list};
    ghost use Rattle.ovs_service.specs.contracts.session_token.AuthorityCall as call_row;
    ghost use Rattle.ovs_service.specs.declared.session_token.AuthorityCall.{AuthorityCall};
    ghost use Rattle.ovs_service.specs.Asking.{SessionTokenValue, most_unanswered, without_reply, asks_for_a_lock};

    ghost Value = { SessionTokenValue };

    ghost coded = { code_by (ℕ × List AuthorityCall) (coded× coded_ℕ (coded_list call_row.the_row.coded))
        (λ a. (a.session_id, a.calls)) (λ p. record { session_id = p.0; calls = p.1 }) (λ _. refl) };

    ghost view = { λ a. record { session_id = a.session_id; calls = a.calls } };

    ghost invariant = { λ a. (a.unanswered ≡ without_reply a.calls) × (a.unanswered ≤ most_unanswered)
        × (a.has_locks ≡ list_any asks_for_a_lock a.calls) };
}

impl SessionToken {
    /// The session of this number, for which nothing was called yet.
    pub(crate) fn new(session_id: SessionId) -> SessionToken
        ensures new { result ≡ record { session_id = session_id; calls = [] } }
    {
        SessionToken {
            session_id,
            unanswered: 0,
            has_locks: false,
            calls: GhostList::new(),
        }
    }

    /// Its number.
    pub fn session_id(&self) -> SessionId
        ensures value { result ≡ self.now.session_id }
    {
        self.session_id
    }

    /// Whether one more may be asked: fewer than 128 of its asks have no reply yet.
    pub fn has_room(&self) -> bool
        ensures value { IsTrue result ↔ (without_reply self.now.calls < most_unanswered) }
    {
        self.unanswered < MOST_UNANSWERED
    }

    /// Whether all that was asked has its reply.
    pub fn is_answered(&self) -> bool
        ensures value { IsTrue result ↔ (without_reply self.now.calls ≡ 0) }
    {
        self.unanswered == 0
    }

    /// Whether something may be owed: an ask has no reply yet, or one was for a lock.
    pub fn may_be_owed(&self) -> bool
        ensures none { result ≡ false → (without_reply self.now.calls ≡ 0) × (list_any asks_for_a_lock self.now.calls ≡ false) }
    {
        self.unanswered > 0 || self.has_locks
    }

    /// Whether a lock was asked for, so that it may stand in a lock's list.
    pub fn has_locks(&self) -> bool
        ensures value { result ≡ list_any asks_for_a_lock self.now.calls }
    {
        self.has_locks
    }

    /// This was asked for it, and replied so at once, or not. Whoever implements a `ServiceAuthority` notes so each ask.
    pub fn note_asked(&mut self, ask: &Ask, reply: &Option<Message>)
        requires room { without_reply self.old.calls < most_unanswered }
        ensures noted { self.new ≡ with_calls self.old (calls.Asked ask.now reply.now ∷ []) }
    {
        if reply.is_none() {
            self.unanswered += 1;
        }
        if matches!(ask.verb, Verb::Lock(_) | Verb::Steal(_)) {
            self.has_locks = true;
        }
        let call = AskingCall {
            ask: Snapshot::of(ask),
            reply: Snapshot::of(reply),
        };
        self.calls.push_as::<AskingCall, AskingCall>(&call);
    }

    /// This was collected for it, or nothing. Whoever implements a `ServiceAuthority` notes so each call of `collect`.
    pub fn note_collected(&mut self, is_held_back: bool, message: &Option<Message>)
        ensures noted { self.new ≡ with_calls self.old (calls.Collected is_held_back message.now ∷ []) }
    {
        if let Some(Message::Reply { .. }) = message {
            self.unanswered = self.unanswered.saturating_sub(1);
        }
        let call = CollectingCall {
            is_held_back,
            message: Snapshot::of(message),
        };
        self.calls.push_as::<CollectingCall, CollectingCall>(&call);
    }
}
