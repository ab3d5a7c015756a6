//! The replies of a source's desk that wait until they are given.

ghost use Rattle.std.specs.Prelude.{◌≡◌, ◌<◌, ◌++◌, ◌∷◌, [], true, IfOk, OnOk, MatchOption, option_map, slice_get};
ghost use Rattle.std.specs.BTreeMap.{IsOrdered};
ghost use Rattle.std.specs.Ordering.{nat_cmp};
ghost use Rattle.std.specs.VecDeque.{deque_len, deque_capacity};
ghost use Rattle.ovs_recorded_source.specs.Waiting.{Become, HasRoom, TakesFirst, listed, replies_at, message_of, next_standing, standing_of};

use ovs_authority::Response;
use ovs_json::{NoMemory, SessionId};
use ovs_types::TxnId;
use ovs_wire::{Id, Message};
use std::alloc::Global;
use std::collections::{BTreeMap, VecDeque};

/// A reply to a transaction, and the head of the source's chain behind it.
#[derive(Drop)]
pub(crate) struct WaitingReply {
    pub(crate) answer: Response,
    pub(crate) id: Id,
    pub(crate) standing: TxnId,
}

impl WaitingReply {
    /// The reply.
    pub(crate) fn into_message(self) -> Message
        ensures value { result ≡ message_of self }
    {
        self.answer.into_reply(self.id)
    }
}

// Room for one more.
fn reserve_one(replies: &mut VecDeque<WaitingReply>) -> Result<(), NoMemory>
    ensures room { OnOk result (deque_len replies.new < deque_capacity replies.new) }
    ensures items { replies.new.items ≡ replies.old.items }
{
    Ok(replies.reserve(1)?)
}

// None, with room for one.
fn room_for_one(alloc: Global) -> Result<VecDeque<WaitingReply>, NoMemory>
    ensures room { IfOk result (λ d. deque_len d < deque_capacity d) }
    ensures none { IfOk result (λ d. d.items ≡ []) }
{
    let mut replies = VecDeque::new(alloc);
    reserve_one(&mut replies)?;
    Ok(replies)
}

// Whether there are none.
fn is_none_left(replies: &VecDeque<WaitingReply>) -> bool
    ensures none { result ≡ true → replies.now.items ≡ [] }
{
    replies.is_empty()
}

// Where the first one stands.
fn first_standing(replies: &VecDeque<WaitingReply>) -> Option<TxnId>
    ensures value { result ≡ option_map standing_of (slice_get replies.now.items 0) }
{
    Some(replies.front()?.standing)
}

// Takes out the one that was put first.
fn take_first(replies: &mut VecDeque<WaitingReply>) -> Option<WaitingReply>
    ensures value { MatchOption result ((replies.old.items ≡ []) × (replies.new.items ≡ [])) (λ r. replies.old.items ≡ r ∷ replies.new.items) }
{
    replies.pop_front()
}

/// The replies that wait, for each session in the order in which they were made.
#[derive(Drop)]
pub(crate) struct WaitingReplies {
    // Of sessions for which one waits, or is about to be made.
    by_session: BTreeMap<SessionId, VecDeque<WaitingReply>>,
}

impl WaitingReplies {
    /// None waits.
    pub(crate) fn new(alloc: Global) -> WaitingReplies
        ensures none { listed result.by_session.entries ≡ [] }
    {
        WaitingReplies {
            by_session: BTreeMap::new(alloc),
        }
    }

    /// Whether none waits, nor is about to be made.
    pub(crate) fn is_empty(&self) -> bool
        ensures none { result ≡ true → listed self.now.by_session.entries ≡ [] }
        ensures ordered { IsOrdered nat_cmp self.now.by_session }
    {
        self.by_session.len() == 0
    }

    /// Where the first of a session stands.
    pub(crate) fn standing(&self, session: SessionId) -> Option<TxnId>
        ensures value { result ≡ next_standing session (listed self.now.by_session.entries) }
    {
        if self.is_empty() {
            return None;
        }
        first_standing(self.by_session.get(&session)?)
    }

    /// Room for one more of a session.
    pub(crate) fn make_room(&mut self, alloc: Global, session: SessionId) -> Result<(), NoMemory>
        ensures room { OnOk result (HasRoom session self.new.by_session) }
        ensures same { listed self.new.by_session.entries ≡ listed self.old.by_session.entries }
    {
        if let Some(replies) = self.by_session.get_mut(&session) {
            return reserve_one(replies);
        }
        self.by_session.insert(session, room_for_one(alloc)?)?;
        Ok(())
    }

    /// Puts one behind those of the session.
    pub(crate) fn put(&mut self, session: SessionId, reply: WaitingReply)
        requires room { HasRoom session self.old.by_session }
        ensures put { Become (listed self.old.by_session.entries) session (replies_at session (listed self.old.by_session.entries) ++ reply ∷ []) (listed self.new.by_session.entries) }
    {
        if let Some(replies) = self.by_session.get_mut(&session) {
            replies.push_back_reserved(reply);
        }
    }

    /// The room that was made for one of a session isn't wanted any more.
    pub(crate) fn forget_room(&mut self, session: SessionId)
        ensures same { listed self.new.by_session.entries ≡ listed self.old.by_session.entries }
    {
        match self.by_session.get(&session) {
            Some(replies) if is_none_left(replies) => {
                let _none = self.by_session.remove(&session);
            }
            _ => {}
        }
    }

    /// Takes out the first one of a session, if one waits.
    pub(crate) fn take_first(&mut self, session: SessionId) -> Option<WaitingReply>
        ensures taken { TakesFirst session (listed self.old.by_session.entries) result (listed self.new.by_session.entries) }
    {
        let first = take_first(self.by_session.get_mut(&session)?);
        self.forget_room(session);
        first
    }

    /// Lets go of those of a session.
    pub(crate) fn end_session(&mut self, session: SessionId)
        ensures none { Become (listed self.old.by_session.entries) session [] (listed self.new.by_session.entries) }
    {
        if !self.is_empty() {
            let _let_go = self.by_session.remove(&session);
        }
    }
}
