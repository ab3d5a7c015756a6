//! The sessions that have work left to do.

ghost use Rattle.std.specs.Prelude.{◌≡◌, ◌≢◌, ◌++◌, [], ℕ, true, IfNone, length, option_to_list};
ghost use Rattle.ovs_worker.specs.Calling.{IsLater, IsWaiting, is_among, waits_of};

use crate::poller::Timeout;
use ovs_sync::history::GhostList;
use std::alloc::{AllocError, Global};
use std::collections::VecDeque;

/// What a session waits for after its turns.
#[derive(Clone, Copy, Debug, PartialEq, Eq)]
pub(crate) enum Waits {
    /// For no turn.
    No,
    /// For its next turn.
    ForTurn,
    /// For memory, and then its next turn.
    ForMemory,
}

// The session of this number waits for this now.
fn note(waits: &mut Vec<Waits>, for_turn: &mut usize, key: usize, now: Waits)
    ensures this { IsWaiting (waits_of waits.new.items key) → IsWaiting now }
    ensures others { (other : ℕ) → other ≢ key → waits_of waits.new.items other ≡ waits_of waits.old.items other }
{
    let Some(was) = waits.get(key).copied() else {
        return;
    };
    if was == Waits::ForTurn {
        *for_turn = for_turn.saturating_sub(1);
    }
    if now == Waits::ForTurn {
        *for_turn = for_turn.saturating_add(1);
    }
    waits[key] = now;
}

/// The numbers of sessions that are to have turns again, in the order in which they are. A contract sees the numbers that were ever put
/// behind the others, and those that were taken out for their turns: the first of them, in their order.
#[derive(Drop)]
pub(crate) struct RunQueue {
    keys: VecDeque<usize>,
    // For each number what it waits for.
    waits: Vec<Waits>,
    // How many wait for their next turn, and not for memory.
    for_turn: usize,
    came: GhostList<usize>,
    went: GhostList<usize>,
    ghost in_order: { came ≡ went ++ keys.items },
    ghost waiting: { (key : ℕ) → IsWaiting (waits_of waits.items key) → is_among keys.items key ≡ true },
}

impl RunQueue {
    /// No session.
    pub(crate) fn new(alloc: Global) -> RunQueue
        ensures none { (result.came ≡ []) × (result.went ≡ []) }
    {
        RunQueue {
            keys: VecDeque::new(alloc),
            waits: Vec::new(alloc),
            for_turn: 0,
            came: GhostList::new(),
            went: GhostList::new(),
        }
    }

    /// Room for the session of this number.
    pub(crate) fn make_room(&mut self, key: usize) -> Result<(), AllocError>
        ensures same { (self.new.came ≡ self.old.came) × (self.new.went ≡ self.old.went) }
    {
        let numbers = key.saturating_add(1);
        if self.waits.len() < numbers {
            self.waits.resize(numbers, Waits::No)?;
        }
        self.keys
            .reserve(self.waits.len().saturating_sub(self.keys.len()))
    }

    /// How many wait.
    pub(crate) fn len(&self) -> usize
        ensures value { result ≡ length self.now.keys.items }
    {
        self.keys.len()
    }

    /// How long the worker may wait for something else before they have turns.
    pub(crate) fn timeout(&self) -> Timeout {
        if self.keys.is_empty() {
            Timeout::Infinite
        } else if self.for_turn == 0 {
            Timeout::Short
        } else {
            Timeout::Zero
        }
    }

    /// The session of this number waits for this, behind those that wait, if it doesn't wait itself. False where there is no
    /// memory, which doesn't come where there is room for it.
    pub(crate) fn push(&mut self, key: usize, waits: Waits) -> bool
        ensures waits { result ≡ true → is_among self.new.keys.items key ≡ true }
        ensures later { IsLater self.old.came self.old.went self.new.came self.new.went }
    {
        let is_new = !matches!(self.waits.get(key), Some(Waits::ForTurn | Waits::ForMemory));
        if is_new {
            if self.keys.push_back(key).is_err() {
                return false;
            }
            self.came.push(&key);
        }
        note(&mut self.waits, &mut self.for_turn, key, waits);
        true
    }

    /// The session that waits longest, which waits no more.
    pub(crate) fn pop(&mut self) -> Option<usize>
        ensures first { self.old.keys.items ≡ option_to_list result ++ self.new.keys.items }
        ensures went { self.new.went ≡ self.old.went ++ option_to_list result }
        ensures came { self.new.came ≡ self.old.came }
        ensures none { IfNone result (self.old.keys.items ≡ []) }
    {
        let key = self.keys.pop_front()?;
        note(&mut self.waits, &mut self.for_turn, key, Waits::No);
        self.went.push(&key);
        Some(key)
    }
}
