//! The rule of the queue: what each end sent is what was taken of it, and then what the queue holds of it.

use crate::feed::item::Item;
use crossbeam_queue::protocol::{Join, Lesson, Outcome, Protocol, Split};
use std::collections::LinkedList;

/// What a side of the queue knows: an end what it sent, the folder what it took. It is there in proofs alone, and no value of
/// it is made when the program runs.
pub struct Side<T> {
    /// Whether it is an end that can send; then its number and what it sent.
    pub sends: bool,
    pub number: u64,
    pub sent: LinkedList<T>,
    /// Whether it is the folder; then what it took, how many ends were made, and what each of those that are back sent in all.
    pub takes: bool,
    pub taken: LinkedList<Item<T>>,
    pub ends: u64,
    pub returned: LinkedList<LinkedList<T>>,
}

/// What is taken of each end comes in the order in which it was sent, and nothing is left out.
pub struct InOrder;

impl<T> Protocol<Item<T>, Side<T>> for InOrder {
    ghost use Rattle.std.specs.Prelude.{[]};
    ghost use Rattle.ovs_sync.specs.FeedRule.{KeepsOrder, folder};

    ghost holds = { KeepsOrder };

    ghost first = { folder [] 0 [] };
}

/// An end sends an item.
pub struct Sending;

impl<T> Outcome<Item<T>, Side<T>> for Sending {
    ghost use Rattle.ovs_sync.specs.FeedRule.{SentMore};

    ghost then = { SentMore };
}

/// The folder takes an item, or finds none.
pub struct Taking;

impl<T> Outcome<Item<T>, Side<T>> for Taking {
    ghost use Rattle.ovs_sync.specs.FeedRule.{TookMore};

    ghost then = { TookMore };
}

impl<T> Lesson<Item<T>, Side<T>> for Taking {
    ghost use Rattle.ovs_sync.specs.FeedRule.{AddsUp};

    ghost fact = { AddsUp };
}

/// The folder makes an end.
pub struct Making;

impl<T> Split<Side<T>> for Making {
    ghost use Rattle.std.specs.Prelude.{◌+◌, []};
    ghost use Rattle.ovs_sync.specs.FeedRule.{folder, end};

    ghost left = { λ v. folder v.taken (v.ends + 1) v.returned };

    ghost right = { λ v. end v.ends [] };
}

/// An end comes back to the folder, which knows what it sent from then on.
pub struct Returning;

impl<T> Join<Side<T>> for Returning {
    ghost use Rattle.std.specs.Prelude.{◌++◌, ◌∷◌, []};
    ghost use Rattle.ovs_sync.specs.FeedRule.{folder, nobody};

    ghost both = { λ v w. folder v.taken v.ends (v.returned ++ w.sent ∷ []) };

    ghost spent = { nobody };
}
