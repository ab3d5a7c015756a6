//! An end of a feed.

ghost use Rattle.std.specs.Prelude.{◌≡◌, ◌∷◌, ◌++◌, []};
ghost use Rattle.ovs_sync.specs.Feed.{IsEndOf, sent_by};

use crate::feed::item::Item;
use crate::feed::queue::{FeedName, FeedQueue};
use crate::feed::rule::{Sending, Side};
use crossbeam_queue::Pass;
use std::marker::{Model, PhantomData};
use std::sync::Wait;
use std::thread;

/// What one upstream thread sends with. A contract sees its number and what it sent, in order; when the program runs, an end
/// keeps nothing of it.
#[derive(Drop)]
pub struct FeedEnd<T: Drop, K: FeedName> {
    pub(crate) pass: Pass<Item<T>, Side<T>>,
    pub(crate) number: u64,
    pub(crate) of: PhantomData<K>,
}

impl<T: Drop, K: FeedName> Model for FeedEnd<T, K> {
    ghost use Rattle.std.specs.Prelude.{ℕ, List, refl};
    ghost use Rattle.ovs_sync.specs.Feed.{IsEndOf, sent_by};

    ghost Value = { ℕ × List T };

    ghost view = { λ e. (e.number, sent_by e.pass) };

    ghost invariant = { λ e. IsEndOf K.table e.number (sent_by e.pass) e.pass };
}

impl<T: Drop, K: FeedName> FeedEnd<T, K> {
    /// Which end it is.
    pub fn number(&self) -> u64
        ensures value { result ≡ self.now.0 }
    {
        self.number
    }

    /// Sends a value. It waits while the queue is full, and takes no memory.
    pub fn send<R: Wait>(&mut self, rt: &R, queue: &FeedQueue<T, K>, value: T)
        ensures sent { self.new ≡ (self.old.0, self.old.1 ++ value ∷ []) }
    {
        push(rt, queue, &mut self.pass, self.number, value);
        queue.wake();
    }
}

// Puts a value of the end with this number into the queue, as soon as there is room.
fn push<T: Drop, K: FeedName, R: Wait>(
    rt: &R,
    queue: &FeedQueue<T, K>,
    pass: &mut Pass<Item<T>, Side<T>>,
    number: u64,
    value: T,
)
    requires pass { IsEndOf K.table number (sent_by pass.old) pass.old }
    ensures sent { IsEndOf K.table number (sent_by pass.old ++ value ∷ []) pass.new }
{
    let mut item = Item {
        from: number,
        value,
    };
    for _ in rt.forever() {
        match queue.items.try_push_as::<Sending>(pass, item) {
            Ok(()) => return,
            Err(back) => item = back,
        }
        thread::yield_now();
    }
}
