//! The folder's side of a feed.

ghost use Rattle.std.specs.Prelude.{◌≡◌, ◌+◌, ◌<◌, ◌^◌, ◌∷◌, ◌++◌, ℕ, [], length, IfSome, IfNone, slice_index_or};
ghost use mathlib.Core.List.{IsPrefix};
ghost use Rattle.ovs_sync.specs.Feed.{FeedValue, IsDrained};
ghost use Rattle.ovs_sync.specs.FeedRule.{values_of};

use crate::feed::feed_end::FeedEnd;
use crate::feed::item::Item;
use crate::feed::queue::{FeedName, FeedQueue};
use crate::feed::rule::{Making, Returning, Side, Taking};
use crossbeam_queue::Pass;
use std::marker::{Model, PhantomData};
use std::sync::Wait;

/// What the folder takes with. A contract sees what it took, how many ends were made, and what those that are back sent.
#[derive(Drop)]
pub struct Feed<T: Drop, K: FeedName> {
    pub(crate) pass: Pass<Item<T>, Side<T>>,
    pub(crate) ends: u64,
    pub(crate) returned: u64,
    pub(crate) of: PhantomData<K>,
}

impl<T: Drop, K: FeedName> Model for Feed<T, K> {
    ghost use Rattle.std.specs.Prelude.{◌≡◌, length};
    ghost use Rattle.ovs_sync.specs.Feed.{FeedValue, feed_code, IsFeedOf, feed_of};

    ghost Value = { FeedValue T };

    ghost coded = { feed_code T.code };

    ghost view = { λ f. feed_of f.ends f.pass };

    ghost invariant = { λ f. IsFeedOf K.table (feed_of f.ends f.pass) f.pass × (f.returned ≡ length (feed_of f.ends f.pass).returned) };
}

impl<T: Drop, K: FeedName> Feed<T, K> {
    /// A new end, which has sent nothing. Its number is how many ends were made before it.
    pub fn new_end(&mut self, queue: &FeedQueue<T, K>) -> FeedEnd<T, K>
        requires room { self.old.ends < 2 ^ 32 }
        ensures feed { self.new ≡ record { taken = self.old.taken; ends = self.old.ends + 1; returned = self.old.returned } }
        ensures end { result ≡ (self.old.ends, []) }
    {
        let pass = queue.items.another::<Making>(&mut self.pass);
        let number = self.ends;
        self.ends = number + 1;
        FeedEnd {
            pass,
            number,
            of: PhantomData,
        }
    }

    /// The next item, with the number of its end. Where it gives none, all that the ends that are back sent was taken; of ends
    /// that are out this says nothing. It waits only for an end that is in the middle of a `send`.
    pub fn take<R: Wait>(&mut self, rt: &R, queue: &FeedQueue<T, K>) -> Option<Item<T>>
        ensures some { IfSome result (λ item. self.new ≡ record { taken = self.old.taken ++ item ∷ []; ends = self.old.ends; returned = self.old.returned }) }
        ensures none { IfNone result ((self.new ≡ self.old) × IsDrained self.old) }
    {
        queue.items.pop_as::<Taking, R>(rt, &mut self.pass)
    }

    /// What was taken of each end that is back is a beginning of what it sent, also while the queue holds items. It does
    /// nothing but learn this.
    pub fn compare(&mut self, queue: &FeedQueue<T, K>)
        ensures same { self.new ≡ self.old }
        ensures begins { (k : ℕ) → k < length self.old.returned → IsPrefix (values_of k self.old.taken) (slice_index_or self.old.returned k []) }
    {
        queue.items.learn_as::<Taking>(&mut self.pass);
    }

    /// How many ends were made.
    pub fn ends(&self) -> u64
        ensures value { result ≡ self.now.ends }
    {
        self.ends
    }

    /// How many ends are back.
    pub fn returned(&self) -> u64
        ensures value { result ≡ length self.now.returned }
    {
        self.returned
    }

    /// An end comes back, the next one by its number: contracts speak from then on of what it sent.
    pub fn join(&mut self, queue: &FeedQueue<T, K>, end: FeedEnd<T, K>)
        requires next { end.0 ≡ length self.old.returned }
        requires made { length self.old.returned < self.old.ends }
        ensures feed { self.new ≡ record { taken = self.old.taken; ends = self.old.ends; returned = self.old.returned ++ end.1 ∷ [] } }
    {
        let FeedEnd {
            pass,
            number: _,
            of: _,
        } = end;
        queue.items.absorb::<Returning>(&mut self.pass, pass);
        self.returned += 1;
    }
}
