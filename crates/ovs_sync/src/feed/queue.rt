//! The queue of a feed, as it is opened and named.

ghost use Rattle.std.specs.Prelude.{◌≡◌, []};
ghost use Rattle.ovs_sync.specs.Feed.{IsFeedOf};

use crate::feed::feed::Feed;
use crate::feed::item::Item;
use crate::feed::rule::{InOrder, Side};
use crossbeam_queue::{Pass, RuledArrayQueue};
use std::alloc::{AllocError, Global};
use std::marker::{Brand, Model, PhantomData};
use std::sync::Wait;
use std::thread::Parker;

/// How many items the queue of a feed holds at most.
pub const FEED_ROOM: usize = 256;

/// Which feed it is. A call of a function that is generic in the name picks it.
pub trait FeedName {
    ghost use Rattle.atomic_table.specs.Seated.{TableId};

    ghost table: { TableId };
}

impl FeedName for Brand {
    ghost use Rattle.ovs_sync.specs.Feed.{no_table};

    ghost table = { no_table };
}

/// A feed with no ends and no name yet.
#[derive(Drop)]
pub struct OpenFeed<T: Drop> {
    pub(crate) items: RuledArrayQueue<Item<T>, Side<T>, InOrder>,
    pub(crate) pass: Pass<Item<T>, Side<T>>,
    pub ghost room: { items.table.shared.table_id.slots ≡ 256 },
    pub ghost fresh: { IsFeedOf items.table.shared.table_id (record { taken = []; ends = 0; returned = [] }) pass },
}

impl<T: Drop> OpenFeed<T> {
    /// A feed of its own, whose queue is empty. `AllocError` where memory for the queue ran out.
    pub fn new(alloc: Global) -> Result<OpenFeed<T>, AllocError> {
        let (items, pass) = RuledArrayQueue::<Item<T>, Side<T>, InOrder>::ruled(alloc, FEED_ROOM)?;
        Ok(OpenFeed { items, pass })
    }

    /// The queue, which all threads share, and the folder's side of it.
    pub fn named<K: FeedName>(self) -> (FeedQueue<T, K>, Feed<T, K>)
        requires table { self.items.table.shared.table_id ≡ K.table }
        ensures room { result.0.slots ≡ 256 }
        ensures empty { result.1 ≡ record { taken = []; ends = 0; returned = [] } }
    {
        let OpenFeed { items, pass } = self;
        (
            FeedQueue {
                items,
                waker: Parker::new(),
                of: PhantomData,
            },
            Feed {
                pass,
                ends: 0,
                returned: 0,
                of: PhantomData,
            },
        )
    }
}

/// The queue of a feed, of which each side has a `&`.
#[derive(Drop)]
pub struct FeedQueue<T: Drop, K: FeedName> {
    pub(crate) items: RuledArrayQueue<Item<T>, Side<T>, InOrder>,
    waker: Parker,
    of: PhantomData<K>,
}

impl<T: Drop, K: FeedName> Model for FeedQueue<T, K> {
    ghost use Rattle.std.specs.Prelude.{◌≡◌};
    ghost use Rattle.atomic_table.specs.Seated.{TableId};

    ghost Value = { TableId };

    ghost view = { λ q. q.items.table.shared.table_id };

    ghost invariant = { λ q. q.items.table.shared.table_id ≡ K.table };
}

impl<T: Drop, K: FeedName> FeedQueue<T, K> {
    /// Wakes the folder. Each `send` does, and so does a thread whose end sends no more.
    pub fn wake(&self) {
        self.waker.unpark();
    }

    /// Sleeps until it was woken since the last call came back, or, if this is the first, at all. Only the folder is to call
    /// it, where the queue was empty.
    pub fn wait<R: Wait>(&self, rt: &R) {
        self.waker.park(rt);
    }
}
