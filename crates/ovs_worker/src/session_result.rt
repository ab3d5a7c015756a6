//! Sessions that have ended.

use crate::host::SessionHost;
use crate::slot::Slot;
use ovs_session::Ended;
use ovs_sync::history::EntryFrom;
use std::io::{Read, Write};
use std::snapshot::Snapshot;

/// A session that has ended, as it was then, and how the poller was told that it ended. No value of it is made: it is what stands in the
/// list of those that a worker served.
#[derive(Drop)]
pub struct SessionResult<V: SessionHost, R: Read + Drop, W: Write + Drop> {
    /// The session, with its devices.
    pub slot: Slot<V, R, W>,
    /// How it ended.
    pub ended: Ended,
}

// What the entry is made of.
#[derive(Drop)]
pub(crate) struct SlotEnd<V: SessionHost, R: Read + Drop, W: Write + Drop> {
    pub(crate) slot: Snapshot<Slot<V, R, W>>,
    pub(crate) ended: Ended,
}

impl<V: SessionHost, R: Read + Drop, W: Write + Drop> EntryFrom<
    SlotEnd<V, R, W>,
    SessionResult<V, R, W>,
> for SlotEnd<V, R, W> {
    ghost entry = { λ e. record { slot = e.slot.value; ended = e.ended } };
}
