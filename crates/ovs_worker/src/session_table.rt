//! The open sessions of a worker, by number.
ghost use Rattle.std.specs.Prelude.{◌≡◌, ◌≢◌, ◌≤◌, ◌↔◌, ℕ, Some, None, All, IfSome, OnOk, option_copied};
ghost use Rattle.slab.specs.Slab.{get, slab_len, entries, Updates, HasRoomFor};
ghost use Rattle.ovs_session.specs.Turning.{with_devices};
ghost use Rattle.ovs_worker.specs.Slots.{Became, Turned};
ghost use Rattle.ovs_session.specs.Moving.{Moved};

use crate::host::SessionHost;
use crate::slot::Slot;
use ovs_session::{Ended, TurnProgress};
use slab::Slab;
use std::alloc::{AllocError, Global};
use std::io::{Read, Write};

/// Sessions with their devices, by number. It can't be dropped: only `close` takes it apart, which ends each session.
pub struct SessionTable<V: SessionHost, R: Read, W: Write> {
    slots: Slab<Slot<V, R, W>>,
}

impl<V: SessionHost, R: Read + Drop, W: Write + Drop> SessionTable<V, R, W> {
    /// No session is in it.
    pub fn new(alloc: Global) -> SessionTable<V, R, W>
        ensures empty { (key : ℕ) → get result.slots key ≡ None }
    {
        SessionTable {
            slots: Slab::new(alloc),
        }
    }

    /// How many sessions are in it.
    pub fn len(&self) -> usize
        ensures value { result ≡ slab_len self.now.slots }
    {
        self.slots.len()
    }

    /// The number that the next session to enter will have.
    pub fn next_key(&self) -> usize
        ensures value { result ≡ self.now.slots.vacant_key }
        ensures free { get self.now.slots result ≡ None }
    {
        self.slots.vacant_key()
    }

    /// A number above all that are taken.
    pub fn keys_end(&self) -> usize
        ensures above { (key : ℕ) → result ≤ key → get self.now.slots key ≡ None }
    {
        self.slots.capacity()
    }

    /// The session of this number, with its devices.
    pub fn slot(&self, key: usize) -> Option<&Slot<V, R, W>>
        ensures value { option_copied result ≡ get self.now.slots key }
    {
        self.slots.get(key)
    }

    /// Room for one session more.
    ///
    /// # Errors
    /// Memory ran out.
    pub fn make_room(&mut self) -> Result<(), AllocError>
        ensures room { OnOk result (HasRoomFor self.new.slots 1) }
        ensures same { (key : ℕ) → get self.new.slots key ≡ get self.old.slots key }
        ensures next { self.new.slots.vacant_key ≡ self.old.slots.vacant_key }
    {
        self.slots.reserve(1)
    }

    /// Puts a session in and gives its number.
    pub fn enter(&mut self, slot: Slot<V, R, W>) -> usize
        requires room { HasRoomFor self.old.slots 1 }
        ensures number { result ≡ self.old.slots.vacant_key }
        ensures free { get self.old.slots result ≡ None }
        ensures entered { Updates self.old.slots self.new.slots result (Some slot) }
    {
        self.slots.insert_reserved(slot)
    }

    /// A turn of the session of this number. Every other session is left as it was.
    pub fn turn(&mut self, key: usize, host: &mut V) -> Option<Result<TurnProgress, Ended>>
        ensures others { (other : ℕ) → other ≢ key → get self.new.slots other ≡ get self.old.slots other }
        ensures this { Became (λ a b. (b.began ≡ a.began) × (b.read_from ≡ a.read_from) × (b.write_to ≡ a.write_to) × (b.limits ≡ a.limits)) (get self.old.slots key) (get self.new.slots key) }
        ensures moved { Became (λ a b. Moved V.answers V.tells a.limits.most_unsent (R.remaining a.reader.device) (R.remaining b.reader.device)
            (W.contents a.writer.device) (W.contents b.writer.device) a.session b.session) (get self.old.slots key) (get self.new.slots key) }
        ensures none { (result ≡ None) ↔ (get self.old.slots key ≡ None) }
        ensures turned { IfSome result (λ r. Became (λ a b. Turned V.answers V.tells V.refuses V.may_answer V.is_answered
            (V.is_told host.new) (V.may_tell host.new) (V.is_over host.new) (V.is_gone host.new) a.limits r
            (with_devices a.session a.reader a.writer) (with_devices b.session b.reader b.writer)) (get self.old.slots key) (get self.new.slots key)) }
    {
        match self.slots.get_mut(key) {
            Some(slot) => Some(slot.turn(host)),
            None => None,
        }
    }

    /// Something may have come for the session of this number. No session is another.
    pub fn note_ready(&mut self, key: usize, is_read_closed: bool)
        ensures same { (other : ℕ) → get self.new.slots other ≡ get self.old.slots other }
    {
        if let Some(slot) = self.slots.get_mut(key) {
            slot.note_ready(is_read_closed);
        }
    }

    /// The session of this number, which is ended at its host and whose number is free then.
    pub fn leave(&mut self, key: usize, host: &mut V) -> Option<Slot<V, R, W>>
        ensures value { result ≡ get self.old.slots key }
        ensures silent { IfSome result (λ slot. V.is_silent host.new slot.session.state) }
        ensures stays { (other : V.Session) → V.is_silent host.old other → V.is_silent host.new other }
        ensures gone { get self.new.slots key ≡ None }
        ensures others { (other : ℕ) → other ≢ key → get self.new.slots other ≡ get self.old.slots other }
    {
        let slot = self.slots.try_remove(key)?;
        slot.end(host);
        Some(slot)
    }

    /// Ends all sessions at their host.
    pub fn close(self, host: &mut V)
        ensures silent { All (λ entry. V.is_silent host.new entry.1.session.state) (entries self.slots) }
    {
        let SessionTable { slots } = self;
        for (_, slot) in slots {
            slot.end(host);
        }
    }
}
