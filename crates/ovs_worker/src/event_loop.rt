//! A worker: one thread that serves many sessions.

ghost use Rattle.std.specs.Prelude.{◌≡◌, ℕ, [], Some, None, IfSome, true, map, option_map};
ghost use Rattle.slab.specs.Slab.{get};
ghost use Rattle.ovs_session.specs.declared.ended.Ended.{Ended};
ghost use Rattle.ovs_session.specs.declared.ended.Ended.TheVariants.{Gone};
ghost use Rattle.std.specs.List.{AllByRecursion};
ghost use Rattle.ovs_worker.specs.Calling.{IsLater};
ghost use Rattle.ovs_worker.specs.Slots.{EndsSo};
ghost use Rattle.ovs_worker.specs.Totals.{totals_of};

use crate::host::AcceptingHost;
use crate::poller::{Poller, Timeout, Wakeup};
use crate::run_queue::{RunQueue, Waits};
use crate::session_result::{SessionResult, SlotEnd};
use crate::session_table::SessionTable;
use crate::slot::Slot;
use crate::totals::SessionTotals;
use ovs_session::{Ended, Limits, TurnProgress};
use ovs_sync::history::GhostList;
use std::alloc::Global;
use std::snapshot::Snapshot;
use std::sync::Wait;

// So many turns a session has at most before the next has some.
const TURNS_AT_ONCE: usize = 4;

// So many sessions at most are asked of the poller before they are served.
const READY_AT_ONCE: usize = 4096;

// The sessions of a worker, and those that have work left to do. The connections that are out are those of the sessions in
// the table.
struct EventLoop<V: AcceptingHost, D: Poller> {
    sessions: SessionTable<V, D::In, D::Out>,
    run_queue: RunQueue,
    totals: SessionTotals,
    limits: Limits,
    // There was no memory for the connection that came last.
    is_short: bool,
    poller: D,
    // The sessions that have ended.
    served: GhostList<SessionResult<V, D::In, D::Out>>,
    ghost agree: { (key : ℕ) → D.out poller key ≡ option_map (λ slot. (slot.read_from.value, slot.write_to.value)) (get sessions.slots key) },
    ghost gave_back: { D.back poller ≡ map (λ s. (s.slot.read_from.value, s.slot.write_to.value)) served },
    ghost adds_up: { totals ≡ totals_of (map (λ s. s.slot.session.counts) served) },
    ghost told: { ∥ AllByRecursion (λ s. EndsSo s.ended s.slot.session.ended) served ∥₁ },
}

impl<V: AcceptingHost, D: Poller> EventLoop<V, D> {
    fn new(alloc: Global, limits: Limits, poller: D) -> EventLoop<V, D>
        requires none { (key : ℕ) → D.out poller key ≡ None }
        requires none_back { D.back poller ≡ [] }
        ensures poller { result.poller ≡ poller }
    {
        EventLoop {
            sessions: SessionTable::new(alloc),
            run_queue: RunQueue::new(alloc),
            totals: SessionTotals::new(),
            limits,
            is_short: false,
            poller,
            served: GhostList::new(),
        }
    }

    // How long to wait at most, for all that is to be done.
    fn timeout(&self) -> Timeout {
        match self.run_queue.timeout() {
            Timeout::Infinite if self.is_short => Timeout::Short,
            timeout => timeout,
        }
    }

    // Ends the session of this number, which has ended so, and gives its connection back to the poller.
    fn end(&mut self, key: usize, ended: Ended, host: &mut V)
        requires ended { IfSome (get self.old.sessions.slots key) (λ slot. EndsSo ended slot.session.ended) }
        ensures closed { D.is_closed self.old.poller → D.is_closed self.new.poller }
        ensures over { D.is_over self.old.poller → D.is_over self.new.poller }
        ensures run_queue { (self.new.run_queue.came ≡ self.old.run_queue.came) × (self.new.run_queue.went ≡ self.old.run_queue.went) }
    {
        if let Some(slot) = self.sessions.leave(key, host) {
            self.totals.add(slot.session().counts());
            let end = SlotEnd {
                slot: Snapshot::of(&slot),
                ended,
            };
            self.served
                .push_as::<SlotEnd<V, D::In, D::Out>, SlotEnd<V, D::In, D::Out>>(&end);
            let (reader, writer) = slot.into_devices();
            self.poller.left(key, reader, writer, ended);
        }
    }

    // A turn of the session of this number. What it waits for where it is to have no other now.
    fn turn(&mut self, key: usize, host: &mut V) -> Option<Waits>
        ensures closed { D.is_closed self.old.poller → D.is_closed self.new.poller }
        ensures run_queue { (self.new.run_queue.came ≡ self.old.run_queue.came) × (self.new.run_queue.went ≡ self.old.run_queue.went) }
    {
        match self.sessions.turn(key, host) {
            Some(Ok(TurnProgress::Busy)) => None,
            Some(Ok(TurnProgress::Idle)) | None => Some(Waits::No),
            Some(Err(ended)) if !ended.is_final() => Some(Waits::ForMemory),
            Some(Err(ended)) => {
                self.end(key, ended, host);
                Some(Waits::No)
            }
        }
    }

    // Some turns of the session of this number. What it waits for then.
    fn serve(&mut self, key: usize, host: &mut V) -> Waits
        ensures closed { D.is_closed self.old.poller → D.is_closed self.new.poller }
        ensures run_queue { (self.new.run_queue.came ≡ self.old.run_queue.came) × (self.new.run_queue.went ≡ self.old.run_queue.went) }
    {
        for _turn in 0..TURNS_AT_ONCE {
            if let Some(waits) = self.turn(key, host) {
                return waits;
            }
        }
        Waits::ForTurn
    }

    // The session of this number is to have turns. Where there is no memory to keep this it has them now.
    fn call<R: Wait>(&mut self, rt: &R, key: usize, host: &mut V)
        ensures closed { D.is_closed self.old.poller → D.is_closed self.new.poller }
        ensures later { IsLater self.old.run_queue.came self.old.run_queue.went self.new.run_queue.came self.new.run_queue.went }
    {
        if self.run_queue.push(key, Waits::ForTurn) {
            return;
        }
        for _ in rt.forever() {
            if self.serve(key, host) != Waits::ForTurn {
                break;
            }
        }
    }

    // All sessions are to have turns.
    fn call_all<R: Wait>(&mut self, rt: &R, host: &mut V)
        ensures closed { D.is_closed self.old.poller → D.is_closed self.new.poller }
    {
        for key in 0..self.sessions.keys_end() {
            if self.sessions.slot(key).is_some() {
                self.call(rt, key, host);
            }
        }
    }

    // Each session is to look for itself whether something came.
    fn note_all_ready(&mut self)
        ensures poller { self.new.poller ≡ self.old.poller }
    {
        for key in 0..self.sessions.keys_end() {
            self.sessions.note_ready(key, true);
        }
    }

    // Each session that something came for is to have turns.
    fn call_ready<R: Wait>(&mut self, rt: &R, host: &mut V)
        ensures closed { D.is_closed self.old.poller → D.is_closed self.new.poller }
    {
        for _ready in 0..READY_AT_ONCE {
            let Some(ready) = self.poller.next_ready() else {
                break;
            };
            self.sessions.note_ready(ready.key, ready.is_read_closed);
            self.call(rt, ready.key, host);
        }
    }

    // Some turns of the session of this number, which waited for them.
    fn serve_waiting<R: Wait>(&mut self, rt: &R, key: usize, host: &mut V)
        ensures closed { D.is_closed self.old.poller → D.is_closed self.new.poller }
        ensures later { IsLater self.old.run_queue.came self.old.run_queue.went self.new.run_queue.came self.new.run_queue.went }
    {
        match self.serve(key, host) {
            Waits::No => {}
            // Where there is no memory to keep this, it is called once something comes or the worker is woken.
            Waits::ForMemory => {
                let _is_kept = self.run_queue.push(key, Waits::ForMemory);
            }
            Waits::ForTurn => self.call(rt, key, host),
        }
    }

    // Some turns of each session that had work left to do, in the order in which they were called.
    fn serve_all<R: Wait>(&mut self, rt: &R, host: &mut V)
        ensures closed { D.is_closed self.old.poller → D.is_closed self.new.poller }
        ensures in_turn { self.new.run_queue.went ≡ self.old.run_queue.came }
    {
        for _waiting in 0..self.run_queue.len() {
            let Some(key) = self.run_queue.pop() else {
                break;
            };
            self.serve_waiting(rt, key, host);
        }
    }

    // Begins a session on the next connection, where there is one, the host takes another session, and there is memory for it: all this is
    // seen to first, so that no connection is taken in vain.
    fn admit_one(&mut self, alloc: Global, host: &mut V) -> Option<usize>
        ensures closed { D.is_closed self.old.poller → D.is_closed self.new.poller }
    {
        self.is_short = self.sessions.make_room().is_err();
        let key = self.sessions.next_key();
        self.is_short |= self.run_queue.make_room(key).is_err();
        if self.is_short {
            return None;
        }
        let state = host.begin()?;
        let Some((reader, writer)) = self.poller.accept(key) else {
            host.end(&state);
            return None;
        };
        let slot = Slot::new(alloc, state, reader, writer, self.limits);
        Some(self.sessions.enter(slot))
    }

    // Takes the next connection in. Only one at a time: the other workers, which wait for the same connections, are to have
    // theirs.
    fn accept<R: Wait>(&mut self, rt: &R, alloc: Global, host: &mut V)
        ensures closed { D.is_closed self.old.poller → D.is_closed self.new.poller }
    {
        if let Some(key) = self.admit_one(alloc, host) {
            self.call(rt, key, host);
        }
    }

    // How the session of this number has ended, where all is over: as it keeps it, or as one whose devices pass nothing any more.
    fn end_of(&self, key: usize) -> Option<Ended>
        ensures ended { IfSome result (λ ended. IfSome (get self.now.sessions.slots key) (λ slot. EndsSo ended slot.session.ended)) }
    {
        let slot = self.sessions.slot(key)?;
        match slot.session().ended() {
            Some(ended) => Some(ended),
            None => Some(Ended::Gone),
        }
    }

    // Ends each session, where all is over.
    fn end_all(&mut self, host: &mut V)
        requires over { D.is_over self.old.poller }
        ensures closed { D.is_closed self.old.poller → D.is_closed self.new.poller }
    {
        for key in 0..self.sessions.keys_end() {
            if let Some(ended) = self.end_of(key) {
                self.end(key, ended, host);
            }
        }
    }

    // What is to be done after a wait.
    fn go_on<R: Wait>(&mut self, rt: &R, alloc: Global, host: &mut V, wakeup: Wakeup)
        requires over { wakeup.is_over ≡ true → D.is_over self.old.poller }
        ensures closed { D.is_closed self.old.poller → D.is_closed self.new.poller }
    {
        if wakeup.is_over {
            return self.end_all(host);
        }
        if wakeup.was_woken {
            host.woken();
        }
        if wakeup.is_any_ready {
            self.note_all_ready();
        }
        if wakeup.was_woken || wakeup.is_any_ready {
            self.call_all(rt, host);
        }
        self.call_ready(rt, host);
        self.serve_all(rt, host);
        self.is_short = false;
        if wakeup.may_accept {
            self.accept(rt, alloc, host);
        }
    }

    // A wait, and what is to be done then. Whether all is done.
    fn round<R: Wait>(&mut self, rt: &R, alloc: Global, host: &mut V) -> bool
        ensures closed { result ≡ true → D.is_closed self.new.poller }
        ensures back { result ≡ true → (key : ℕ) → D.out self.new.poller key ≡ None }
    {
        let timeout = self.timeout();
        let wakeup = self.poller.wait(timeout);
        self.go_on(rt, alloc, host, wakeup);
        wakeup.is_closed && self.sessions.len() == 0
    }

    // Ends all sessions.
    fn close(self, host: &mut V) -> (SessionTotals, D, GhostList<SessionResult<V, D::In, D::Out>>)
        ensures poller { result.1 ≡ self.poller }
        ensures totals { result.0 ≡ totals_of (map (λ s. s.slot.session.counts) result.2) }
        ensures served { D.back result.1 ≡ map (λ s. (s.slot.read_from.value, s.slot.write_to.value)) result.2 }
        ensures told { ∥ AllByRecursion (λ s. EndsSo s.ended s.slot.session.ended) result.2 ∥₁ }
    {
        let EventLoop {
            sessions,
            run_queue: _,
            totals,
            limits: _,
            is_short: _,
            poller,
            served,
        } = self;
        sessions.close(host);
        (totals, poller, served)
    }
}

/// Serves the sessions that the poller accepts, until no more come and all have ended. What those counted is handed back, with the
/// poller, and with the sessions, which only proofs see.
///
/// Each connection that came in is back then (`back`), and is that of a session that was begun on it, whose whole law is a fact of
/// its slot, and which has ended so (`served`, `ended`); its end was told to the host. Served are those for which something came, and
/// all of them once the worker was woken, each a few turns before the next; and one connection is taken between two waits.
pub fn serve_many<V: AcceptingHost, D: Poller, R: Wait>(
    rt: &R,
    alloc: Global,
    host: &mut V,
    poller: D,
    limits: Limits,
) -> (SessionTotals, D, GhostList<SessionResult<V, D::In, D::Out>>)
    requires none { (key : ℕ) → D.out poller key ≡ None }
    requires none_back { D.back poller ≡ [] }
    ensures totals { result.0 ≡ totals_of (map (λ s. s.slot.session.counts) result.2) }
    ensures back { (key : ℕ) → D.out result.1 key ≡ None }
    ensures served { D.back result.1 ≡ map (λ s. (s.slot.read_from.value, s.slot.write_to.value)) result.2 }
    ensures told { ∥ AllByRecursion (λ s. EndsSo s.ended s.slot.session.ended) result.2 ∥₁ }
    ensures closed { D.is_closed result.1 }
{
    let mut event_loop = EventLoop::<V, D>::new(alloc, limits, poller);
    for _ in rt.forever() {
        if event_loop.round(rt, alloc, host) {
            break;
        }
    }
    event_loop.close(host)
}
