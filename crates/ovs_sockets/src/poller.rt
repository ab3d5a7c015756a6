//! Where a worker's readers come in.

ghost use Rattle.std.specs.Prelude.{◌≡◌, ◌≢◌, ◌++◌, ◌⊎◌, ℕ, [], true, false, Some, None, IfSome, IfOk, option_map, option_to_list};
ghost use Rattle.ovs_worker.specs.Connections.{out_of};
ghost use Rattle.ovs_sockets.specs.Allowance.{IsOneLess, IsNoMore};

use crate::allowance::one_less;
use crate::client::Half;
use crate::listener::Listener;
use crate::shutdown::ShutdownFlag;
use crate::stream::{Peer, Stream};
use crate::waker::{SocketWaker, WakeState};
use crate::worker_group::WorkerGroup;
use log::{Log, error, info};
use mio::{Events, Interest, Poll, Token, Waker};
use ovs_session::Ended;
use ovs_worker::{Connections, Poller, Ready, Timeout, Wakeup};
use std::alloc::Global;
use std::collections::VecDeque;
use std::io::{self, ErrorKind};
use std::net::Net;
use std::sync::Arc;
use std::time::Duration;

// How many events are taken from the system at once.
const EVENTS: usize = 256;

// The token of connections that wait. Those of sessions are their numbers.
const LISTENER: Token = Token(usize::MAX);

// The token of what wakes the worker.
const WAKER: Token = Token(usize::MAX - 1);

// After so many milliseconds it is tried again to take a connection for which the system had no room.
const SHORTAGE: u64 = 200;

// So many milliseconds a short wait takes.
const SHORT: u64 = 10;

// So often a connection is left to the other workers, with so many milliseconds' wait where nothing else comes.
const MOST_LEFT: u32 = 16;

const LEFT: u64 = 1;

// What the events of a wait told.
#[derive(Clone, Copy)]
struct WaitOutcome {
    // The worker was woken.
    was_woken: bool,
    // That some session may go on couldn't be noted.
    is_lost: bool,
}

/// A worker's poller over sockets: several workers may have one at one address, each of which takes a part of what comes.
#[derive(Drop)]
pub struct SocketPoller<R: Log + Drop> {
    rt: R,
    // The number of the worker, by which it is told of.
    worker: usize,
    alloc: Global,
    poll: Poll,
    events: Events<Global>,
    // The sessions that may go on.
    ready: VecDeque<Ready>,
    listener: Listener,
    waker: Arc<Waker>,
    wake_state: Arc<WakeState>,
    accepts_left: Option<u32>,
    // A connection may wait to be taken.
    may_accept: bool,
    // The system had no room for the connection that waits.
    is_short: bool,
    // So often the connection that waits was left to the other workers.
    was_left: u32,
    shutdown_flag: ShutdownFlag,
    // It was seen that all is to end.
    is_over: bool,
    // Those that came in and aren't back.
    connections: Connections<Half, Half>,
}

impl<R: Net + Log + Drop> SocketPoller<R> {
    pub(crate) fn new(
        rt: R,
        alloc: Global,
        worker: usize,
        listener: Listener,
        worker_group: Arc<WorkerGroup>,
        accepts: Option<u32>,
        shutdown_flag: ShutdownFlag,
    ) -> io::Result<SocketPoller<R>>
        ensures count { IfOk result (λ poller. poller.accepts_left ≡ accepts) }
        ensures none { IfOk result (λ poller. (key : ℕ) → out_of poller.connections key ≡ None) }
        ensures none_back { IfOk result (λ poller. poller.connections.back ≡ []) }
    {
        let poll = Poll::new(&rt)?;
        let waker = Arc::new(alloc, Waker::new(poll.registry(), WAKER)?)?;
        let mut listener = listener;
        poll.registry()
            .register(&mut listener, LISTENER, Interest::READABLE)?;
        Ok(SocketPoller {
            rt,
            worker,
            alloc,
            poll,
            events: Events::with_capacity(alloc, EVENTS)?,
            ready: VecDeque::with_capacity(alloc, EVENTS)?,
            listener,
            waker,
            wake_state: Arc::new(alloc, WakeState::new(worker_group))?,
            accepts_left: accepts,
            may_accept: true,
            is_short: false,
            was_left: 0,
            shutdown_flag,
            is_over: false,
            connections: Connections::new(),
        })
    }
}

impl<R: Log + Drop> SocketPoller<R> {
    /// What wakes the worker that waits at them.
    ///
    /// # Errors
    /// No more can be counted.
    pub fn waker(&self) -> io::Result<SocketWaker> {
        let waker = self.waker.clone()?;
        Ok(SocketWaker::of_worker(waker, self.wake_state.clone()?))
    }

    // Whether no connection is taken any more.
    fn is_closed(&self) -> bool
        ensures open { result ≡ false → self.now.accepts_left ≢ Some 0 }
        ensures closed { result ≡ true → (self.now.accepts_left ≡ Some 0) ⊎ (self.now.is_over ≡ true) }
        ensures none { self.now.accepts_left ≡ Some 0 → result ≡ true }
    {
        self.accepts_left == Some(0) || self.is_over
    }

    // How long to wait at most.
    fn patience(&self, timeout: Timeout) -> Option<Duration> {
        if timeout == Timeout::Zero || !self.ready.is_empty() {
            Some(Duration::ZERO)
        } else if timeout == Timeout::Short {
            Some(Duration::from_millis(SHORT))
        } else if self.is_short && !self.is_closed() {
            Some(Duration::from_millis(SHORTAGE))
        } else if self.may_accept && !self.is_closed() {
            let wait = if self.was_left > 0 { LEFT } else { 0 };
            Some(Duration::from_millis(wait))
        } else {
            None
        }
    }

    // Notes what came.
    fn note_events(&mut self) -> WaitOutcome
        ensures same { (self.new.accepts_left ≡ self.old.accepts_left) × (self.new.is_over ≡ self.old.is_over) × (self.new.connections ≡ self.old.connections) }
    {
        let mut told = WaitOutcome {
            was_woken: false,
            is_lost: false,
        };
        for event in &self.events {
            match event.token() {
                LISTENER => self.may_accept = true,
                WAKER => told.was_woken = true,
                Token(key) => {
                    let is_read_closed = event.is_read_closed() || event.is_error();
                    let ready = Ready {
                        key,
                        is_read_closed,
                    };
                    told.is_lost |= self.ready.push_back(ready).is_err();
                }
            }
        }
        told
    }

    // The next connection that waits, without waiting for one.
    fn next_stream(&mut self) -> Option<(Stream, Peer)>
        ensures same { (self.new.accepts_left ≡ self.old.accepts_left) × (self.new.is_over ≡ self.old.is_over) × (self.new.connections ≡ self.old.connections) }
    {
        match self.listener.accept() {
            Ok(connection) => {
                self.is_short = false;
                Some(connection)
            }
            Err(error) => {
                self.note_refusal(error.kind());
                None
            }
        }
    }

    // Whether the connection that waits is left to workers that serve fewer sessions, for a while: all are woken by it, and the
    // same ones would mostly be the first.
    fn leaves_it(&mut self) -> bool
        ensures same { (self.new.accepts_left ≡ self.old.accepts_left) × (self.new.is_over ≡ self.old.is_over) × (self.new.connections ≡ self.old.connections) }
    {
        let leaves = self.was_left < MOST_LEFT && self.wake_state.is_above_part();
        self.was_left = if leaves { self.was_left + 1 } else { 0 };
        leaves
    }

    // None waits, or the one that waits can't be had now, which is no reason to take no others.
    fn note_refusal(&mut self, kind: ErrorKind)
        ensures same { (self.new.accepts_left ≡ self.old.accepts_left) × (self.new.is_over ≡ self.old.is_over) × (self.new.connections ≡ self.old.connections) }
    {
        if kind == ErrorKind::WouldBlock {
            self.may_accept = false;
            self.is_short = false;
        } else {
            self.is_short = true;
        }
    }

    // Takes the next connection for the session of this number, one of those that may be, where one waits.
    fn take(&mut self, key: usize) -> Option<(Half, Half)>
        ensures few { IfSome result (λ _. IsOneLess self.old.accepts_left self.new.accepts_left) }
        ensures no_more { IsNoMore self.old.accepts_left self.new.accepts_left }
        ensures none { self.old.accepts_left ≡ Some 0 → result ≡ None }
        ensures same { (self.new.is_over ≡ self.old.is_over) × (self.new.connections ≡ self.old.connections) }
    {
        if self.is_closed() || self.shutdown_flag.is_asked() || self.leaves_it() {
            return None;
        }
        let (stream, peer) = self.next_stream()?;
        self.accepts_left = one_less(self.accepts_left);
        // Also where there is nothing to serve it with.
        self.tell_closed();
        let halves = self.slot(key, stream).ok()?;
        self.wake_state.add_session();
        let worker = self.worker;
        info!(self.rt; "worker {worker} session {key} opened by {peer}");
        Some(halves)
    }

    // Tells where this was the last connection that any worker takes.
    fn tell_closed(&self) {
        if self.accepts_left == Some(0) && self.wake_state.close() {
            error!(self.rt; "no connection is taken any more: each worker has taken as many as it may");
        }
    }

    // Has the session of this number wait for what comes by a connection.
    fn slot(&self, key: usize, mut stream: Stream) -> io::Result<(Half, Half)> {
        stream.set_nodelay()?;
        self.poll.registry().register(
            &mut stream,
            Token(key),
            Interest::READABLE | Interest::WRITABLE,
        )?;
        let stream = Arc::new(self.alloc, stream)?;
        let writer = Half::new(stream.clone()?, self.shutdown_flag.again()?);
        Ok((Half::new(stream, self.shutdown_flag.again()?), writer))
    }
}

// Once all connections are taken that may be, or it was seen that all is to end, none is taken any more.
impl<R: Log + Drop> Poller for SocketPoller<R> {
    type In = Half;

    type Out = Half;

    ghost out = { λ poller. out_of poller.connections };

    ghost back = { λ poller. poller.connections.back };

    ghost is_closed = { λ poller. (poller.accepts_left ≡ Some 0) ⊎ (poller.is_over ≡ true) };

    ghost is_over = { λ poller. poller.is_over ≡ true };

    fn worker(&self) -> usize {
        self.worker
    }

    fn wait(&mut self, timeout: Timeout) -> Wakeup
        ensures may_accept { self.old.accepts_left ≡ Some 0 → (result.is_closed ≡ true) × (result.may_accept ≡ false) }
        ensures count { self.new.accepts_left ≡ self.old.accepts_left }
        ensures same { (key : ℕ) → out_of self.new.connections key ≡ out_of self.old.connections key }
        ensures back { self.new.connections.back ≡ self.old.connections.back }
        ensures closed { result.is_closed ≡ true → (self.new.accepts_left ≡ Some 0) ⊎ (self.new.is_over ≡ true) }
        ensures over { result.is_over ≡ true → self.new.is_over ≡ true }
    {
        let patience = self.patience(timeout);
        // Where the system refuses to tell, each session looks for itself whether something came.
        let is_refused = self.poll.poll(&mut self.events, patience).is_err();
        let told = self.note_events();
        if told.was_woken {
            // Before the sessions look at what is new, so that nothing is new behind it for which it isn't woken.
            self.wake_state.hear();
        }
        self.is_over |= self.shutdown_flag.is_asked();
        let is_any_ready = is_refused || told.is_lost;
        let is_closed = self.is_closed();
        Wakeup {
            was_woken: told.was_woken || is_any_ready,
            is_any_ready,
            may_accept: (self.may_accept || self.is_short) && !is_closed,
            is_closed,
            is_over: self.is_over,
        }
    }

    fn next_ready(&mut self) -> Option<Ready>
        ensures count { self.new.accepts_left ≡ self.old.accepts_left }
        ensures same { (key : ℕ) → out_of self.new.connections key ≡ out_of self.old.connections key }
        ensures back { self.new.connections.back ≡ self.old.connections.back }
        ensures closed { (self.old.accepts_left ≡ Some 0) ⊎ (self.old.is_over ≡ true) → (self.new.accepts_left ≡ Some 0) ⊎ (self.new.is_over ≡ true) }
        ensures over { self.old.is_over ≡ true → self.new.is_over ≡ true }
    {
        self.ready.pop_front()
    }

    // Each connection that is taken is one of those that may be.
    fn accept(&mut self, key: usize) -> Option<(Half, Half)>
        requires free { out_of self.old.connections key ≡ None }
        ensures few { IfSome result (λ _. IsOneLess self.old.accepts_left self.new.accepts_left) }
        ensures no_more { IsNoMore self.old.accepts_left self.new.accepts_left }
        ensures none { self.old.accepts_left ≡ Some 0 → result ≡ None }
        ensures came { out_of self.new.connections key ≡ option_map (λ connection. (connection.0, connection.1)) result }
        ensures others { (other : ℕ) → other ≢ key → out_of self.new.connections other ≡ out_of self.old.connections other }
        ensures back { self.new.connections.back ≡ self.old.connections.back }
        ensures closed { (self.old.accepts_left ≡ Some 0) ⊎ (self.old.is_over ≡ true) → (self.new.accepts_left ≡ Some 0) ⊎ (self.new.is_over ≡ true) }
        ensures over { self.old.is_over ≡ true → self.new.is_over ≡ true }
    {
        match self.take(key) {
            Some((reader, writer)) => {
                self.connections.note_came(key, &reader, &writer);
                Some((reader, writer))
            }
            None => None,
        }
    }

    // A file handle is free again.
    fn left(&mut self, key: usize, reader: Half, writer: Half, ended: Ended)
        ensures count { self.new.accepts_left ≡ self.old.accepts_left }
        ensures gone { out_of self.new.connections key ≡ None }
        ensures others { (other : ℕ) → other ≢ key → out_of self.new.connections other ≡ out_of self.old.connections other }
        ensures back { self.new.connections.back ≡ self.old.connections.back ++ option_to_list (out_of self.old.connections key) }
        ensures closed { (self.old.accepts_left ≡ Some 0) ⊎ (self.old.is_over ≡ true) → (self.new.accepts_left ≡ Some 0) ⊎ (self.new.is_over ≡ true) }
        ensures over { self.old.is_over ≡ true → self.new.is_over ≡ true }
    {
        self.connections.note_left(key);
        drop((reader, writer));
        self.wake_state.remove_session();
        self.may_accept |= self.is_short;
        let worker = self.worker;
        info!(self.rt; "worker {worker} session {key} ended: {ended}");
    }
}
