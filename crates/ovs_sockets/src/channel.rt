//! What a thread with an upstream waits for, reads and writes.

ghost use Rattle.std.specs.Io.{ReadsAtMost, WritesAtMost};

use crate::exchange::Exchange;
use crate::shutdown::ShutdownFlag;
use crate::stream::Stream;
use crate::timed_out::has_timed_out;
use mio::{Events, Interest, Poll, Token, Waker};
use ovs_address::Address;
use std::alloc::Global;
use std::collections::VecDeque;
use std::io::{self, ErrorKind, Read, Write};
use std::net::Net;
use std::sync::Arc;
use std::time::Duration;

// How many events are taken from the system at once.
const EVENTS: usize = 16;

const STREAM: Token = Token(0);

const WAKER: Token = Token(1);

// So many seconds a connection may take to stand.
const CONNECTING: u64 = 5;

// So much is read at once while a write has to wait.
const CHUNK: usize = 16_384;

/// The connection with an upstream, if there is one, and what its thread waits with: for the connection, and for being woken.
#[derive(Drop)]
pub(crate) struct Channel {
    alloc: Global,
    poll: Poll,
    // What it connects and pauses with, which what is asked of the upstream doesn't wake: else clients would cut the pauses short.
    pause_poll: Poll,
    events: Events<Global>,
    stream: Option<Stream>,
    // What came while a write had to wait. An upstream that writes may read nothing until that is taken.
    ahead: VecDeque<u8>,
    // So much is read at most before it is taken.
    most_ahead: usize,
    exchange: Exchange,
    shutdown_flag: ShutdownFlag,
}

impl Channel {
    /// Not connected yet. Where a write has to wait, so much is read ahead at most.
    pub(crate) fn new<N: Net>(
        net: &N,
        alloc: Global,
        most_ahead: usize,
        shutdown_flag: ShutdownFlag,
    ) -> io::Result<Channel> {
        Ok(Channel {
            alloc,
            poll: Poll::new(net)?,
            pause_poll: Poll::new(net)?,
            events: Events::with_capacity(alloc, EVENTS)?,
            stream: None,
            ahead: VecDeque::new(alloc),
            most_ahead,
            exchange: Exchange::Opened,
            shutdown_flag,
        })
    }

    /// What wakes the thread, but while it connects or pauses.
    pub(crate) fn waker(&self) -> io::Result<Arc<Waker>> {
        Ok(Arc::new(self.alloc, Waker::new(self.poll.registry(), WAKER)?)?)
    }

    /// What wakes the thread while it connects or pauses.
    pub(crate) fn pause_waker(&self) -> io::Result<Arc<Waker>> {
        let waker = Waker::new(self.pause_poll.registry(), WAKER)?;
        Ok(Arc::new(self.alloc, waker)?)
    }

    /// Whether all is to end.
    pub(crate) fn shutdown_flag(&self) -> bool {
        self.shutdown_flag.is_asked()
    }

    /// How far the exchange over the connection has come.
    pub(crate) fn exchange(&self) -> Exchange {
        self.exchange
    }

    /// Waits for so long, or less where it is woken from the pause.
    pub(crate) fn pause(&mut self, pause: Duration) {
        let _ = self.pause_poll.poll(&mut self.events, Some(pause));
    }

    /// Lets the connection go.
    pub(crate) fn close(&mut self) {
        self.stream = None;
        self.ahead.clear();
        self.exchange = Exchange::Opened;
    }

    /// Connects, and waits until that has succeeded or failed, or has taken too long, as with a host that is switched off.
    pub(crate) fn connect<N: Net>(&mut self, net: &N, address: &Address) -> io::Result<()> {
        self.close();
        let mut stream = Stream::connect(net, address)?;
        let registry = self.pause_poll.registry();
        registry.register(&mut stream, STREAM, Interest::WRITABLE)?;
        self.wait_for_stream()?;
        stream.finish()?;
        self.pause_poll.registry().deregister(&mut stream)?;
        self.poll.registry().register(
            &mut stream,
            STREAM,
            Interest::READABLE | Interest::WRITABLE,
        )?;
        self.stream = Some(stream);
        Ok(())
    }

    // Waits until something is told of the connection.
    fn wait_for_stream(&mut self) -> io::Result<()> {
        let longest = Duration::from_secs(CONNECTING);
        self.pause_poll.poll(&mut self.events, Some(longest))?;
        if self.shutdown_flag() {
            return Err(ErrorKind::Interrupted.into());
        }
        for event in &self.events {
            if event.token() == STREAM {
                return Ok(());
            }
        }
        Err(ErrorKind::TimedOut.into())
    }

    // Waits until something is told of the connection, or it is woken.
    fn wait(&mut self) -> io::Result<()> {
        self.poll.poll(&mut self.events, None)
    }

    // Reads what the connection has.
    fn read_now(&mut self, buf: &mut [u8]) -> io::Result<usize>
        ensures bound { ReadsAtMost result buf.new }
    {
        let Some(stream) = &self.stream else {
            return Ok(0);
        };
        match stream.read(buf) {
            Err(error) if has_timed_out(&error) => Err(ErrorKind::ConnectionAborted.into()),
            Ok(len) if len > 0 => {
                self.exchange = self.exchange.after_read();
                Ok(len)
            }
            other => other,
        }
    }

    // Takes in some of what has come. Whether anything had.
    fn read_ahead(&mut self) -> io::Result<bool> {
        if self.ahead.len() >= self.most_ahead {
            return Ok(false);
        }
        let mut chunk = [0; CHUNK];
        match self.read_now(&mut chunk) {
            Ok(0) => Ok(false),
            Ok(len) => {
                self.ahead.write_all(&chunk[..len])?;
                Ok(true)
            }
            Err(error) if error.kind() == ErrorKind::WouldBlock => Ok(false),
            Err(error) => Err(error),
        }
    }

    /// Reads what came. Where nothing has, it waits until something comes, or it is woken.
    pub(crate) fn read(&mut self, buf: &mut [u8]) -> io::Result<usize>
        ensures bound { ReadsAtMost result buf.new }
    {
        if self.shutdown_flag() {
            return Ok(0);
        }
        if !self.ahead.is_empty() {
            return self.ahead.read(buf);
        }
        match self.read_now(buf) {
            Err(error) if error.kind() == ErrorKind::WouldBlock => {
                self.wait()?;
                Err(error)
            }
            other => other,
        }
    }

    /// Writes what the connection takes. Where it takes nothing, it waits until it may, and takes in what comes meanwhile.
    pub(crate) fn write(&mut self, buf: &[u8]) -> io::Result<usize>
        ensures bound { WritesAtMost result buf.now }
    {
        let Some(stream) = &self.stream else {
            return Err(ErrorKind::NotConnected.into());
        };
        if self.shutdown_flag() {
            return Err(ErrorKind::BrokenPipe.into());
        }
        match stream.write(buf) {
            Err(error) if error.kind() == ErrorKind::WouldBlock => {
                if !self.read_ahead()? {
                    self.wait()?;
                }
                Err(error)
            }
            Err(error) if has_timed_out(&error) => Err(ErrorKind::ConnectionAborted.into()),
            Ok(len) => {
                self.exchange = self.exchange.after_write();
                Ok(len)
            }
            other => other,
        }
    }
}
