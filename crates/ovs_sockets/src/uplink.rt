//! Connections with an upstream.

ghost use Rattle.std.specs.Prelude.{◌≡◌, true, false, Some, IfOk, if◌then◌else◌, vec_len};
ghost use Rattle.ovs_sockets.specs.Allowance.{IsOneLess, IsNoMore};
ghost use Rattle.ovs_sockets.specs.Places.{next_place};

use crate::allowance::one_less;
use crate::channel::Channel;
use crate::pause::Pause;
use crate::shutdown::ShutdownFlag;
use crate::waker::SocketWaker;
use log::{Log, info};
use ovs_address::Address;
use ovs_session::Ended;
use std::alloc::Global;
use std::io::{self, ErrorKind, Read, Write};
use std::net::Net;
use std::sync::{Arc, Mutex};

/// Connections with an upstream, one after another: its addresses are tried in turn, round and round, with a growing pause before each
/// round but the first.
///
/// What it hands out is used by the thread that has it, so that nobody else holds the lock.
#[derive(Drop)]
pub struct Uplink<R: Net + Log + Drop> {
    rt: R,
    addresses: Vec<Address>,
    // The place of the address that is tried, or was tried last.
    at: usize,
    tries_left: Option<u32>,
    has_tried: bool,
    // How many tries failed one after another, of which those of one round were told.
    failures: usize,
    pause: Pause,
    channel: Arc<Mutex<Channel>>,
}

/// What wakes the thread that has connections with an upstream.
#[derive(Drop)]
pub struct UpwardWakers {
    /// From a wait for the upstream. It wakes the thread neither while it connects nor from a pause, which what is asked of the upstream
    /// mustn't cut short.
    pub waker: SocketWaker,
    /// From connecting, and from a pause.
    pub pause_waker: SocketWaker,
}

/// What comes from an upstream. A read waits until something comes, or the thread is woken.
#[derive(Drop)]
pub struct FromUpstream {
    channel: Arc<Mutex<Channel>>,
}

/// What goes to an upstream. A write waits until something can go, or the thread is woken.
#[derive(Drop)]
pub struct ToUpstream {
    channel: Arc<Mutex<Channel>>,
}

// The place behind this one of so many, which is the first behind the last.
fn next_place(at: usize, places: usize) -> usize
    ensures value { result ≡ next_place places at }
{
    if places > 0 && at < places - 1 {
        at + 1
    } else {
        0
    }
}

impl<R: Net + Log + Drop> Uplink<R> {
    /// So many connections at most, or any number, with the upstream at these addresses, and what wakes the thread that has them. While a
    /// write has to wait, so much of what comes is read ahead at most: no less than a message of the upstream may have, since an upstream
    /// that writes one may read nothing until that is taken.
    ///
    /// # Errors
    /// The system's; memory ran out.
    pub fn new(
        rt: R,
        alloc: Global,
        addresses: &[Address],
        tries: Option<u32>,
        most_ahead: usize,
        shutdown_flag: &ShutdownFlag,
    ) -> io::Result<(Uplink<R>, UpwardWakers)>
        ensures count { IfOk result (λ made. made.0.tries_left ≡ tries) }
    {
        let channel = Channel::new(&rt, alloc, most_ahead, shutdown_flag.again()?)?;
        let wakers = UpwardWakers {
            waker: SocketWaker::new(channel.waker()?),
            pause_waker: SocketWaker::new(channel.pause_waker()?),
        };
        let uplink = Uplink {
            rt,
            addresses: Vec::from_slice(alloc, addresses)?,
            at: 0,
            tries_left: tries,
            has_tried: false,
            failures: 0,
            pause: Pause::new(),
            channel: Arc::new(alloc, Mutex::new(channel))?,
        };
        Ok((uplink, wakers))
    }

    /// The address that is tried, or was tried last.
    pub fn address(&self) -> Option<Address> {
        self.addresses.get(self.at).copied()
    }

    /// Whether there is to be another, at the next address; the one before is let go, and before a new round it waits a while.
    pub fn next(&mut self) -> bool
        ensures tried { result ≡ true → IsOneLess self.old.tries_left self.new.tries_left }
        ensures turn { result ≡ true → self.new.at ≡ (if self.old.has_tried then next_place (vec_len self.old.addresses) self.old.at else self.old.at) }
        ensures none { self.old.tries_left ≡ Some 0 → result ≡ false }
        ensures no_more { IsNoMore self.old.tries_left self.new.tries_left }
    {
        let Some(mut channel) = self.channel.try_lock() else {
            return false;
        };
        channel.close();
        if self.tries_left == Some(0) || channel.shutdown_flag() {
            return false;
        }
        self.tries_left = one_less(self.tries_left);
        if self.has_tried {
            self.at = next_place(self.at, self.addresses.len());
            if self.at == 0 {
                channel.pause(self.pause.take());
            }
        }
        self.has_tried = true;
        !channel.shutdown_flag()
    }

    /// The connection. `None` where it can't be had now.
    pub fn open(&mut self) -> Option<(FromUpstream, ToUpstream)>
        ensures same { self.new.tries_left ≡ self.old.tries_left }
    {
        let address = self.address()?;
        let connected = self.channel.try_lock()?.connect(&self.rt, &address);
        self.tell(&address, connected)?;
        let reader = FromUpstream {
            channel: self.channel.clone().ok()?,
        };
        let writer = ToUpstream {
            channel: self.channel.clone().ok()?,
        };
        Some((reader, writer))
    }

    // Tells of the first failure of several at each address, and that the upstream was found. `None` where it wasn't.
    fn tell(&mut self, address: &Address, connected: io::Result<()>) -> Option<()>
        ensures same { self.new.tries_left ≡ self.old.tries_left }
    {
        match connected {
            Ok(()) => {
                self.failures = 0;
                info!(self.rt; "upstream {address} found");
                Some(())
            }
            Err(error) => {
                if self.failures < self.addresses.len() {
                    info!(self.rt; "upstream {address} not found: {error}");
                    self.failures += 1;
                }
                None
            }
        }
    }

    /// Tells how a session over the connection ended. Where the upstream was followed the pauses begin anew.
    pub fn lost(&mut self, ended: Ended)
        ensures same { self.new.tries_left ≡ self.old.tries_left }
        ensures grown { ended ≡ Ended.BadInput → self.new.pause ≡ self.old.pause }
    {
        if self.was_followed(ended) {
            self.pause = Pause::new();
        }
        if let Some(address) = self.address() {
            info!(self.rt; "upstream {address} lost: {ended}");
        }
    }

    // Whether the upstream was followed in the session that ended so.
    fn was_followed(&self, ended: Ended) -> bool
        ensures taken { result ≡ true → ended ≡ Ended.BadInput → ⊥ }
    {
        match self.channel.try_lock() {
            Some(channel) => channel.exchange().was_followed(ended),
            None => false,
        }
    }
}

impl Read for FromUpstream {
    fn read(&mut self, buf: &mut [u8]) -> io::Result<usize> {
        match self.channel.try_lock() {
            Some(mut channel) => channel.read(buf),
            None => Err(ErrorKind::WouldBlock.into()),
        }
    }
}

impl Write for ToUpstream {
    fn write(&mut self, buf: &[u8]) -> io::Result<usize> {
        match self.channel.try_lock() {
            Some(mut channel) => channel.write(buf),
            None => Err(ErrorKind::WouldBlock.into()),
        }
    }

    fn flush(&mut self) -> io::Result<()> {
        Ok(())
    }
}
