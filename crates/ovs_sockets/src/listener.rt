//! Listening sockets of two kinds.

use crate::stream::{Peer, Stream};
use mio::event::Source;
use mio::net::{TcpListener, UnixListener, UnixStream};
use mio::{Interest, Registry, Token};
use ovs_address::{Address, SocketPath};
use std::fs::{self, Files};
use std::io::{self, ErrorKind};
use std::net::Net;
use std::os::fd::AsFd;
use std::os::unix::fs::FileTypeExt;

/// A socket at which connections come in, each of which is taken without waiting for one.
#[derive(Drop)]
pub(crate) enum Listener {
    Tcp(TcpListener),
    Unix(UnixListener),
}

// Whether there is a socket at this path at which nobody listens any more: its process has ended and left it. Only then is nothing lost
// where it is taken away: the system answers in the same words where another file is there.
fn is_left<R: Files + Net>(rt: &R, path: &SocketPath) -> bool {
    let Ok(metadata) = fs::symlink_metadata(rt, path.as_str()) else {
        return false;
    };
    if !metadata.file_type().is_socket() {
        return false;
    }
    match UnixStream::connect(rt, path.as_str()) {
        Ok(_) => false,
        Err(error) => error.kind() == ErrorKind::ConnectionRefused,
    }
}

// Listens at this path, in the place of a process that has ended and left its socket there.
fn bind_path<R: Files + Net>(rt: &R, path: &SocketPath) -> io::Result<UnixListener> {
    match UnixListener::bind(rt, path.as_str()) {
        Err(error) if error.kind() == ErrorKind::AddrInUse && is_left(rt, path) => {
            fs::remove_file(rt, path.as_str())?;
            UnixListener::bind(rt, path.as_str())
        }
        bound => bound,
    }
}

impl Listener {
    /// Listens at this address. The queue of those that wait is as long as the system allows.
    pub(crate) fn bind<R: Files + Net>(rt: &R, address: &Address) -> io::Result<Listener> {
        match address {
            Address::Ip(address) => Ok(Listener::Tcp(TcpListener::bind(rt, *address)?)),
            Address::Unix(path) => Ok(Listener::Unix(bind_path(rt, path)?)),
        }
    }

    /// Where it listens, which was to be here: with the port that the system chose where it was to.
    pub(crate) fn address(&self, address: &Address) -> io::Result<Address> {
        match self {
            Listener::Tcp(listener) => Ok(Address::Ip(listener.local_addr()?)),
            Listener::Unix(_) => Ok(*address),
        }
    }

    /// The same socket, for another thread.
    pub(crate) fn try_clone(&self) -> io::Result<Listener> {
        match self {
            Listener::Tcp(listener) => {
                let socket = listener.as_fd().try_clone_to_owned()?;
                Ok(Listener::Tcp(TcpListener::from(socket)))
            }
            Listener::Unix(listener) => {
                let socket = listener.as_fd().try_clone_to_owned()?;
                Ok(Listener::Unix(UnixListener::from(socket)))
            }
        }
    }

    /// The next connection, or `WouldBlock` where none waits.
    pub(crate) fn accept(&self) -> io::Result<(Stream, Peer)> {
        match self {
            Listener::Tcp(listener) => {
                let (stream, peer) = listener.accept()?;
                Ok((Stream::Tcp(stream), Peer::Ip(peer)))
            }
            Listener::Unix(listener) => {
                let (stream, _) = listener.accept()?;
                Ok((Stream::Unix(stream), Peer::Unix))
            }
        }
    }
}

impl Source for Listener {
    fn register(
        &mut self,
        registry: &Registry,
        token: Token,
        interests: Interest,
    ) -> io::Result<()> {
        match self {
            Listener::Tcp(listener) => listener.register(registry, token, interests),
            Listener::Unix(listener) => listener.register(registry, token, interests),
        }
    }

    fn reregister(
        &mut self,
        registry: &Registry,
        token: Token,
        interests: Interest,
    ) -> io::Result<()> {
        match self {
            Listener::Tcp(listener) => listener.reregister(registry, token, interests),
            Listener::Unix(listener) => listener.reregister(registry, token, interests),
        }
    }

    fn deregister(&mut self, registry: &Registry) -> io::Result<()> {
        match self {
            Listener::Tcp(listener) => listener.deregister(registry),
            Listener::Unix(listener) => listener.deregister(registry),
        }
    }
}
