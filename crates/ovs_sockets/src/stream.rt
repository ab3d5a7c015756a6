//! Connections over sockets of two kinds.

ghost use Rattle.std.specs.Prelude.{◌≡◌};
ghost use Rattle.std.specs.Io.{ReadsAtMost, WritesAtMost};

use mio::event::Source;
use mio::net::{TcpStream, UnixStream};
use mio::{Interest, Registry, Token};
use ovs_address::Address;
use std::fmt::{self, Display, Formatter};
use std::io::{self, Read, Write};
use std::net::{Net, SocketAddr};

/// A connection, whose reads and writes don't wait.
#[derive(Drop)]
pub(crate) enum Stream {
    Tcp(TcpStream),
    Unix(UnixStream),
}

/// Who has opened a connection: the process at this address, or one of this host, of which a Unix socket tells no more.
#[derive(Clone, Copy, Debug)]
pub(crate) enum Peer {
    Ip(SocketAddr),
    Unix,
}

impl Stream {
    /// Begins to connect. Once it is told that something can be written, `finish` says what came of it.
    pub(crate) fn connect<N: Net>(net: &N, address: &Address) -> io::Result<Stream> {
        match address {
            Address::Ip(address) => Ok(Stream::Tcp(TcpStream::connect(net, *address)?)),
            Address::Unix(path) => Ok(Stream::Unix(UnixStream::connect(net, path.as_str())?)),
        }
    }

    /// Whether the connection stands, which had begun.
    pub(crate) fn finish(&self) -> io::Result<()> {
        if let Some(error) = self.take_error()? {
            return Err(error);
        }
        match self {
            Stream::Tcp(stream) => {
                stream.peer_addr()?;
            }
            Stream::Unix(stream) => {
                stream.peer_addr()?;
            }
        }
        self.set_nodelay()
    }

    fn take_error(&self) -> io::Result<Option<io::Error>> {
        match self {
            Stream::Tcp(stream) => stream.take_error(),
            Stream::Unix(stream) => stream.take_error(),
        }
    }

    /// Has what is written sent at once, as a Unix socket does in any case.
    pub(crate) fn set_nodelay(&self) -> io::Result<()> {
        match self {
            Stream::Tcp(stream) => stream.set_nodelay(true),
            Stream::Unix(_) => Ok(()),
        }
    }

    /// Reads what has come.
    pub(crate) fn read(&self, buf: &mut [u8]) -> io::Result<usize>
        ensures bound { ReadsAtMost result buf.new }
    {
        match self {
            Stream::Tcp(stream) => (&mut &*stream).read(buf),
            Stream::Unix(stream) => (&mut &*stream).read(buf),
        }
    }

    /// Writes what it takes.
    pub(crate) fn write(&self, buf: &[u8]) -> io::Result<usize>
        ensures bound { WritesAtMost result buf.now }
    {
        match self {
            Stream::Tcp(stream) => (&mut &*stream).write(buf),
            Stream::Unix(stream) => (&mut &*stream).write(buf),
        }
    }
}

impl Source for Stream {
    fn register(
        &mut self,
        registry: &Registry,
        token: Token,
        interests: Interest,
    ) -> io::Result<()> {
        match self {
            Stream::Tcp(stream) => stream.register(registry, token, interests),
            Stream::Unix(stream) => stream.register(registry, token, interests),
        }
    }

    fn reregister(
        &mut self,
        registry: &Registry,
        token: Token,
        interests: Interest,
    ) -> io::Result<()> {
        match self {
            Stream::Tcp(stream) => stream.reregister(registry, token, interests),
            Stream::Unix(stream) => stream.reregister(registry, token, interests),
        }
    }

    fn deregister(&mut self, registry: &Registry) -> io::Result<()> {
        match self {
            Stream::Tcp(stream) => stream.deregister(registry),
            Stream::Unix(stream) => stream.deregister(registry),
        }
    }
}

impl Display for Peer {
    fn fmt<W: fmt::Write>(&self, f: &mut Formatter<W>) -> fmt::Result {
        match self {
            Peer::Ip(address) => write!(f, "{address}"),
            Peer::Unix => f.write_str("unix"),
        }
    }
}
