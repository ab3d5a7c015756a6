//! What a node over sockets needs of the machine.

use std::net::{Net, TcpListener, TcpStream};
use std::sync::Wait;
use std::thread::Threads;

/// Threads, waiting and sockets, as all threads of a node share them.
pub trait NodeRuntime: Threads
    + Wait
    + Net<Listener = TcpListener, Stream = TcpStream>
    + Copy
    + Drop
    + Send
    + Sync {}

impl<
    R: Threads + Wait + Net<Listener = TcpListener, Stream = TcpStream> + Copy + Drop + Send + Sync,
> NodeRuntime for R {}
