//! A client of a node.

use crate::node_case_error::NodeCaseError;
use ovs_wire::{Framer, Message};
use std::alloc::Global;
use std::io::{Read, Write};
use std::net::{Net, SocketAddr, TcpStream};

const MOST_READS: u32 = 100_000;

/// A client that asks one thing after another.
#[derive(Drop)]
pub(crate) struct RequestClient {
    alloc: Global,
    stream: TcpStream,
    framer: Framer,
}

impl RequestClient {
    /// Of the node at this address.
    pub(crate) fn connect<R: Net<Stream = TcpStream>>(
        rt: &R,
        alloc: Global,
        address: SocketAddr,
    ) -> Result<RequestClient, NodeCaseError> {
        Ok(RequestClient {
            alloc,
            stream: TcpStream::connect(rt, address)?,
            framer: Framer::new(alloc),
        })
    }

    /// What the node answers to a transaction of one operation (RFC 7047 section 4.1.3), as text.
    pub(crate) fn transact(&mut self, operation: &str) -> Result<String, NodeCaseError> {
        let request = format!(in self.alloc;
            r#"{{"method":"transact","params":["net",{operation}],"id":0}}"#
        )?;
        self.stream.write_all(request.as_bytes())?;
        match self.next_message()? {
            Message::Reply { result, .. } => Ok(result.as_value().to_string(self.alloc)?),
            _ => Err(NodeCaseError::Garbled),
        }
    }

    fn next_message(&mut self) -> Result<Message, NodeCaseError> {
        let mut bytes = [0u8; 4_096];
        for _ in 0..MOST_READS {
            if let Some(text) = self.framer.next() {
                return Message::read(self.alloc, text).or(Err(NodeCaseError::Garbled));
            }
            let count = self.stream.read(&mut bytes)?;
            if count == 0 {
                return Err(NodeCaseError::Disconnected);
            }
            if self.framer.feed(&bytes[..count]).is_err() {
                return Err(NodeCaseError::Garbled);
            }
        }
        Err(NodeCaseError::Disconnected)
    }
}
