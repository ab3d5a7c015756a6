//! A reader's connection.

use crate::shutdown::ShutdownFlag;
use crate::stream::Stream;
use crate::timed_out::has_timed_out;
use std::io::{self, ErrorKind, Read, Write};
use std::sync::Arc;

/// One direction of a reader's connection, which doesn't wait. Once all is to end nothing comes in and nothing goes out.
#[derive(Drop)]
pub struct Half {
    stream: Arc<Stream>,
    shutdown_flag: ShutdownFlag,
}

impl Half {
    pub(crate) fn new(stream: Arc<Stream>, shutdown_flag: ShutdownFlag) -> Half {
        Half {
            stream,
            shutdown_flag,
        }
    }
}

impl Read for Half {
    fn read(&mut self, buf: &mut [u8]) -> io::Result<usize> {
        if self.shutdown_flag.is_asked() {
            return Ok(0);
        }
        match self.stream.read(buf) {
            Err(error) if has_timed_out(&error) => Err(ErrorKind::ConnectionAborted.into()),
            read => read,
        }
    }
}

impl Write for Half {
    fn write(&mut self, buf: &[u8]) -> io::Result<usize> {
        if self.shutdown_flag.is_asked() {
            return Err(ErrorKind::BrokenPipe.into());
        }
        match self.stream.write(buf) {
            Err(error) if has_timed_out(&error) => Err(ErrorKind::ConnectionAborted.into()),
            written => written,
        }
    }

    fn flush(&mut self) -> io::Result<()> {
        Ok(())
    }
}
