//! A reader that keeps why it failed.

use std::io::{self, Read};

/// A reader, with the cause of its last read that failed.
#[derive(Drop)]
pub(crate) struct ErrorKeepingReader<R> {
    reader: R,
    cause: Option<io::Error>,
}

impl<R> ErrorKeepingReader<R> {
    /// No read has failed yet.
    pub(crate) fn new(reader: R) -> ErrorKeepingReader<R> {
        ErrorKeepingReader {
            reader,
            cause: None,
        }
    }

    /// Why the last read failed that did.
    pub(crate) fn cause(&self) -> Option<io::Error> {
        self.cause
    }
}

impl<R: Read> Read for ErrorKeepingReader<R> {
    fn read(&mut self, buf: &mut [u8]) -> io::Result<usize> {
        let read = self.reader.read(buf);
        if let Err(cause) = read {
            self.cause = Some(cause);
        }
        read
    }
}
