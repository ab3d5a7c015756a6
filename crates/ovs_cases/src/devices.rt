//! Counted devices: what is counted of one that answers an error, and of one that takes nothing.

use crate::case::text;
use crate::case_error::CaseError;
use ovs_wire::Counted;
use serde_json::Value;
use std::alloc::Global;
use std::io::{self, ErrorKind, Read, Write};

/// Answers one kind of error, whatever is asked.
#[derive(Drop)]
struct Failing {
    kind: ErrorKind,
}

impl Read for Failing {
    fn read(&mut self, _buf: &mut [u8]) -> io::Result<usize> {
        Err(self.kind.into())
    }
}

impl Write for Failing {
    fn write(&mut self, _buf: &[u8]) -> io::Result<usize> {
        Err(self.kind.into())
    }

    fn flush(&mut self) -> io::Result<()> {
        Err(self.kind.into())
    }
}

/// Takes nothing.
#[derive(Drop)]
struct Full;

impl Write for Full {
    fn write(&mut self, _buf: &[u8]) -> io::Result<usize> {
        Ok(0)
    }

    fn flush(&mut self) -> io::Result<()> {
        Ok(())
    }
}

// What was counted of a read, a write and a flush, and whether each answered the error.
fn of_failing(alloc: Global, kind: ErrorKind) -> Result<String, CaseError> {
    let mut device = Counted::new(Failing { kind });
    let mut buf = [0; 4];
    let read = device.read(&mut buf).is_err();
    let written = device.write(b"ab").is_err();
    let flushed = device.flush().is_err();
    let calls = device.calls();
    let failures = device.failures();
    Ok(format!(in alloc; "{calls} calls, {failures} failures, errors {read} {written} {flushed}")?)
}

fn of_full(alloc: Global) -> Result<String, CaseError> {
    let mut device = Counted::new(Full);
    let some = matches!(device.write(b"a"), Ok(0));
    let none = matches!(device.write(b""), Ok(0));
    let calls = device.calls();
    let failures = device.failures();
    Ok(format!(in alloc; "{calls} calls, {failures} failures, nothing {some} {none}")?)
}

// Reads of three bytes by two at a time, up to the end.
fn of_bytes(alloc: Global) -> Result<String, CaseError> {
    let mut device = Counted::new(b"abc".as_slice());
    let mut buf = [0; 2];
    let mut told = String::new(alloc);
    for _ in 0..3u8 {
        let len = device.read(&mut buf).map_err(|_| CaseError::Malformed)?;
        let len = format!(in alloc; "{len} ")?;
        told.push_str(len.as_str())?;
    }
    let calls = device.calls();
    let failures = device.failures();
    let left = device.into_inner().len();
    Ok(format!(in alloc; "{told}bytes, {calls} calls, {failures} failures, {left} left")?)
}

/// `["counted", KIND]`: what is counted of a device that answers this kind of error, of one that is `full`, or of
/// `bytes`.
pub(crate) fn counted(alloc: Global, parts: &[Value]) -> Result<String, CaseError> {
    let kind = match text(parts, 1)? {
        "full" => return of_full(alloc),
        "bytes" => return of_bytes(alloc),
        "Interrupted" => ErrorKind::Interrupted,
        "WouldBlock" => ErrorKind::WouldBlock,
        "TimedOut" => ErrorKind::TimedOut,
        "ConnectionReset" => ErrorKind::ConnectionReset,
        "BrokenPipe" => ErrorKind::BrokenPipe,
        "OutOfMemory" => ErrorKind::OutOfMemory,
        "Other" => ErrorKind::Other,
        _ => return Err(CaseError::Malformed),
    };
    of_failing(alloc, kind)
}
