//! A device whose calls and failures are counted.
ghost use Rattle.std.specs.Prelude.{◌≡◌, if◌then◌else◌};
ghost use Rattle.std.specs.IoError.{error_kind};
ghost use Rattle.std.specs.Io.{ReadsAtMost, WritesAtMost};
ghost use Rattle.std.specs.Io.KnownBytes.{Keeps, ReadConsumes, WriteAppends};
ghost use Rattle.ovs_wire.specs.Counted.{is_passing, is_failed_read, is_failed_write, one_more};

use std::io::{self, ErrorKind, Read, Write};
use std::marker::Model;

/// A reader or writer with the numbers of calls made on it and of those that failed.
///
/// A call is one `read` or one `write`; a `flush` is not counted. A call fails where the device answers an error
/// other than `Interrupted`, `WouldBlock` or `TimedOut`, which say only that nothing passed this time, or where a
/// write passes 0 bytes, also one of an empty buffer. Both counts start at 0 and stay at `u64::MAX` once there.
#[derive(Debug, Drop)]
pub struct Counted<D> {
    device: D,
    calls: u64,
    failures: u64,
}

impl<D> Model for Counted<D> {
    ghost use Rattle.ovs_wire.specs.Counted.{Counting};

    ghost Value = { Counting D };

    ghost view = { λ c. record { device = c.device; calls = c.calls; failures = c.failures } };
}

impl<D> Counted<D> {
    /// A device on which nothing was counted yet.
    pub fn new(device: D) -> Counted<D>
        ensures device { result.device ≡ device }
        ensures calls { result.calls ≡ 0 }
        ensures failures { result.failures ≡ 0 }
    {
        Counted {
            device,
            calls: 0,
            failures: 0,
        }
    }

    /// The number of reads and writes since the beginning.
    pub fn calls(&self) -> u64
        ensures calls { result ≡ self.now.calls }
    {
        self.calls
    }

    /// The number of reads and writes since the beginning that failed.
    pub fn failures(&self) -> u64
        ensures failures { result ≡ self.now.failures }
    {
        self.failures
    }

    /// The device. What is done to it through this reference is not counted.
    pub fn device(&self) -> &D
        ensures device { result.now ≡ self.now.device }
    {
        &self.device
    }

    /// The device again, without its counts.
    pub fn into_inner(self) -> D
        ensures device { result ≡ self.device }
    {
        self.device
    }

    fn count(&mut self, is_failed: bool)
        ensures device { self.new.device ≡ self.old.device }
        ensures calls { self.new.calls ≡ one_more self.old.calls }
        ensures failures { self.new.failures ≡ (if is_failed then one_more self.old.failures else self.old.failures) }
    {
        self.calls = self.calls.saturating_add(1);
        if is_failed {
            self.failures = self.failures.saturating_add(1);
        }
    }
}

/// Whether an error of a device is no failure: it says only that nothing passed this time, so that the call may be
/// made again. It is so for `Interrupted`, `WouldBlock` and `TimedOut`.
pub fn is_passing(error: &io::Error) -> bool
    ensures value { result ≡ is_passing (error_kind error.now) }
{
    matches!(
        error.kind(),
        ErrorKind::Interrupted | ErrorKind::WouldBlock | ErrorKind::TimedOut
    )
}

fn is_failed_read(answer: &io::Result<usize>) -> bool
    ensures value { result ≡ is_failed_read answer.now }
{
    match answer {
        Ok(_) => false,
        Err(error) => !is_passing(error),
    }
}

fn is_failed_write(answer: &io::Result<usize>) -> bool
    ensures value { result ≡ is_failed_write answer.now }
{
    match answer {
        Ok(len) => *len == 0,
        Err(error) => !is_passing(error),
    }
}

impl<D: Read> Read for Counted<D> {
    ghost remaining = { λ c. D.remaining c.device };

    fn read(&mut self, buf: &mut [u8]) -> io::Result<usize>
        ensures bound { ReadsAtMost result buf.new }
        ensures bytes { ReadConsumes (D.remaining self.old.device) (D.remaining self.new.device) result buf.new }
        ensures calls { self.new.calls ≡ one_more self.old.calls }
        ensures failures { self.new.failures
            ≡ (if is_failed_read result then one_more self.old.failures else self.old.failures) }
    {
        let answer = self.device.read(buf);
        self.count(is_failed_read(&answer));
        answer
    }
}

impl<D: Write> Write for Counted<D> {
    ghost contents = { λ c. D.contents c.device };

    fn write(&mut self, buf: &[u8]) -> io::Result<usize>
        ensures bound { WritesAtMost result buf.now }
        ensures bytes { WriteAppends (D.contents self.old.device) (D.contents self.new.device) result buf.now }
        ensures calls { self.new.calls ≡ one_more self.old.calls }
        ensures failures { self.new.failures
            ≡ (if is_failed_write result then one_more self.old.failures else self.old.failures) }
    {
        let answer = self.device.write(buf);
        self.count(is_failed_write(&answer));
        answer
    }

    fn flush(&mut self) -> io::Result<()>
        ensures bytes { Keeps (D.contents self.old.device) (D.contents self.new.device) }
        ensures calls { self.new.calls ≡ self.old.calls }
        ensures failures { self.new.failures ≡ self.old.failures }
    {
        self.device.flush()
    }
}
