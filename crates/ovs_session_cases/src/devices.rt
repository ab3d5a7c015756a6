//! Devices over memory that pass a part of what is said at a time, and answer an error at some of their calls.

use crate::talks::TalkPart;
use ovs_wire::{Counted, is_passing};
use std::alloc::Global;
use std::io::{self, ErrorKind, Read, Write};
use std::sync::Arc;
use std::sync::atomic::{AtomicBool, AtomicU64, Ordering};

/// The calls of a device that answer an error, by their numbers, from 1 on.
#[derive(Clone, Copy, Debug, PartialEq, Eq)]
pub(crate) enum Calls {
    /// None.
    No,
    /// The one of this number.
    At(u64),
    /// The one of this number, and all that come after it.
    From(u64),
    /// The first, the third, and so on.
    EachOther,
}

impl Calls {
    // Whether the call of this number is one of them.
    fn has(self, number: u64) -> bool {
        match self {
            Calls::No => false,
            Calls::At(call) => number == call,
            Calls::From(first) => number >= first,
            Calls::EachOther => number % 2 == 1,
        }
    }
}

/// One of the two devices of a session.
#[derive(Clone, Copy, Debug, PartialEq, Eq)]
pub(crate) enum DeviceSide {
    Reader,
    Writer,
}

/// How the two devices of a session behave.
#[derive(Clone, Copy)]
pub(crate) struct Manner {
    /// So many bytes pass at most at a call.
    pub(crate) piece: usize,
    /// What is answered at the calls that fail.
    pub(crate) kind: ErrorKind,
    reads: Calls,
    writes: Calls,
}

impl Manner {
    /// No call fails.
    pub(crate) fn new(piece: usize, kind: ErrorKind) -> Manner {
        Manner {
            piece,
            kind,
            reads: Calls::No,
            writes: Calls::No,
        }
    }

    /// Whether what is answered says only that nothing passed for now.
    pub(crate) fn is_passing(self) -> bool {
        is_passing(&self.kind.into())
    }

    /// The same, where these calls of one device fail.
    pub(crate) fn failing(self, side: DeviceSide, calls: Calls) -> Manner {
        match side {
            DeviceSide::Reader => Manner {
                reads: calls,
                ..self
            },
            DeviceSide::Writer => Manner {
                writes: calls,
                ..self
            },
        }
    }

    // What the call of this number answers, of these that fail.
    fn answer(self, calls: Calls, number: u64) -> io::Result<()> {
        if calls.has(number) {
            Err(self.kind.into())
        } else {
            Ok(())
        }
    }
}

/// How far a session had come when a device was called.
#[derive(Clone, Copy, Debug, PartialEq, Eq)]
pub(crate) struct Mark {
    /// So many bytes were written.
    pub(crate) written: u64,
    /// So many links were taken.
    pub(crate) links: u64,
}

/// What is known of the calls of a device.
#[derive(Drop)]
pub(crate) struct Called {
    /// How many they are.
    pub(crate) calls: u64,
    /// How many of them failed.
    pub(crate) failures: u64,
    marks: Vec<Mark>,
}

impl Called {
    /// How far the session had come at the call of this number.
    pub(crate) fn mark(&self, number: u64) -> Option<Mark> {
        let place = (number as usize).checked_sub(1)?;
        self.marks.as_slice().get(place).copied()
    }
}

/// What the two devices of a session know of each other.
#[derive(Drop)]
pub(crate) struct DeviceExchange {
    // How many bytes were written.
    written: AtomicU64,
    // How many links were taken.
    links: AtomicU64,
    // A read found nothing to give: more is to be written first, or it is the end.
    is_waiting: AtomicBool,
}

impl DeviceExchange {
    /// Nothing was read or written yet.
    pub(crate) fn new() -> DeviceExchange {
        DeviceExchange {
            written: AtomicU64::new(0),
            links: AtomicU64::new(0),
            is_waiting: AtomicBool::new(false),
        }
    }

    /// Whether the last read that passed found nothing to give, since more is to be written first, or it is the end.
    pub(crate) fn is_waiting(&self) -> bool {
        self.is_waiting.load(Ordering::SeqCst)
    }

    /// One link more was taken.
    pub(crate) fn note_link(&self) {
        self.links.fetch_add(1, Ordering::SeqCst);
    }

    // Puts behind the marks how far the session has come.
    fn add_mark(&self, marks: &mut Vec<Mark>) -> io::Result<()> {
        let mark = Mark {
            written: self.written.load(Ordering::SeqCst),
            links: self.links.load(Ordering::SeqCst),
        };
        match marks.push(mark) {
            Ok(()) => Ok(()),
            Err(_) => Err(ErrorKind::OutOfMemory.into()),
        }
    }
}

/// Gives the parts of what is said, each once what is to be written before it was.
#[derive(Drop)]
pub(crate) struct Giving<'a> {
    rest: &'a [u8],
    later: &'a [TalkPart],
    manner: Manner,
    calls: u64,
    marks: Vec<Mark>,
    exchange: Arc<DeviceExchange>,
}

impl<'a> Giving<'a> {
    /// Nothing was given yet.
    pub(crate) fn new(
        alloc: Global,
        parts: &'a [TalkPart],
        manner: Manner,
        exchange: Arc<DeviceExchange>,
    ) -> Giving<'a> {
        Giving {
            rest: &[],
            later: parts,
            manner,
            calls: 0,
            marks: Vec::new(alloc),
            exchange,
        }
    }

    // Goes on to the next part, where there is one, and where what is to be written before it was. False where it wasn't.
    fn go_on(&mut self) -> bool {
        let Some((part, later)) = self.later.split_first() else {
            return true;
        };
        if self.exchange.written.load(Ordering::SeqCst) < part.written_before {
            return false;
        }
        self.rest = part.text.as_bytes();
        self.later = later;
        true
    }
}

impl<'a> Read for Giving<'a> {
    fn read(&mut self, buf: &mut [u8]) -> io::Result<usize> {
        self.calls = self.calls.saturating_add(1);
        self.exchange.add_mark(&mut self.marks)?;
        self.manner.answer(self.manner.reads, self.calls)?;
        let has_come = !self.rest.is_empty() || self.go_on();
        let is_waiting = self.rest.is_empty();
        self.exchange.is_waiting.store(is_waiting, Ordering::SeqCst);
        if !has_come {
            return Err(ErrorKind::WouldBlock.into());
        }
        let len = self.manner.piece.min(buf.len());
        self.rest.read(&mut buf[..len])
    }
}

/// Takes what is written.
#[derive(Drop)]
pub(crate) struct TakingDevice {
    bytes: Vec<u8>,
    manner: Manner,
    calls: u64,
    marks: Vec<Mark>,
    exchange: Arc<DeviceExchange>,
}

impl TakingDevice {
    /// Nothing was taken yet.
    pub(crate) fn new(
        alloc: Global,
        manner: Manner,
        exchange: Arc<DeviceExchange>,
    ) -> TakingDevice {
        TakingDevice {
            bytes: Vec::new(alloc),
            manner,
            calls: 0,
            marks: Vec::new(alloc),
            exchange,
        }
    }
}

impl Write for TakingDevice {
    fn write(&mut self, buf: &[u8]) -> io::Result<usize> {
        self.calls = self.calls.saturating_add(1);
        self.exchange.add_mark(&mut self.marks)?;
        self.manner.answer(self.manner.writes, self.calls)?;
        let len = self.manner.piece.min(buf.len());
        if self.bytes.extend_from_slice(&buf[..len]).is_err() {
            return Err(ErrorKind::OutOfMemory.into());
        }
        let written = self.bytes.len() as u64;
        self.exchange.written.store(written, Ordering::SeqCst);
        Ok(len)
    }

    fn flush(&mut self) -> io::Result<()> {
        Ok(())
    }
}

/// What is known of the calls of a reader.
pub(crate) fn called_of_reader(reader: Counted<Giving>) -> Called {
    Called {
        calls: reader.calls(),
        failures: reader.failures(),
        marks: reader.into_inner().marks,
    }
}

/// What was written, and what is known of the calls of the writer.
pub(crate) fn called_of_writer(writer: Counted<TakingDevice>) -> (Vec<u8>, Called) {
    let (calls, failures) = (writer.calls(), writer.failures());
    let TakingDevice { bytes, marks, .. } = writer.into_inner();
    let called = Called {
        calls,
        failures,
        marks,
    };
    (bytes, called)
}
