//! A session: bytes in, texts out.
ghost use Rattle.std.specs.Prelude.{◌≡◌, ◌≤◌, ◌<◌, ◌+◌, ◌⊎◌, ◌||◌, ◌++◌, ◌↔◌, ℕ, List, [], Some, None, Ok, Err, Bool, true, false, IsTrue, IfErr, IfOk, IfSome, OnOk, OnErr, length, vec_len, vec_capacity};
ghost use Rattle.std.specs.Io.KnownBytes.{Consumes, Appends, IsAtEnd};
ghost use Rattle.ovs_wire.specs.Counted.{one_more};
ghost use Rattle.ovs_wire.specs.Framing.{Framing, Feeds};
ghost use Rattle.ovs_session.specs.Counting.{HasCalled, HasWritten};
ghost use Rattle.ovs_session.specs.Moving.{is_end, is_fault, ended_by, fault_in};
ghost use Rattle.ovs_session.specs.Serving.{SessionValue, Holds, fresh, fresh_within};
ghost use Rattle.ovs_session.specs.Turning.{IsCalled, IsUncalled, CountsFault};

mod answering;

use crate::counts::Counts;
use crate::ended::Ended;
use crate::inbox::{Inbox, MessageBytes};
use crate::outbox::Outbox;
use crate::read_outcome::ReadOutcome;
use crate::reading::Reading;
use crate::reserved::append_reserved;
pub(crate) use answering::{answer_held, tell_new};
use ovs_json::NoMemory;
use ovs_wire::{Counted, FrameError, MAX_MESSAGE_BYTES, is_passing};
use std::alloc::Global;
use std::io::{ErrorKind, Read, Write};
use std::marker::Model;

/// How many bytes a read asks for.
const READ_BYTES: usize = 4096;

// Reads once, behind bytes that have the room for it.
fn read_behind<R: Read>(bytes: &mut Vec<u8>, reader: &mut Counted<R>) -> Result<ReadOutcome, Ended>
    requires room { vec_len bytes.old + 4096 ≤ vec_capacity bytes.old }
    ensures read { (bytes_read : List ℕ) × Consumes (R.remaining reader.old.device) (R.remaining reader.new.device) bytes_read
        × (bytes.new.items ≡ bytes.old.items ++ bytes_read) }
    ensures end { IfOk result (λ outcome. is_end outcome ≡ true → IsAtEnd (R.remaining reader.new.device)) }
    ensures nothing { result ≡ Ok ReadOutcome.Nothing → bytes.new.items ≡ bytes.old.items }
    ensures fault { IfErr result (λ e. e ≡ Ended.ReadFault) }
    ensures called { reader.new.calls ≡ one_more reader.old.calls }
    ensures faults { CountsFault Ended.ReadFault result reader.old.failures reader.new.failures }
{
    let mut piece = [0u8; READ_BYTES];
    match reader.read(&mut piece) {
        Ok(0) => Ok(ReadOutcome::End),
        Ok(count) => {
            append_reserved(bytes, &piece[..count]);
            Ok(if count < READ_BYTES {
                ReadOutcome::Part
            } else {
                ReadOutcome::Whole
            })
        }
        Err(error) if error.kind() == ErrorKind::Interrupted => Ok(ReadOutcome::Interrupted),
        Err(error) if is_passing(&error) => Ok(ReadOutcome::Nothing),
        Err(_) => Err(Ended::ReadFault),
    }
}

/// A session with a peer: what was read and not framed yet, what was framed and isn't answered yet, what its service knows of
/// it, and what was said and isn't written yet. A contract sees it as a `SessionValue`.
#[derive(Drop)]
pub struct Session<C> {
    unfed: Vec<u8>,
    inbox: Inbox,
    held: Option<MessageBytes>,
    state: C,
    outbox: Outbox,
    is_at_end: bool,
    // No contract sees it, since a reader that passes nothing for now says the same.
    reading: Reading,
    counts: Counts,
    ended: Option<Ended>,
}

impl<C> Model for Session<C> {
    ghost use Rattle.ovs_session.specs.Serving.{SessionValue};

    ghost Value = { SessionValue C };

    ghost view = { λ s. record {
      unfed = s.unfed.items;
      framing = s.inbox;
      held = s.held;
      state = s.state;
      unsent = s.outbox;
      is_at_end = s.is_at_end;
      counts = s.counts;
      ended = s.ended;
    } };
}

impl<C> Session<C> {
    /// A session of which nothing was read or said yet. A message of its peer may have `MAX_MESSAGE_BYTES`.
    pub fn new(alloc: Global, state: C) -> Session<C>
        ensures fresh { result ≡ fresh state }
    {
        Session::with_limit(alloc, MAX_MESSAGE_BYTES, state)
    }

    /// A session of which nothing was read or said yet. A message of its peer may have `most_bytes`.
    pub fn with_limit(alloc: Global, most_bytes: usize, state: C) -> Session<C>
        ensures fresh { result ≡ fresh_within most_bytes state }
    {
        Session {
            unfed: Vec::new(alloc),
            inbox: Inbox::new(alloc, most_bytes),
            held: None,
            state,
            outbox: Outbox::new(alloc),
            is_at_end: false,
            reading: Reading::Always,
            counts: Counts {
                turns: 0,
                messages: 0,
                bytes_out: 0,
            },
            ended: None,
        }
    }

    /// From now on it reads only where it is told that something came (`note_ready`), and until it has read that. This is for
    /// a reader that doesn't wait, and gets fewer bytes than it asks for only where it has no more.
    pub fn read_when_told(&mut self)
        ensures same { self.new ≡ self.old }
    {
        self.reading = Reading::UntilPart;
    }

    /// Something may have come: bytes, or behind them the reader's end or its failure.
    pub fn note_ready(&mut self, is_read_closed: bool)
        ensures same { self.new ≡ self.old }
    {
        self.reading = self.reading.when_told(is_read_closed);
    }

    /// Whether something may have come that isn't read yet.
    pub(crate) fn may_read(&self) -> bool {
        self.reading.is_now()
    }

    /// What its service knows of it.
    pub fn state(&self) -> &C
        ensures value { result.now ≡ self.now.state }
    {
        &self.state
    }

    /// What its service knows of it, without the session.
    pub fn into_state(self) -> C
        ensures value { result ≡ self.state }
    {
        let Session { state, .. } = self;
        state
    }

    /// What it has counted.
    pub fn counts(&self) -> Counts
        ensures value { result ≡ self.now.counts }
    {
        self.counts
    }

    /// Why it has ended for good, if it has.
    pub fn ended(&self) -> Option<Ended>
        ensures value { result ≡ self.now.ended }
    {
        self.ended
    }

    /// How many bytes were said and aren't written yet.
    pub fn unsent(&self) -> usize
        ensures value { result ≡ length self.now.unsent }
    {
        self.outbox.len()
    }

    /// Whether all that was read is fed.
    pub(crate) fn is_fed(&self) -> bool
        ensures value { IsTrue result ↔ (self.now.unfed ≡ []) }
    {
        self.unfed.is_empty()
    }

    /// Whether a read found the reader's end.
    pub(crate) fn is_at_end(&self) -> bool
        ensures value { result ≡ self.now.is_at_end }
    {
        self.is_at_end
    }

    /// The message that was taken out of its peer's stream and isn't answered yet, if there is one.
    pub fn held(&self) -> Option<&[u8]>
        ensures some { IfSome result (λ message. self.now.held ≡ Some message.now) }
    {
        Some(self.held.as_ref()?.as_slice())
    }

    /// The fault that its peer's stream has, if it has one; never `NoMemory`. Behind it nothing more is answered.
    pub fn fault(&self) -> Option<FrameError>
        ensures value { result ≡ fault_in self.now.framing.ending }
    {
        self.inbox.fault()
    }

    /// Whether the stream has a fault.
    pub(crate) fn has_fault(&self) -> bool
        ensures value { result ≡ is_fault self.now.framing.ending }
    {
        self.inbox.has_fault()
    }

    /// Reads once, into the bytes that are to be fed.
    ///
    /// `ReadFault` where the read failed. `NoMemory`: nothing was read.
    pub(crate) fn read_once<R: Read>(
        &mut self,
        reader: &mut Counted<R>,
    ) -> Result<ReadOutcome, Ended>
        ensures read { (bytes_read : List ℕ) × Consumes (R.remaining reader.old.device) (R.remaining reader.new.device) bytes_read
            × (self.new ≡ record self.old { unfed = self.old.unfed ++ bytes_read; counts = self.new.counts }) }
        ensures counted { HasCalled self.old.counts self.new.counts }
        ensures end { IfOk result (λ outcome. is_end outcome ≡ true → IsAtEnd (R.remaining reader.new.device)) }
        ensures nothing { result ≡ Ok ReadOutcome.Nothing → self.new.unfed ≡ self.old.unfed }
        ensures fault { IfErr result (λ e. (e ≡ Ended.ReadFault) ⊎ (e ≡ Ended.NoMemory)) }
        ensures called { (result ≡ Err Ended.NoMemory → ⊥) → IsCalled reader.old reader.new self.old.counts self.new.counts }
        ensures uncalled { result ≡ Err Ended.NoMemory → IsUncalled reader.old reader.new self.old.counts self.new.counts }
        ensures faults { CountsFault Ended.ReadFault result reader.old.failures reader.new.failures }
    {
        if self.unfed.reserve(READ_BYTES).is_err() {
            return Err(Ended::NoMemory);
        }
        self.counts.add_turn();
        read_behind(&mut self.unfed, reader)
    }

    /// Keeps that a read found the end, where it did, and whether there may be more to read.
    pub(crate) fn note_read(&mut self, outcome: ReadOutcome)
        ensures value { self.new ≡ record self.old { is_at_end = self.old.is_at_end || is_end outcome } }
    {
        self.is_at_end = self.is_at_end || outcome.is_end();
        self.reading = self.reading.after(outcome);
    }

    /// Feeds the framer what was read, where no message waits. After `NoMemory` nothing has changed.
    pub(crate) fn feed(&mut self) -> Result<(), NoMemory>
        requires none { self.old.framing.waiting ≡ [] }
        ensures fed { OnOk result ((framing : Framing) × Feeds self.old.framing self.old.unfed framing
            × (self.new ≡ record self.old { unfed = []; framing = framing })) }
        ensures unchanged { OnErr result (self.new ≡ self.old) }
    {
        self.inbox.feed(&self.unfed)?;
        self.unfed.clear();
        Ok(())
    }

    /// Takes the next message out of the framer, where none is held; `false` where there is none. After `NoMemory`
    /// nothing has changed.
    pub(crate) fn hold(&mut self) -> Result<bool, NoMemory>
        ensures held { (self.new ≡ self.old) ⊎ Holds self.old self.new }
        ensures none { result ≡ Ok false → (self.new ≡ self.old) × (self.old.held ≡ None) × (self.old.framing.waiting ≡ []) }
        ensures some { result ≡ Ok true → (message : List ℕ) × (self.new.held ≡ Some message) }
    {
        if self.held.is_some() {
            return Ok(true);
        }
        let alloc = *self.unfed.allocator();
        match self.inbox.take(alloc)? {
            Some(message) => {
                self.held = Some(message);
                self.counts.add_message();
                Ok(true)
            }
            None => Ok(false),
        }
    }

    /// Writes once. Whether bytes passed.
    ///
    /// `WriteFault`, its only error.
    pub(crate) fn write_once<W: Write>(&mut self, writer: &mut Counted<W>) -> Result<bool, Ended>
        ensures written { (bytes_written rest : List ℕ) × Appends (W.contents writer.old.device) (W.contents writer.new.device) bytes_written
            × (self.old.unsent ≡ bytes_written ++ rest)
            × (self.new ≡ record self.old { unsent = rest; counts = self.new.counts })
            × HasWritten (length bytes_written) self.old.counts self.new.counts }
        ensures nothing { result ≡ Ok false → self.new.unsent ≡ self.old.unsent }
        ensures some { result ≡ Ok true → length self.new.unsent < length self.old.unsent }
        ensures fault { IfErr result (λ e. e ≡ Ended.WriteFault) }
        ensures called { IsCalled writer.old writer.new self.old.counts self.new.counts }
        ensures faults { CountsFault Ended.WriteFault result writer.old.failures writer.new.failures }
    {
        self.counts.add_turn();
        let count = self.outbox.write_once(writer)?;
        self.counts.add_bytes(count);
        Ok(count > 0)
    }

    /// Keeps why it has ended for good, where it has.
    pub(crate) fn note<T>(&mut self, turned: &Result<T, Ended>)
        ensures value { self.new ≡ record self.old { ended = ended_by turned.now } }
    {
        self.ended = match turned {
            Err(ended) if ended.is_final() => Some(*ended),
            _ => None,
        };
    }
}
