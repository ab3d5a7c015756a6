//! A session with its devices.
ghost use Rattle.std.specs.Prelude.{◌≡◌};
ghost use Rattle.ovs_session.specs.Moving.{Moved};
ghost use Rattle.ovs_session.specs.Serving.{fresh};
ghost use Rattle.ovs_session.specs.Turning.{with_devices};
ghost use Rattle.ovs_worker.specs.Slots.{IsLawful, Turned};

use crate::host::SessionHost;
use ovs_session::{Ended, Limits, Session, TurnProgress, turn};
use ovs_wire::Counted;
use std::alloc::Global;
use std::io::{Read, Write};
use std::snapshot::Snapshot;

/// A session with its reader and its writer. Whatever turns it has made, it began as one that its host may begin, and what it
/// read and what it wrote since then belongs together; and where it has ended `Closed`, for `BadInput` or by a fault of a device
/// it did so by right (`IsLawful`): that is a fact of each slot, wherever it lies.
#[derive(Drop)]
pub struct Slot<V: SessionHost, R: Read, W: Write> {
    session: Session<V::Session>,
    reader: Counted<R>,
    writer: Counted<W>,
    limits: Limits,
    began: Snapshot<V::Session>,
    read_from: Snapshot<R>,
    write_to: Snapshot<W>,
    ghost lawful: { ∥ IsLawful V.begins V.answers V.tells V.refuses V.is_answered limits.most_unsent (R.remaining read_from.value) (R.remaining reader.device)
        (W.contents write_to.value) (W.contents writer.device) began.value (with_devices session reader writer) ∥₁ },
}

impl<V: SessionHost, R: Read, W: Write> Slot<V, R, W> {
    /// A session of which nothing was read or said yet. It reads once, and then where it is told that something came
    /// (`note_ready`).
    pub fn new(
        alloc: Global,
        state: V::Session,
        reader: R,
        writer: W,
        limits: Limits,
    ) -> Slot<V, R, W>
        requires begins { V.begins state }
        ensures began { result.began.value ≡ state }
        ensures session { result.session ≡ fresh state }
        ensures reader { result.read_from.value ≡ reader }
        ensures writer { result.write_to.value ≡ writer }
        ensures limits { result.limits ≡ limits }
    {
        let began = Snapshot::of(&state);
        let mut session = Session::new(alloc, state);
        session.read_when_told();
        Slot {
            began,
            read_from: Snapshot::of(&reader),
            write_to: Snapshot::of(&writer),
            session,
            reader: Counted::new(reader),
            writer: Counted::new(writer),
            limits,
        }
    }

    /// The session.
    pub fn session(&self) -> &Session<V::Session>
        ensures value { result.now ≡ self.now.session }
    {
        &self.session
    }

    /// Something may have come for the session: bytes, or behind them its reader's end or failure.
    pub fn note_ready(&mut self, is_read_closed: bool)
        ensures same { self.new ≡ self.old }
    {
        self.session.note_ready(is_read_closed);
    }

    /// One turn of the session, as `turn` of `ovs_session` says. What it began with, and its limits, stay.
    pub fn turn(&mut self, service: &mut V) -> Result<TurnProgress, Ended>
        ensures same { (self.new.began ≡ self.old.began) × (self.new.read_from ≡ self.old.read_from)
            × (self.new.write_to ≡ self.old.write_to) × (self.new.limits ≡ self.old.limits) }
        ensures moved { Moved V.answers V.tells self.old.limits.most_unsent (R.remaining self.old.reader.device) (R.remaining self.new.reader.device)
            (W.contents self.old.writer.device) (W.contents self.new.writer.device) self.old.session self.new.session }
        ensures turned { Turned V.answers V.tells V.refuses V.may_answer V.is_answered (V.is_told service.new) (V.may_tell service.new)
            (V.is_over service.new) (V.is_gone service.new) self.old.limits result (with_devices self.old.session self.old.reader self.old.writer) (with_devices self.new.session self.new.reader self.new.writer) }
    {
        turn(
            &mut self.session,
            service,
            &mut self.reader,
            &mut self.writer,
            self.limits,
        )
    }

    /// Its devices, without the session.
    pub(crate) fn into_devices(self) -> (R, W)
        ensures reader { result.0 ≡ self.reader.device }
        ensures writer { result.1 ≡ self.writer.device }
    {
        let Slot { reader, writer, .. } = self;
        (reader.into_inner(), writer.into_inner())
    }

    /// Ends the session at its host.
    pub fn end(&self, host: &mut V)
        ensures silent { V.is_silent host.new self.now.session.state }
        ensures stays { (other : V.Session) → V.is_silent host.old other → V.is_silent host.new other }
    {
        host.end(self.session.state());
    }
}
