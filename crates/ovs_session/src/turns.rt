//! A session's turn.
ghost use Rattle.std.specs.Prelude.{◌≡◌, ◌<◌, ◌⊎◌, [], Some, None, Ok, Err, length};
ghost use Rattle.ovs_session.specs.Counting.{SpendsAtMost};
ghost use Rattle.ovs_session.specs.Moving.{Moved, IsAnswer, IsBad, ended_by};
ghost use Rattle.ovs_session.specs.Serving.{IsDone, IsIdle};
ghost use Rattle.ovs_session.specs.Turning.{IsTurn, CountsFault, with_devices};

use crate::ended::Ended;
use crate::limits::{Limits, TurnProgress};
use crate::service::Service;
use crate::session::Session;
use crate::steps::{answer_and_tell, exchange};
use ovs_wire::Counted;
use std::io::{Read, Write};

// A turn of a session that hasn't ended.
fn go_on<S: Service, R: Read, W: Write>(
    session: &mut Session<S::Session>,
    service: &mut S,
    reader: &mut Counted<R>,
    writer: &mut Counted<W>,
    limits: Limits,
) -> Result<TurnProgress, Ended>
    ensures moved { Moved S.answers S.tells limits.most_unsent (R.remaining reader.old.device) (R.remaining reader.new.device)
        (W.contents writer.old.device) (W.contents writer.new.device) session.old session.new }
    ensures closed { result ≡ Err Ended.Closed → IsDone session.new × S.is_answered session.new.state }
    ensures idle { result ≡ Ok TurnProgress.Idle → IsIdle S.may_answer S.is_answered session.new }
    ensures bad { result ≡ Err Ended.BadInput → IsBad S.refuses session.new × S.is_answered session.new.state }
    ensures written { (e : _) → result ≡ Err e → (e ≡ Ended.WriteFault → ⊥) → session.new.unsent ≡ [] }
    ensures told { result ≡ Ok TurnProgress.Idle → S.is_told service.new session.new.state ⊎ (0 < length session.new.unsent) }
    ensures gone { result ≡ Err Ended.Gone → S.is_gone service.new }
    ensures epoch { result ≡ Err Ended.Epoch → S.is_over service.new session.new.state }
    ensures unspent { result ≡ Err Ended.TurnsSpent → ⊥ }
    ensures turned { IsTurn S.answers S.tells S.may_answer S.is_answered (S.may_tell service.new) limits.most_unsent result
        (with_devices session.old reader.old writer.old) (with_devices session.new reader.new writer.new) }
    ensures read_faults { CountsFault Ended.ReadFault result reader.old.failures reader.new.failures }
    ensures write_faults { CountsFault Ended.WriteFault result writer.old.failures writer.new.failures }
    ensures spent { SpendsAtMost 1 limits.messages session.old.counts session.new.counts }
{
    let left = answer_and_tell(session, service, limits);
    exchange(session, service, reader, writer, left)
}

/// One turn of a session: it answers the messages that are whole, as long as the service takes them, tells what is new, and then
/// calls one device at most. It writes where something is to be written, and else it reads where no message is left to be
/// answered and something may have come. While the limit of bytes or more wait to be written, it only writes.
///
/// Where it isn't idle it did something, or the service has more to tell, or takes messages again: see `IsTurn`.
///
/// What it reads, answers, tells and writes belongs together, and so do several turns: see `Moved`. An error comes only once
/// all that was said is written, or a write failed: whatever stops the session, a turn with something to write writes, and a
/// later one finds the same again; nothing is told where an answer was refused, but what was asked before. An error that is final is kept:
/// every later turn answers it again, and nothing more is read or written.
///
/// - `Closed`: the reader is at its end, every message was answered, and nothing that the session asked for is still to come.
///   While something is, the turn is idle.
/// - `BadInput`: the stream has a fault, and the messages before it are answered; or the service refuses the message that is
///   held; and nothing that the session asked for is still to come. While something is, the turn is idle.
/// - `ReadFault`, `WriteFault`: the call of the device failed, which it counts. That nothing passed for now is no failure.
/// - `Gone`: the service says that what it answers from is gone.
/// - `Epoch`: the service says that what it answers from began anew.
/// - `NoMemory`: nothing is lost. What was read is kept, a message that was taken stays held, and the turn may be made again.
pub fn turn<S: Service, R: Read, W: Write>(
    session: &mut Session<S::Session>,
    service: &mut S,
    reader: &mut Counted<R>,
    writer: &mut Counted<W>,
    limits: Limits,
) -> Result<TurnProgress, Ended>
    ensures moved { Moved S.answers S.tells limits.most_unsent (R.remaining reader.old.device) (R.remaining reader.new.device)
        (W.contents writer.old.device) (W.contents writer.new.device) session.old session.new }
    ensures over { (e : _) → session.old.ended ≡ Some e
        → (result ≡ Err e) × (session.new ≡ session.old) × (reader.new ≡ reader.old) × (writer.new ≡ writer.old) }
    ensures ends { session.old.ended ≡ None → session.new.ended ≡ ended_by result }
    ensures answer { session.old.ended ≡ None → IsAnswer S.refuses S.may_answer S.is_answered (S.is_told service.new) (S.is_over service.new)
        (S.is_gone service.new) result session.new }
    ensures turned { session.old.ended ≡ None → IsTurn S.answers S.tells S.may_answer S.is_answered (S.may_tell service.new) limits.most_unsent result
        (with_devices session.old reader.old writer.old) (with_devices session.new reader.new writer.new) }
    ensures read_faults { session.old.ended ≡ None → CountsFault Ended.ReadFault result reader.old.failures reader.new.failures }
    ensures write_faults { session.old.ended ≡ None → CountsFault Ended.WriteFault result writer.old.failures writer.new.failures }
    ensures spent { SpendsAtMost 1 limits.messages session.old.counts session.new.counts }
{
    if let Some(ended) = session.ended() {
        return Err(ended);
    }
    let turned = go_on(session, service, reader, writer, limits);
    session.note(&turned);
    turned
}
