//! A session from one end to the other.
ghost use Rattle.std.specs.Prelude.{◌≡◌, ◌<◌, ◌≤◌, ◌+◌, [], Some, None, false};
ghost use Rattle.std.specs.Io.KnownBytes.{IsAtEnd};
ghost use Rattle.ovs_wire.specs.Counted.{one_more};
ghost use Rattle.ovs_session.specs.Moving.{Moved, IsBad, kept};
ghost use Rattle.ovs_session.specs.Serving.{IsDone};
ghost use Rattle.ovs_session.specs.Turning.{AreTurns, HasCountedAtMost, with_devices};

use crate::ended::Ended;
use crate::limits::Limits;
use crate::service::Service;
use crate::session::Session;
use crate::turns::turn;
use ovs_wire::Counted;
use std::io::{Read, Write};

/// Serves a session until it ends, by at most so many turns, and says why it stopped. Each turn is one call of a device at
/// most. After `TurnsSpent` and `NoMemory` the session may be served on; after any other end nothing more comes of it.
///
/// `Closed` comes only once the reader is at its end, every message was answered, and nothing that the session asked for is
/// still to come. `TurnsSpent` comes only once so many turns were made, and any other end as by `turn`. But for `WriteFault`
/// and `TurnsSpent` all that was said is written then.
pub fn serve<S: Service, R: Read, W: Write>(
    session: &mut Session<S::Session>,
    service: &mut S,
    reader: &mut Counted<R>,
    writer: &mut Counted<W>,
    limits: Limits,
    most_turns: u32,
) -> Ended
    ensures moved { Moved S.answers S.tells limits.most_unsent (R.remaining reader.old.device) (R.remaining reader.new.device)
        (W.contents writer.old.device) (W.contents writer.new.device) session.old session.new }
    ensures over { (e : _) → session.old.ended ≡ Some e
        → (session.new ≡ session.old) × (reader.new ≡ reader.old) × (writer.new ≡ writer.old) }
    ensures again { (e : _) → session.old.ended ≡ Some e → 0 < most_turns → result ≡ e }
    ensures ends { session.old.ended ≡ None → session.new.ended ≡ kept result }
    ensures closed { session.old.ended ≡ None → session.old.is_at_end ≡ false → result ≡ Ended.Closed
        → IsDone session.new × IsAtEnd (R.remaining reader.new.device) × S.is_answered session.new.state }
    ensures bad { session.old.ended ≡ None → result ≡ Ended.BadInput → IsBad S.refuses session.new }
    ensures written { session.old.ended ≡ None → (result ≡ Ended.WriteFault → ⊥) → (result ≡ Ended.TurnsSpent → ⊥) → session.new.unsent ≡ [] }
    ensures gone { session.old.ended ≡ None → result ≡ Ended.Gone → S.is_gone service.new }
    ensures epoch { session.old.ended ≡ None → result ≡ Ended.Epoch → S.is_over service.new session.new.state }
    ensures read_fault { session.old.ended ≡ None → result ≡ Ended.ReadFault → reader.new.failures ≡ one_more reader.old.failures }
    ensures write_fault { session.old.ended ≡ None → result ≡ Ended.WriteFault → writer.new.failures ≡ one_more writer.old.failures }
    ensures turns { session.old.ended ≡ None → result ≡ Ended.TurnsSpent
        → AreTurns S.answers S.tells S.may_answer S.is_answered S.may_tell limits.most_unsent most_turns
        (with_devices session.old reader.old writer.old) (with_devices session.new reader.new writer.new) }
    ensures counted { HasCountedAtMost most_turns (with_devices session.old reader.old writer.old) (with_devices session.new reader.new writer.new) }
    ensures spent { session.new.counts.turns ≤ session.old.counts.turns + most_turns }
{
    for _turned in 0..most_turns {
        if let Err(ended) = turn(session, service, reader, writer, limits) {
            return ended;
        }
    }
    Ended::TurnsSpent
}
