//! A session with an upstream from one end to the other.

ghost use Rattle.std.specs.Prelude.{◌≡◌, ◌≤◌, IfSome};
ghost use Rattle.std.specs.Io.KnownBytes.{IsAtEnd};
ghost use Rattle.ovs_links.specs.Sets.{IsOfTables};
ghost use Rattle.ovs_links.specs.declared.link.Link.{Link};
ghost use Rattle.ovs_follow.specs.UpstreamState.{begun};
ghost use Rattle.ovs_follow.specs.Deriving.{SendsFirst, SendsAll};
ghost use Rattle.ovs_follow.specs.Faults.{IsFaultIn};
ghost use Rattle.ovs_follow.specs.UpstreamEnd.{HasFollowed, FaultsOnly};
ghost use Rattle.ovs_follow.specs.Telling.{TellsFirst};

use crate::handler_call::HandlerCall;
use crate::hearing::fault_of_text;
use crate::input_fault::InputFault;
use crate::link_sink::LinkSink;
use crate::upstream_handler::UpstreamHandler;
use crate::upstream_service::UpstreamService;
use crate::upstream_state::UpstreamState;
use ovs_session::{Counts, Ended, Limits, Session, serve};
use ovs_sync::history::GhostList;
use ovs_upstream::UpSession;
use ovs_wire::Counted;
use std::alloc::Global;
use std::io::{Read, Write};

/// What is left of a session with an upstream after its end.
#[derive(Drop)]
pub struct UpstreamEnd<S: LinkSink, D: UpstreamHandler + Drop> {
    /// Where its links went.
    pub sink: S,
    /// The handler.
    pub source: D,
    /// Its calls of that handler before its end. Only proofs see it.
    pub made: GhostList<HandlerCall>,
    /// What it has counted.
    pub counts: Counts,
    /// Why it ended.
    pub ended: Ended,
    /// What was wrong with what the upstream said, where it ended with `BadInput`; `None` also where there was no memory to look at it
    /// again.
    pub fault: Option<InputFault>,
}

// The same without the handler.
#[derive(Drop)]
struct UpstreamResult<S: LinkSink> {
    sink: S,
    made: GhostList<HandlerCall>,
    counts: Counts,
    ended: Ended,
    fault: Option<InputFault>,
}

// What was wrong with what the upstream said, where a session ended for that.
#[tactic(auto, using(crate::proofs::Faults::fault_of_held))]
fn fault_of<S: LinkSink>(
    alloc: Global,
    session: &Session<UpstreamState<S>>,
    ended: Ended,
) -> Option<InputFault>
    ensures fault { IfSome result (λ fault. (ended ≡ Ended.BadInput) × IsFaultIn session.now fault) }
{
    if ended != Ended::BadInput {
        return None;
    }
    match session.held() {
        Some(text) => fault_of_text(alloc, session.state().up(), text),
        None => Some(InputFault::Stream(session.fault()?)),
    }
}

// Serves a session that hasn't begun.
fn serve_new<S: LinkSink, D: UpstreamHandler + Drop, R: Read, W: Write>(
    alloc: Global,
    up: UpSession,
    sink: S,
    service: &mut UpstreamService<S, D>,
    reader: &mut Counted<R>,
    writer: &mut Counted<W>,
    most_bytes: usize,
    limits: Limits,
    most_turns: u32,
) -> UpstreamResult<S>
    requires takes { (l : Link) → IsOfTables up.schema.description.tables l → S.takes l }
    ensures followed { HasFollowed D.refuses (begun up (S.sent sink)) most_bytes limits.most_unsent (R.remaining reader.old.device) (R.remaining reader.new.device)
        (W.contents writer.old.device) (W.contents writer.new.device) result.ended result.counts (S.sent result.sink) result.made result.fault }
    ensures faults { FaultsOnly result.ended reader.old.failures reader.new.failures writer.old.failures writer.new.failures }
    ensures spent { result.counts.turns ≤ most_turns }
{
    let state = UpstreamState::new(up, sink);
    let mut session = Session::with_limit(alloc, most_bytes, state);
    let ended = serve(&mut session, service, reader, writer, limits, most_turns);
    let counts = session.counts();
    let fault = fault_of(alloc, &session, ended);
    let (sink, made) = session.into_state().into_parts();
    UpstreamResult {
        sink,
        made,
        counts,
        ended,
        fault,
    }
}

/// Follows an upstream for one session, by at most so many turns of one call of a device each: asks it for the schema (RFC 7047 section 4.1.2), then for
/// all that comes after the id with which the session was opened, sends the links that it makes of what the upstream says to a sink, and passes on
/// what is asked of the source. A message of the upstream may have `most_bytes`. At its end the source is lost.
///
/// Over a reader that tells its bytes, the links that it sends are the first of those that are derived from these bytes, and
/// all of them where it ended `Closed`, which it does only at its reader's end; and of what these bytes tell the handler the first
/// was told it, in order, each once. The requests that the handler gave it were said, each once and in order, but for one that may have
/// waited for memory (`following_laws`).
///
/// - `Closed`: the reader is at its end, all that was read is heard, and all that was said is written.
/// - `BadInput`: the upstream's bytes have a fault, or a message is none, or is refused by the session (`UpError` of
///   `ovs_upstream`), or the handler refuses a reply; `fault` says which.
/// - `ReadFault`, `WriteFault`: the last call of the device failed, and was counted as a failure.
/// - `TurnsSpent`, `NoMemory`.
pub fn follow_upstream<S: LinkSink, D: UpstreamHandler + Drop, R: Read, W: Write>(
    alloc: Global,
    up: UpSession,
    sink: S,
    source: D,
    reader: &mut Counted<R>,
    writer: &mut Counted<W>,
    most_bytes: usize,
    limits: Limits,
    most_turns: u32,
) -> UpstreamEnd<S, D>
    requires takes { (l : Link) → IsOfTables up.schema.description.tables l → S.takes l }
    ensures followed { HasFollowed D.refuses (begun up (S.sent sink)) most_bytes limits.most_unsent (R.remaining reader.old.device) (R.remaining reader.new.device)
        (W.contents writer.old.device) (W.contents writer.new.device) result.ended result.counts (S.sent result.sink) result.made result.fault }
    ensures sent { IfSome (R.remaining reader.old.device) (λ bytes. SendsFirst most_bytes up bytes (S.sent sink) (S.sent result.sink)) }
    ensures closed { result.ended ≡ Ended.Closed → IsAtEnd (R.remaining reader.new.device)
        × IfSome (R.remaining reader.old.device) (λ bytes. SendsAll most_bytes up bytes (S.sent sink) (S.sent result.sink)) }
    ensures told { IfSome (R.remaining reader.old.device) (λ bytes. TellsFirst most_bytes up bytes result.made) }
    ensures lost { (before : D) × D.loses before result.source }
    ensures faults { FaultsOnly result.ended reader.old.failures reader.new.failures writer.old.failures writer.new.failures }
    ensures spent { result.counts.turns ≤ most_turns }
{
    let mut service = UpstreamService::new(alloc, source);
    let served = serve_new(
        alloc,
        up,
        sink,
        &mut service,
        reader,
        writer,
        most_bytes,
        limits,
        most_turns,
    );
    let mut source = service.into_source();
    source.on_disconnected();
    UpstreamEnd {
        sink: served.sink,
        source,
        made: served.made,
        counts: served.counts,
        ended: served.ended,
        fault: served.fault,
    }
}
