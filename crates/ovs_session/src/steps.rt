//! The steps of a turn.
ghost use Rattle.std.specs.Prelude.{◌≡◌, ◌<◌, ◌≤◌, ◌⊎◌, ℕ, List, [], Option, Some, None, Ok, Err, true, false, IfErr, IfOk, IsOkAnd, OnOk, length};
ghost use Rattle.ovs_session.specs.Counting.{SpendsAtMost};
ghost use Rattle.ovs_session.specs.Moving.{Moved, IsBad, IsRefusal, is_fault};
ghost use Rattle.ovs_session.specs.Serving.{Worked, Waits, IsDone, IsIdle};
ghost use Rattle.ovs_session.specs.Turning.{IsCalled, IsUncalled, CountsFault, IsExchange, HasPassed, HasAnswered, with_devices};
ghost use Rattle.ovs_session.specs.Working.{MayGoOn, GoesOn};

use crate::ended::Ended;
use crate::limits::{Limits, TurnProgress};
use crate::read_outcome::ReadOutcome;
use crate::service::Service;
use crate::session::{Session, answer_held, tell_new};
use ovs_wire::Counted;
use std::io::{Read, Write};

/// What is left of the messages at hand once a turn has answered those that it may.
#[derive(Debug, Clone, Copy, PartialEq, Eq)]
pub(crate) enum Left {
    /// None.
    Nothing,
    /// Maybe some, before which the turn's limits stopped it.
    More,
    /// Maybe some, and the service takes none now.
    Untaken,
    /// One that the service refuses, before which something was asked that is still to come.
    Refused,
    /// Maybe some, and the service has more to tell.
    Untold,
}

/// Answers messages, while the service takes them and what waits to be written is below the limit.
pub(crate) fn answer_all<S: Service>(
    session: &mut Session<S::Session>,
    service: &mut S,
    limits: Limits,
) -> Result<Left, Ended>
    ensures worked { Worked S.answers S.tells limits.most_unsent session.old session.new }
    ensures none { result ≡ Ok Left.Nothing → (session.new.held ≡ None) × (session.new.framing.waiting ≡ []) }
    ensures spent { SpendsAtMost 0 limits.messages session.old.counts session.new.counts }
    ensures refused { IfErr result (λ e. IsRefusal e) }
    ensures bad { result ≡ Err Ended.BadInput → (m : List ℕ) × (session.new.held ≡ Some m) × S.refuses session.new.state m }
    ensures never { (result ≡ Ok Left.Refused → ⊥) × (result ≡ Ok Left.Untold → ⊥) }
    ensures more { result ≡ Ok Left.More → (0 < length session.new.unsent) ⊎ HasAnswered session.old session.new }
    ensures untaken { result ≡ Ok Left.Untaken → S.may_answer session.new.state → ⊥ }
    ensures gone { result ≡ Err Ended.Gone → S.is_gone service.new }
    ensures epoch { result ≡ Err Ended.Epoch → S.is_over service.new session.new.state }
{
    for _answered in 0..limits.messages {
        if session.unsent() >= limits.most_unsent {
            return Ok(Left::More);
        }
        if !service.takes(session.state()) {
            return Ok(Left::Untaken);
        }
        if !session.hold()? {
            return Ok(Left::Nothing);
        }
        answer_held(session, service)?;
    }
    Ok(Left::More)
}

// Tells what is new, where what waits to be written is below the limit.
fn tell_below<S: Service>(
    session: &mut Session<S::Session>,
    service: &mut S,
    limits: Limits,
) -> Result<TurnProgress, Ended>
    ensures worked { Worked S.answers S.tells limits.most_unsent session.old session.new }
    ensures rest { session.new ≡ record session.old { state = session.new.state; unsent = session.new.unsent } }
    ensures refused { IfErr result (λ e. IsRefusal e × (e ≡ Ended.BadInput → ⊥)) }
    ensures told { result ≡ Ok TurnProgress.Idle → S.is_told service.new session.new.state ⊎ (0 < length session.new.unsent) }
    ensures more { result ≡ Ok TurnProgress.Busy → S.may_tell service.new session.new.state }
    ensures grows { length session.old.unsent ≤ length session.new.unsent }
    ensures some { OnOk result ((0 < length session.new.unsent) ⊎ ((said : List ℕ) × S.tells session.old.state said session.new.state)) }
    ensures gone { result ≡ Err Ended.Gone → S.is_gone service.new }
    ensures epoch { result ≡ Err Ended.Epoch → S.is_over service.new session.new.state }
{
    let is_full = limits.most_unsent <= session.unsent();
    if is_full {
        return Ok(TurnProgress::Idle);
    }
    tell_new(session, service)
}

/// Answers the messages at hand, and tells what is new, each as far as the limits and the service let it. Nothing is told
/// where no answer could be given, but for what was asked before a message that is refused.
pub(crate) fn answer_and_tell<S: Service>(
    session: &mut Session<S::Session>,
    service: &mut S,
    limits: Limits,
) -> Result<Left, Ended>
    ensures worked { Worked S.answers S.tells limits.most_unsent session.old session.new }
    ensures none { result ≡ Ok Left.Nothing → (session.new.held ≡ None) × (session.new.framing.waiting ≡ []) }
    ensures spent { SpendsAtMost 0 limits.messages session.old.counts session.new.counts }
    ensures refused { IfErr result (λ e. IsRefusal e) }
    ensures bad { result ≡ Err Ended.BadInput → (m : List ℕ) × (session.new.held ≡ Some m) × S.refuses session.new.state m }
    ensures quiet { result ≡ Err Ended.BadInput → S.is_answered session.new.state }
    ensures held { result ≡ Ok Left.Refused → (m : List ℕ) × (session.new.held ≡ Some m) }
    ensures busy { IfOk result (λ left. MayGoOn S.tells S.may_answer S.is_answered (S.may_tell service.new) left session.old session.new) }
    ensures told { IfOk result (λ left. (left ≡ Left.Untold) ⊎ S.is_told service.new session.new.state ⊎ (0 < length session.new.unsent)) }
    ensures gone { result ≡ Err Ended.Gone → S.is_gone service.new }
    ensures epoch { result ≡ Err Ended.Epoch → S.is_over service.new session.new.state }
{
    match answer_all(session, service, limits) {
        Ok(left) => match tell_below(session, service, limits)? {
            TurnProgress::Idle => Ok(left),
            TurnProgress::Busy => Ok(Left::Untold),
        },
        // What it asked before is answered first.
        Err(Ended::BadInput) if service.awaits(session.state()) => {
            match tell_below(session, service, limits)? {
                TurnProgress::Idle => Ok(Left::Refused),
                TurnProgress::Busy => Ok(Left::Untold),
            }
        }
        Err(ended) => Err(ended),
    }
}

// Writes once.
fn send<S: Service, W: Write>(
    session: &mut Session<S::Session>,
    _service: &S,
    writer: &mut Counted<W>,
) -> Result<TurnProgress, Ended>
    requires some { 0 < length session.old.unsent }
    ensures moved { (limit : ℕ) (input : Option (List ℕ)) → Moved S.answers S.tells limit input input
        (W.contents writer.old.device) (W.contents writer.new.device) session.old session.new }
    ensures idle { result ≡ Ok TurnProgress.Idle → 0 < length session.new.unsent }
    ensures busy { result ≡ Ok TurnProgress.Busy → length session.new.unsent < length session.old.unsent }
    ensures called { IsCalled writer.old writer.new session.old.counts session.new.counts }
    ensures faults { CountsFault Ended.WriteFault result writer.old.failures writer.new.failures }
    ensures spent { SpendsAtMost 1 0 session.old.counts session.new.counts }
    ensures fault { IfErr result (λ e. e ≡ Ended.WriteFault) }
{
    if session.write_once(writer)? {
        Ok(TurnProgress::Busy)
    } else {
        Ok(TurnProgress::Idle)
    }
}

// Reads once, and feeds what came.
fn refill<S: Service, R: Read>(
    session: &mut Session<S::Session>,
    _service: &S,
    reader: &mut Counted<R>,
) -> Result<TurnProgress, Ended>
    requires none { session.old.framing.waiting ≡ [] }
    ensures moved { (limit : ℕ) (output : Option (List ℕ)) → session.old.is_at_end ≡ false → Moved S.answers S.tells limit
        (R.remaining reader.old.device) (R.remaining reader.new.device) output output session.old session.new }
    ensures called { IsCalled reader.old reader.new session.old.counts session.new.counts
        ⊎ IsUncalled reader.old reader.new session.old.counts session.new.counts }
    ensures busy { result ≡ Ok TurnProgress.Busy → IsCalled reader.old reader.new session.old.counts session.new.counts }
    ensures faults { CountsFault Ended.ReadFault result reader.old.failures reader.new.failures }
    ensures idle { result ≡ Ok TurnProgress.Idle → (session.new.unfed ≡ session.old.unfed) × (session.new.framing ≡ session.old.framing)
        × (session.new.held ≡ session.old.held) × (session.new.is_at_end ≡ session.old.is_at_end) }
    ensures same { (session.new.state ≡ session.old.state) × (session.new.unsent ≡ session.old.unsent) }
    ensures spent { SpendsAtMost 1 0 session.old.counts session.new.counts }
    ensures fault { IfErr result (λ e. (e ≡ Ended.ReadFault) ⊎ (e ≡ Ended.NoMemory)) }
{
    let outcome = session.read_once(reader)?;
    session.note_read(outcome);
    if outcome == ReadOutcome::Nothing {
        return Ok(TurnProgress::Idle);
    }
    session.feed()?;
    Ok(TurnProgress::Busy)
}

// Why the input is over, once nothing is still to come that was asked before.
fn end_of_input<S: Service>(
    session: &Session<S::Session>,
    service: &S,
) -> Result<TurnProgress, Ended>
    requires over { (is_fault session.now.framing.ending ≡ true) ⊎ (session.now.is_at_end ≡ true) }
    ensures closed { result ≡ Err Ended.Closed → (session.now.is_at_end ≡ true) × S.is_answered session.now.state }
    ensures bad { result ≡ Err Ended.BadInput → (is_fault session.now.framing.ending ≡ true) × S.is_answered session.now.state }
    ensures idle { OnOk result (S.is_answered session.now.state → ⊥) }
    ensures ends { IfErr result (λ e. (e ≡ Ended.Closed) ⊎ (e ≡ Ended.BadInput)) }
    ensures never_busy { result ≡ Ok TurnProgress.Busy → ⊥ }
{
    let is_awaited = service.awaits(session.state());
    if is_awaited {
        Ok(TurnProgress::Idle)
    } else if session.has_fault() {
        Err(Ended::BadInput)
    } else {
        Err(Ended::Closed)
    }
}

// Feeds what was read before, says why the input is over, or reads, where no message is left and nothing is to be written.
fn take_in<S: Service, R: Read>(
    session: &mut Session<S::Session>,
    service: &S,
    reader: &mut Counted<R>,
) -> Result<TurnProgress, Ended>
    requires none { (session.old.held ≡ None) × (session.old.framing.waiting ≡ []) }
    ensures moved { (limit : ℕ) (output : Option (List ℕ)) → Moved S.answers S.tells limit
        (R.remaining reader.old.device) (R.remaining reader.new.device) output output session.old session.new }
    ensures called { (IsCalled reader.old reader.new session.old.counts session.new.counts × (session.old.unfed ≡ []))
        ⊎ IsUncalled reader.old reader.new session.old.counts session.new.counts }
    ensures busy { result ≡ Ok TurnProgress.Busy → (IsCalled reader.old reader.new session.old.counts session.new.counts × (session.old.unfed ≡ []))
        ⊎ ((session.old.unfed ≡ [] → ⊥) × (session.new.unfed ≡ [])) }
    ensures faults { CountsFault Ended.ReadFault result reader.old.failures reader.new.failures }
    ensures ends { IfErr result (λ e. (e ≡ Ended.WriteFault → ⊥) × (e ≡ Ended.Gone → ⊥) × (e ≡ Ended.Epoch → ⊥) × (e ≡ Ended.TurnsSpent → ⊥)) }
    ensures state { session.new.state ≡ session.old.state }
    ensures closed { result ≡ Err Ended.Closed → (session.new ≡ session.old) × (session.old.unfed ≡ []) × (session.old.is_at_end ≡ true)
        × S.is_answered session.old.state }
    ensures idle { result ≡ Ok TurnProgress.Idle → Waits S.is_answered session.new }
    ensures bad { result ≡ Err Ended.BadInput → (session.new ≡ session.old) × (is_fault session.old.framing.ending ≡ true)
        × S.is_answered session.old.state }
    ensures same { session.new.unsent ≡ session.old.unsent }
    ensures spent { SpendsAtMost 1 0 session.old.counts session.new.counts }
{
    if !session.is_fed() {
        session.feed()?;
        return Ok(TurnProgress::Busy);
    }
    if session.has_fault() || session.is_at_end() {
        return end_of_input(session, service);
    }
    if !session.may_read() {
        return Ok(TurnProgress::Idle);
    }
    refill(session, service, reader)
}

// Whether the service takes messages again, which took none before it told what is new.
fn progress_of<S: Service>(session: &Session<S::Session>, service: &S) -> TurnProgress
    ensures idle { result ≡ TurnProgress.Idle → S.may_answer session.now.state → ⊥ }
    ensures busy { result ≡ TurnProgress.Busy → S.may_answer session.now.state }
{
    if service.takes(session.state()) {
        TurnProgress::Busy
    } else {
        TurnProgress::Idle
    }
}

// Whether nothing is still to come that was asked before a message that the service refuses.
fn progress_of_refused<S: Service>(session: &Session<S::Session>, service: &S) -> TurnProgress
    ensures idle { result ≡ TurnProgress.Idle → S.is_answered session.now.state → ⊥ }
    ensures busy { result ≡ TurnProgress.Busy → S.is_answered session.now.state }
{
    if service.awaits(session.state()) {
        TurnProgress::Idle
    } else {
        TurnProgress::Busy
    }
}

/// Calls one device at most: the writer where something is to be written, whatever stopped the session; else the reader, where
/// nothing did and no message is left.
pub(crate) fn exchange<S: Service, R: Read, W: Write>(
    session: &mut Session<S::Session>,
    service: &S,
    reader: &mut Counted<R>,
    writer: &mut Counted<W>,
    left: Result<Left, Ended>,
) -> Result<TurnProgress, Ended>
    requires none { left ≡ Ok Left.Nothing → (session.old.held ≡ None) × (session.old.framing.waiting ≡ []) }
    requires refused { IfErr left (λ e. IsRefusal e) }
    requires bad { left ≡ Err Ended.BadInput → (m : List ℕ) × (session.old.held ≡ Some m) × S.refuses session.old.state m }
    requires quiet { left ≡ Err Ended.BadInput → S.is_answered session.old.state }
    requires held { left ≡ Ok Left.Refused → (m : List ℕ) × (session.old.held ≡ Some m) }
    requires told { IfOk left (λ l. (l ≡ Left.Untold) ⊎ S.is_told service.now session.old.state ⊎ (0 < length session.old.unsent)) }
    requires gone { left ≡ Err Ended.Gone → S.is_gone service.now }
    requires epoch { left ≡ Err Ended.Epoch → S.is_over service.now session.old.state }
    ensures moved { (limit : ℕ) → Moved S.answers S.tells limit (R.remaining reader.old.device) (R.remaining reader.new.device)
        (W.contents writer.old.device) (W.contents writer.new.device) session.old session.new }
    ensures exchanged { IsExchange (with_devices session.old reader.old writer.old) (with_devices session.new reader.new writer.new) }
    ensures busy { result ≡ Ok TurnProgress.Busy → HasPassed (with_devices session.old reader.old writer.old) (with_devices session.new reader.new writer.new)
        ⊎ ((session.old.unsent ≡ []) × (session.new ≡ session.old) × IsOkAnd left (λ l. GoesOn S.may_answer S.is_answered l session.old.state)) }
    ensures told { result ≡ Ok TurnProgress.Idle → S.is_told service.now session.new.state ⊎ (0 < length session.new.unsent) }
    ensures gone { result ≡ Err Ended.Gone → S.is_gone service.now }
    ensures epoch { result ≡ Err Ended.Epoch → S.is_over service.now session.new.state }
    ensures unspent { result ≡ Err Ended.TurnsSpent → ⊥ }
    ensures read_faults { CountsFault Ended.ReadFault result reader.old.failures reader.new.failures }
    ensures write_faults { CountsFault Ended.WriteFault result writer.old.failures writer.new.failures }
    ensures closed { result ≡ Err Ended.Closed → IsDone session.new × S.is_answered session.new.state }
    ensures idle { result ≡ Ok TurnProgress.Idle → IsIdle S.may_answer S.is_answered session.new }
    ensures bad { result ≡ Err Ended.BadInput → IsBad S.refuses session.new × S.is_answered session.new.state }
    ensures written { (e : _) → result ≡ Err e → (e ≡ Ended.WriteFault → ⊥) → session.new.unsent ≡ [] }
    ensures spent { SpendsAtMost 1 0 session.old.counts session.new.counts }
{
    if session.unsent() > 0 {
        return send(session, service, writer);
    }
    match left {
        Err(ended) => Err(ended),
        Ok(Left::More | Left::Untold) => Ok(TurnProgress::Busy),
        Ok(Left::Untaken) => Ok(progress_of(session, service)),
        Ok(Left::Refused) => Ok(progress_of_refused(session, service)),
        Ok(Left::Nothing) => take_in(session, service, reader),
    }
}
