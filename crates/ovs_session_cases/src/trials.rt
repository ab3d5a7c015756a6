//! Sessions over devices of which each call fails in turn, or passes nothing, and what is to be so then.

use crate::devices::{Called, Calls, DeviceSide, Manner, Mark};
use crate::session_case_error::SessionCaseError;
use ovs_case_lines::text_in;
use ovs_links::Link;
use ovs_session::Ended;
use serde_json::Value;
use std::alloc::Global;
use std::io::ErrorKind;

// So many calls of a device are tried at most.
const MOST_CALLS: u64 = 1_000_000;

/// How a session stopped, and what came of it.
#[derive(Drop)]
pub(crate) struct TrialOutcome {
    /// Why it ended; `None` where it could do nothing more by itself.
    pub(crate) ended: Option<Ended>,
    /// What was written.
    pub(crate) written: Vec<u8>,
    /// The links that were taken of it.
    pub(crate) links: Vec<Link>,
    /// The calls of its reader.
    pub(crate) reads: Called,
    /// The calls of its writer.
    pub(crate) writes: Called,
    /// Whether nothing is owed to it once it has ended, and nobody has its lock.
    pub(crate) is_quiet: bool,
}

/// A session that can be had again and again.
pub(crate) trait Trial {
    /// The session over devices that behave so.
    fn run(&mut self, alloc: Global, manner: Manner) -> Result<TrialOutcome, SessionCaseError>;

    /// What is to be written where no call fails.
    fn wanted(&self) -> &str;
}

// What came of trying a device's calls: how many there are, and that each did as it should, or of the first that didn't what was odd.
#[derive(Clone, Copy)]
enum Found {
    All(u64, Option<Ended>),
    Odd(u64, &'static str),
}

/// What an error is told by a device's call.
pub(crate) fn kind_of(json: &Value) -> Result<ErrorKind, SessionCaseError> {
    match text_in(json)? {
        "Interrupted" => Ok(ErrorKind::Interrupted),
        "WouldBlock" => Ok(ErrorKind::WouldBlock),
        "TimedOut" => Ok(ErrorKind::TimedOut),
        "ConnectionReset" => Ok(ErrorKind::ConnectionReset),
        "BrokenPipe" => Ok(ErrorKind::BrokenPipe),
        "Other" => Ok(ErrorKind::Other),
        _ => Err(SessionCaseError::Malformed),
    }
}

fn other(side: DeviceSide) -> DeviceSide {
    match side {
        DeviceSide::Reader => DeviceSide::Writer,
        DeviceSide::Writer => DeviceSide::Reader,
    }
}

// How a session ends where a call of this device fails.
fn fault_of(side: DeviceSide) -> Ended {
    match side {
        DeviceSide::Reader => Ended::ReadFault,
        DeviceSide::Writer => Ended::WriteFault,
    }
}

// Whether these links are the first of those.
fn are_first(links: &[Link], all: &[Link]) -> bool {
    links.len() <= all.len() && links.iter().zip(all).all(|(link, same)| link.same(same))
}

impl TrialOutcome {
    // The calls of a device.
    fn called(&self, side: DeviceSide) -> &Called {
        match side {
            DeviceSide::Reader => &self.reads,
            DeviceSide::Writer => &self.writes,
        }
    }

    // Whether so much came of it as of another when that had come to a call.
    fn has_come_to(&self, mark: Option<Mark>) -> bool {
        let (written, links) = (self.written.len() as u64, self.links.len() as u64);
        mark == Some(Mark { written, links })
    }

    // What isn't so of a session that is to be a beginning of another.
    fn oddity(&self, ample: &TrialOutcome) -> Option<&'static str> {
        if !ample
            .written
            .as_slice()
            .starts_with(self.written.as_slice())
        {
            Some("other bytes")
        } else if !are_first(self.links.as_slice(), ample.links.as_slice()) {
            Some("other links")
        } else if !self.is_quiet {
            Some("something is owed")
        } else {
            None
        }
    }

    // What isn't so of a session that is to be as another.
    fn difference(&self, ample: &TrialOutcome) -> Option<&'static str> {
        if self.ended != ample.ended {
            Some("another end")
        } else if self.written.len() != ample.written.len() {
            Some("fewer bytes")
        } else if self.links.len() != ample.links.len() {
            Some("fewer links")
        } else {
            self.oddity(ample)
        }
    }

    // What isn't so of a session whose device failed at the call of this number.
    fn oddity_of_failing(
        &self,
        ample: &TrialOutcome,
        side: DeviceSide,
        call: u64,
    ) -> Option<&'static str> {
        let called = self.called(side);
        if self.ended != Some(fault_of(side)) {
            Some("another end")
        } else if called.calls != call || called.failures != 1 {
            Some("called on")
        } else if self.called(other(side)).failures != 0 {
            Some("the other failed")
        } else if !self.has_come_to(ample.called(side).mark(call)) {
            Some("not so far")
        } else {
            self.oddity(ample)
        }
    }

    // What isn't so of a session one of whose devices passed nothing from a call on, and which is to end so.
    fn oddity_of_passing(
        &self,
        ample: &TrialOutcome,
        ended: Option<Ended>,
    ) -> Option<&'static str> {
        if self.ended != ended {
            Some("another end")
        } else if self.reads.failures != 0 || self.writes.failures != 0 {
            Some("counted as failed")
        } else {
            self.oddity(ample)
        }
    }

    fn told(&self, alloc: Global) -> Result<String, SessionCaseError> {
        let (bytes, links) = (self.written.len(), self.links.len());
        let end = end_text(alloc, self.ended)?;
        Ok(format!(in alloc; "{end} bytes {bytes} links {links}")?)
    }
}

// How a session stopped, as text.
fn end_text(alloc: Global, ended: Option<Ended>) -> Result<String, SessionCaseError> {
    match ended {
        Some(ended) => Ok(format!(in alloc; "{ended}")?),
        None => Ok(String::from_str(alloc, "idle")?),
    }
}

// What is so where no call failed, since there are fewer: the session is as it was.
fn untouched(
    outcome: &TrialOutcome,
    ample: &TrialOutcome,
    call: u64,
    ended: Option<Ended>,
) -> Found {
    match outcome.difference(ample) {
        None => Found::All(call.saturating_sub(1), ended),
        Some(odd) => Found::Odd(call, odd),
    }
}

// Fails each call of a device in turn.
fn each_fails<T: Trial>(
    alloc: Global,
    trial: &mut T,
    manner: Manner,
    side: DeviceSide,
    ample: &TrialOutcome,
) -> Result<Found, SessionCaseError> {
    for call in 1..MOST_CALLS {
        let outcome = trial.run(alloc, manner.failing(side, Calls::At(call)))?;
        if outcome.called(side).calls < call {
            return Ok(untouched(&outcome, ample, call, None));
        }
        if let Some(odd) = outcome.oddity_of_failing(ample, side, call) {
            return Ok(Found::Odd(call, odd));
        }
    }
    Err(SessionCaseError::Endless)
}

// Has a device pass nothing from each of its calls on: each time the session is to end as the first time.
fn none_passes<T: Trial>(
    alloc: Global,
    trial: &mut T,
    manner: Manner,
    side: DeviceSide,
    ample: &TrialOutcome,
) -> Result<Found, SessionCaseError> {
    let mut ended = None;
    for call in 1..MOST_CALLS {
        let outcome = trial.run(alloc, manner.failing(side, Calls::From(call)))?;
        if outcome.called(side).calls < call {
            return Ok(untouched(&outcome, ample, call, ended));
        }
        if call == 1 {
            ended = outcome.ended;
        }
        if let Some(odd) = outcome.oddity_of_passing(ample, ended) {
            return Ok(Found::Odd(call, odd));
        }
    }
    Err(SessionCaseError::Endless)
}

fn found_text(alloc: Global, found: Found) -> Result<String, SessionCaseError> {
    match found {
        Found::All(calls, None) => Ok(format!(in alloc; "{calls}")?),
        Found::All(calls, Some(ended)) => Ok(format!(in alloc; "{calls} {ended}")?),
        Found::Odd(call, odd) => Ok(format!(in alloc; "at {call} {odd}")?),
    }
}

// What comes of each call that fails.
fn failing_text<T: Trial>(
    alloc: Global,
    trial: &mut T,
    manner: Manner,
    ample: &TrialOutcome,
) -> Result<String, SessionCaseError> {
    let reads = each_fails(alloc, trial, manner, DeviceSide::Reader, ample)?;
    let writes = each_fails(alloc, trial, manner, DeviceSide::Writer, ample)?;
    let (reads, writes) = (found_text(alloc, reads)?, found_text(alloc, writes)?);
    Ok(format!(in alloc; "reads fail {reads} writes fail {writes}")?)
}

// What comes of calls that pass nothing for now: from each one on, and each time before one passes.
fn passing_text<T: Trial>(
    alloc: Global,
    trial: &mut T,
    manner: Manner,
    ample: &TrialOutcome,
) -> Result<String, SessionCaseError> {
    let reads = none_passes(alloc, trial, manner, DeviceSide::Reader, ample)?;
    let writes = none_passes(alloc, trial, manner, DeviceSide::Writer, ample)?;
    let (reads, writes) = (found_text(alloc, reads)?, found_text(alloc, writes)?);
    let slow = manner
        .failing(DeviceSide::Reader, Calls::EachOther)
        .failing(DeviceSide::Writer, Calls::EachOther);
    let outcome = trial.run(alloc, slow)?;
    let again = outcome.difference(ample).unwrap_or("the same");
    Ok(format!(in alloc; "reads stop {reads} writes stop {writes} between {again}")?)
}

/// What a session comes to where no call of its devices fails, where each fails in turn, or passes nothing, and where one byte passes
/// at a call.
pub(crate) fn tried<T: Trial>(
    alloc: Global,
    trial: &mut T,
    piece: usize,
    kind: ErrorKind,
) -> Result<String, SessionCaseError> {
    let manner = Manner::new(piece, kind);
    let ample = trial.run(alloc, manner)?;
    if ample.written.as_slice() != trial.wanted().as_bytes() {
        let written = std::str::from_utf8(ample.written.as_slice());
        let written = written.map_err(|_| SessionCaseError::Garbled)?;
        return Ok(format!(in alloc; "wrote {written}")?);
    }
    if !ample.is_quiet {
        return Ok(String::from_str(alloc, "something is owed")?);
    }
    let narrow = trial.run(alloc, Manner::new(1, kind))?;
    let narrow = narrow.difference(&ample).unwrap_or("the same");
    let told = ample.told(alloc)?;
    let rest = if manner.is_passing() {
        passing_text(alloc, trial, manner, &ample)?
    } else {
        failing_text(alloc, trial, manner, &ample)?
    };
    Ok(format!(in alloc; "{told} byte by byte {narrow} | {rest}")?)
}
