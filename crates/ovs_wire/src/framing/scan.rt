//! The messages in the bytes that came.
ghost use Rattle.std.specs.Prelude.{◌≡◌, ◌+◌, ◌≤◌, ◌<◌, ◌↔◌, ◌++◌, ◌∷◌, [], ℕ, List, length, take, drop, IsTrue, IfOk, IfErr, OnOk};
ghost use Rattle.ovs_wire.specs.Limits.{most_nesting};
ghost use Rattle.ovs_wire.specs.ScanPosition.{place_after};
ghost use Rattle.ovs_wire.specs.Frames.{AreFrames, Breaks, IsSpace, IsUnfinished};
ghost use Rattle.ovs_wire.specs.Framing.{ending_of};
ghost use Rattle.ovs_wire.specs.Spans.{IsTail, messages, spanned};

use crate::error::FrameError;
use crate::framing::limits::MAX_NESTING;
use crate::framing::scan_position::ScanPosition;
use ovs_json::NoMemory;
use std::alloc::Global;
use std::collections::VecDeque;

/// A whole message behind another: how many bytes of white space stand before it, and how many bytes it has itself.
#[derive(Clone, Copy, Debug)]
pub(crate) struct Span {
    pub skip: usize,
    pub len: usize,
}

/// What stands behind the last whole message in a buffer: white space from `end` on, and from `start` on a message that
/// isn't whole yet, up to `place`.
#[derive(Clone, Copy, Debug)]
pub(crate) struct Tail {
    pub end: usize,
    pub start: usize,
    pub place: ScanPosition,
}

/// What a scan found: whole messages, what stands behind them, and the first fault.
#[derive(Drop)]
pub(crate) struct Scanned {
    pub found: VecDeque<Span>,
    pub tail: Tail,
    pub fault: Option<FrameError>,
}

// Whether a byte is white space, as it stands between messages.
fn is_space(byte: u8) -> bool
    ensures value { IsTrue result ↔ IsSpace byte }
{
    matches!(byte, b' ' | b'\t' | b'\r' | b'\n')
}

// The place after one more byte of a message that has `len` bytes up to `place` and may have `most`, or the fault that this
// byte is.
fn go_on(place: ScanPosition, len: usize, byte: u8, most: usize) -> Result<ScanPosition, FrameError>
    requires nests { place.depth ≤ most_nesting }
    requires no_space { len ≡ 0 → IsSpace byte → ⊥ }
    ensures place { IfOk result (λ next. (before : List ℕ) → place ≡ place_after before
        → next ≡ place_after (before ++ byte ∷ [])) }
    ensures nests { IfOk result (λ next. next.depth ≤ most_nesting) }
    ensures opens { OnOk result (len ≡ 0 → byte ≡ 123) }
    ensures fits { OnOk result (len < most) }
    ensures fault { IfErr result (λ fault. (before : List ℕ) → IsUnfinished most before
        → length before ≡ len → place ≡ place_after before → Breaks most before byte fault) }
{
    if len == 0 && byte != b'{' {
        return Err(FrameError::NotObject);
    }
    let next = place.past(byte);
    if next.depth > MAX_NESTING {
        return Err(FrameError::TooDeep);
    }
    if len >= most {
        return Err(FrameError::TooLong);
    }
    Ok(next)
}

/// Scans on from the first `held` bytes, of which `tail` is behind the last whole message. A message may have `most` bytes.
pub(crate) fn scan(
    alloc: Global,
    bytes: &[u8],
    held: usize,
    tail: Tail,
    most: usize,
) -> Result<Scanned, NoMemory>
    requires held { held ≤ length bytes.now }
    requires tail { IsTail most (take held bytes.now) tail }
    ensures frames { IfOk result (λ s. AreFrames most (drop tail.start bytes.now)
        (messages s.found.items (drop tail.end bytes.now)) (ending_of s.fault (drop s.tail.start bytes.now))) }
    ensures end { IfOk result (λ s. s.tail.end ≡ tail.end + spanned s.found.items) }
    ensures tail { IfOk result (λ s. IsTail most bytes.now s.tail) }
{
    let mut found = VecDeque::new(alloc);
    let mut end = tail.end;
    let mut start = tail.start;
    let mut place = tail.place;
    for i in held..bytes.len() {
        let (len, byte) = (i - start, bytes[i]);
        if len == 0 && is_space(byte) {
            start = i + 1;
            continue;
        }
        match go_on(place, len, byte, most) {
            Ok(next) => place = next,
            Err(fault) => return Ok(Scanned {
                found,
                tail: Tail {
                    end,
                    start: bytes.len(),
                    place: ScanPosition::start(),
                },
                fault: Some(fault),
            }),
        }
        if place.depth == 0 {
            let span = Span {
                skip: start - end,
                len: len + 1,
            };
            found.push_back(span)?;
            end = i + 1;
            start = i + 1;
            place = ScanPosition::start();
        }
    }
    Ok(Scanned {
        found,
        tail: Tail { end, start, place },
        fault: None,
    })
}
