//! Runs of a small script, which tells how long each line is, over devices that give little at a time, or fail.

ghost use Rattle.std.specs.Prelude.{◌≡◌, ◌++◌, IfOk, length, string_bytes, option_map, codes};
ghost use Rattle.std.specs.Fmt.{decimal};
ghost use Rattle.std.specs.Option.{option_map_or};

use crate::case::{count, part};
use crate::case_error::CaseError;
use crate::folds::end_word;
use crate::streams::bytes_of;
use ovs_script::{Script, ScriptEnd, run_script};
use ovs_types::NoMemory;
use ovs_wire::Counted;
use serde_json::Value;
use std::alloc::Global;
use std::io::{self, ErrorKind, Read, Write};
use std::marker::Model;

/// Answers each line by its number and length, hears at most `most` lines, and says at last how many it heard.
#[derive(Debug, Drop)]
struct Lengths {
    heard: u64,
    most: u64,
}

impl Model for Lengths {
    ghost use Rattle.std.specs.Prelude.{ℕ};

    ghost Value = { ℕ × ℕ };

    ghost view = { λ l. (l.heard, l.most) };
}

fn length_text(alloc: Global, number: u64, len: usize) -> Result<String, NoMemory>
    ensures text { IfOk result (λ text. string_bytes text ≡ decimal number ++ (codes ": " ++ (decimal len ++ codes "\n"))) }
{
    Ok(format!(in alloc; "{number}: {len}\n")?)
}

fn too_long_text(alloc: Global, number: u64) -> Result<String, NoMemory>
    ensures text { IfOk result (λ text. string_bytes text ≡ decimal number ++ codes ": too long\n") }
{
    Ok(format!(in alloc; "{number}: too long\n")?)
}

fn last_text(alloc: Global, heard: u64) -> Result<String, NoMemory>
    ensures text { IfOk result (λ text. string_bytes text ≡ decimal heard ++ codes " lines\n") }
{
    Ok(format!(in alloc; "{heard} lines\n")?)
}

fn answer_text(alloc: Global, number: u64, line: Option<&[u8]>) -> Result<String, NoMemory>
    ensures text { IfOk result (λ text. string_bytes text
        ≡ option_map_or (λ bytes. decimal number ++ (codes ": " ++ (decimal (length bytes) ++ codes "\n")))
        (option_map (λ bytes. bytes.now) line.entry) (decimal number ++ codes ": too long\n")) }
{
    match line {
        Some(bytes) => length_text(alloc, number, bytes.len()),
        None => too_long_text(alloc, number),
    }
}

impl Script for Lengths {
    ghost use Rattle.std.specs.Prelude.{◌+◌, ◌++◌, ◌==◌, nat_lt, min, length, codes};
    ghost use Rattle.std.specs.Fmt.{decimal};
    ghost use Rattle.std.specs.Option.{option_map_or};
    ghost use Rattle.ovs_script.specs.Functions.{rules_of};

    ghost rules = { rules_of (record {
      answer = λ s n line. option_map_or (λ bytes. decimal n ++ (codes ": " ++ (decimal (length bytes) ++ codes "\n")))
          line (decimal n ++ codes ": too long\n");
      after = λ s n line. (min (s.0 + 1) 18446744073709551615, s.1);
      at_second = λ s. s;
      is_over = λ s. s.0 == s.1;
      closing = λ s. decimal s.0 ++ codes " lines\n";
      is_content = λ s. nat_lt s.0 s.1;
    }) };

    fn take(
        &mut self,
        alloc: Global,
        number: u64,
        line: Option<&[u8]>,
    ) -> Result<String, NoMemory> {
        self.heard = self.heard.saturating_add(1);
        answer_text(alloc, number, line)
    }

    fn begin_second(&mut self, _alloc: Global) -> Result<(), NoMemory> {
        Ok(())
    }

    fn is_over(&self) -> bool {
        self.heard == self.most
    }

    fn close(&mut self, alloc: Global) -> Result<ScriptEnd, NoMemory> {
        let text = last_text(alloc, self.heard)?;
        Ok(ScriptEnd {
            text,
            is_content: self.heard < self.most,
        })
    }
}

/// Gives one byte at a time, each after an interruption, and fails in place of giving a byte too many.
#[derive(Drop)]
struct Trickle<'a> {
    rest: &'a [u8],
    gives: u64,
    is_interrupted: bool,
}

impl<'a> Read for Trickle<'a> {
    fn read(&mut self, buf: &mut [u8]) -> io::Result<usize> {
        self.is_interrupted = !self.is_interrupted;
        if self.is_interrupted {
            return Err(ErrorKind::Interrupted.into());
        }
        if self.gives == 0 {
            return Err(ErrorKind::ConnectionReset.into());
        }
        self.gives -= 1;
        let Some((first, rest)) = self.rest.split_first() else {
            return Ok(0);
        };
        if buf.is_empty() {
            return Ok(0);
        }
        buf[0] = *first;
        self.rest = rest;
        Ok(1)
    }
}

/// Takes one byte at a time, and nothing once it is full.
#[derive(Drop)]
struct Narrow {
    bytes: Vec<u8>,
    room: u64,
}

impl Write for Narrow {
    fn write(&mut self, buf: &[u8]) -> io::Result<usize> {
        let Some(first) = buf.first() else {
            return Ok(0);
        };
        if self.room == 0 {
            return Ok(0);
        }
        self.room -= 1;
        match self.bytes.push(*first) {
            Ok(()) => Ok(1),
            Err(_) => Err(ErrorKind::OutOfMemory.into()),
        }
    }

    fn flush(&mut self) -> io::Result<()> {
        Ok(())
    }
}

// What was written, on one line, and then the rest.
fn told(alloc: Global, written: &[u8], rest: &str) -> Result<String, CaseError> {
    let Ok(text) = std::str::from_utf8(written) else {
        return Err(CaseError::Malformed);
    };
    let mut told = String::new(alloc);
    for (number, line) in text.split('\n').enumerate() {
        if number > 0 {
            told.push_str(" | ")?;
        }
        told.push_str(line)?;
    }
    told.push_str(rest)?;
    Ok(told)
}

fn run(alloc: Global, text: &[u8], most: u64, gives: u64, room: u64) -> Result<String, CaseError> {
    let mut reader = Counted::new(Trickle {
        rest: text,
        gives,
        is_interrupted: false,
    });
    let mut writer = Counted::new(Narrow {
        bytes: Vec::new(alloc),
        room,
    });
    let mut script = Lengths { heard: 0, most };
    let mut second = None::<Counted<&[u8]>>;
    let end = run_script(alloc, &mut script, &mut reader, &mut second, &mut writer);
    let word = end_word(end);
    let reads = reader.failures();
    let writes = writer.failures();
    let rest = format!(in alloc; "{word}, failed reads {reads}, writes {writes}")?;
    told(alloc, writer.device().bytes.as_slice(), rest.as_str())
}

/// `["script", PIECE, MOST, GIVES, ROOM]`: a script that hears at most so many lines of the bytes, over a reader that
/// fails after so many reads and a writer that is full after so many bytes.
pub(crate) fn script(alloc: Global, parts: &[Value]) -> Result<String, CaseError> {
    let text = bytes_of(alloc, part(parts, 1)?)?;
    let most = count(parts, 2)?;
    let gives = count(parts, 3)?;
    let room = count(parts, 4)?;
    run(alloc, text.as_slice(), most, gives, room)
}

/// Never has anything to give.
#[derive(Drop)]
struct Silent;

impl Read for Silent {
    fn read(&mut self, _buf: &mut [u8]) -> io::Result<usize> {
        Err(ErrorKind::WouldBlock.into())
    }
}

/// `["silent script"]`: the same over a reader that never has anything, and how often it is called.
pub(crate) fn over_silence(alloc: Global) -> Result<String, CaseError> {
    let mut reader = Counted::new(Silent);
    let mut writer = Counted::new(Vec::new(alloc));
    let mut script = Lengths { heard: 0, most: 9 };
    let mut second = None::<Counted<&[u8]>>;
    let end = run_script(alloc, &mut script, &mut reader, &mut second, &mut writer);
    let word = end_word(end);
    let calls = reader.calls();
    let failures = reader.failures();
    let writes = writer.calls();
    Ok(format!(in alloc; "{word}, {calls} reads, {failures} failed, {writes} writes")?)
}
