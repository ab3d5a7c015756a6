//! The line that is being read, as far as it has come.
ghost use Rattle.std.specs.Prelude.{◌≡◌, ℕ, [], ◌++◌, List, Some, OnOk, OnErr, option_map};
ghost use Rattle.ovs_script.specs.Lines.{kept, is_empty_line};

use ovs_json::NoMemory;
use std::alloc::Global;
use std::marker::Model;

/// The most bytes of a line, without its LF.
pub(crate) const LINE_LIMIT: usize = 16_777_216;

/// A line of at most `LINE_LIMIT` bytes. A longer one is known to be too long, and none of it is kept.
#[derive(Debug, Drop)]
pub(crate) struct Line {
    bytes: Vec<u8>,
    is_too_long: bool,
}

impl Model for Line {
    ghost use Rattle.std.specs.Prelude.{ℕ, List, Option, None, Some, ◌≤◌, if◌then◌else◌, length};
    ghost use Rattle.ovs_script.specs.Lines.{line_limit};

    ghost Value = { Option (List ℕ) };

    ghost view = { λ l. if l.is_too_long then None else Some l.bytes.items };

    ghost invariant = { λ l. length l.bytes.items ≤ line_limit };
}

impl Line {
    /// A line with no byte.
    pub(crate) fn new(alloc: Global) -> Line
        ensures empty { result ≡ Some [] }
    {
        Line {
            bytes: Vec::new(alloc),
            is_too_long: false,
        }
    }

    /// Forgets the line; the next one begins.
    pub(crate) fn clear(&mut self)
        ensures empty { self.new ≡ Some [] }
    {
        self.bytes.clear();
        self.is_too_long = false;
    }

    /// The bytes of the line; `None` where it is too long.
    pub(crate) fn bytes(&self) -> Option<&[u8]>
        ensures value { option_map (λ bytes. bytes.now) result ≡ self.now }
    {
        if self.is_too_long {
            None
        } else {
            Some(self.bytes.as_slice())
        }
    }

    /// Whether no byte has come.
    pub(crate) fn is_empty(&self) -> bool
        ensures value { result ≡ is_empty_line self.now }
    {
        !self.is_too_long && self.bytes.is_empty()
    }

    /// Puts the bytes behind those that have come. After `NoMemory` the line is as it was.
    pub(crate) fn add(&mut self, more: &[u8]) -> Result<(), NoMemory>
        ensures ok { OnOk result ((so_far : List ℕ) → self.old ≡ kept so_far → self.new ≡ kept (so_far ++ more.now)) }
        ensures err { OnErr result (self.new ≡ self.old) }
    {
        if self.is_too_long {
            return Ok(());
        }
        if more.len() > LINE_LIMIT - self.bytes.len() {
            self.is_too_long = true;
            self.bytes.clear();
            return Ok(());
        }
        self.bytes.extend_from_slice(more)?;
        Ok(())
    }
}
