//! How long a run may go on.
ghost use Rattle.std.specs.Prelude.{◌≡◌, ◌+◌, OnOk, OnErr, IfErr};
ghost use Rattle.ovs_script.specs.Turns.{most_turns};

use crate::script_error::ScriptError;
use std::marker::Model;

/// How many read and write calls one run makes at most.
pub(crate) const MOST_TURNS: u32 = 1_000_000;

/// The turns that a run has left. A turn is one read or one write call, whether bytes pass in it or not.
#[derive(Debug, Drop)]
pub(crate) struct Turns {
    left: u32,
}

impl Model for Turns {
    ghost use Rattle.std.specs.Prelude.{ℕ};

    ghost Value = { ℕ };

    ghost view = { λ t. t.left };
}

impl Turns {
    /// All turns of a run, `MOST_TURNS`.
    pub(crate) fn new() -> Turns
        ensures all { result ≡ most_turns }
    {
        Turns { left: MOST_TURNS }
    }

    /// The turns that are left.
    pub(crate) fn left(&self) -> u32
        ensures value { result ≡ self.now }
    {
        self.left
    }

    /// Spends a turn; `TurnsSpent` where none is left.
    pub(crate) fn take(&mut self) -> Result<(), ScriptError>
        ensures one { OnOk result (self.new + 1 ≡ self.old) }
        ensures none { OnErr result ((self.old ≡ 0) × (self.new ≡ 0)) }
        ensures fault { IfErr result (λ fault. fault ≡ ScriptError.TurnsSpent) }
    {
        if self.left == 0 {
            return Err(ScriptError::TurnsSpent);
        }
        self.left -= 1;
        Ok(())
    }
}
