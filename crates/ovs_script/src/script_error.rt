//! Why a run breaks off.
ghost use Rattle.std.specs.Prelude.{◌≡◌};

use ovs_json::NoMemory;

/// Why a run breaks off before its last words are written.
#[derive(Clone, Copy, Debug, PartialEq, Eq)]
pub(crate) enum ScriptError {
    /// A read failed.
    ReadFault,
    /// A write failed, or passed no byte.
    WriteFault,
    /// All read and write calls of the run are made.
    TurnsSpent,
    /// A growth was refused.
    NoMemory,
}

impl From<NoMemory> for ScriptError {
    ghost use Rattle.ovs_script.specs.declared.script_error.ScriptError.TheVariants as faults;

    ghost from_gives = { λ _ fault. fault ≡ faults.NoMemory };

    fn from(_error: NoMemory) -> ScriptError {
        ScriptError::NoMemory
    }
}
