//! The words for lines that are refused.

ghost use Rattle.std.specs.Prelude.{◌≡◌, IfOk, string_bytes};
ghost use Rattle.ovs_script.specs.Refusal.{refused_line};
ghost use Rattle.ovs_world_script.specs.Words.{event_word};

use ovs_script::{LineFault, refused_line};
use ovs_types::NoMemory;
use ovs_world::WorldError;
use std::alloc::Global;

/// Why a line with an event is refused, in the order of checking.
#[derive(Debug, Clone, Copy, PartialEq, Eq)]
pub(crate) enum EventRefusal {
    /// It has no JSON, for this fault.
    BadLine(LineFault),
    /// No array that spells an event.
    BadShape,
    /// The id of a commit or of a trim is no id.
    BadId,
    /// The world refuses the event, for this reason, which is never want of memory.
    Event(WorldError),
}

impl EventRefusal {
    /// The word for it.
    pub(crate) fn word(self) -> &'static str
        ensures text { result.now ≡ event_word self }
    {
        match self {
            EventRefusal::BadLine(fault) => fault.word(),
            EventRefusal::BadShape => "bad-shape",
            EventRefusal::BadId => "bad-id",
            EventRefusal::Event(error) => error.word(),
        }
    }

    /// The line that tells it of line `number`.
    pub(crate) fn line(self, alloc: Global, number: u64) -> Result<String, NoMemory>
        ensures text { IfOk result (λ line. string_bytes line ≡ refused_line number (event_word self)) }
    {
        refused_line(alloc, number, self.word())
    }
}
