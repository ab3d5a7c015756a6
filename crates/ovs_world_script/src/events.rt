//! What becomes of an event's line.

ghost use Rattle.std.specs.Prelude.{◌≡◌, ◌≢◌, IfOk, Err, option_map, string_bytes};
ghost use Rattle.ovs_world.specs.Headline.{IsFaithful};
ghost use Rattle.ovs_world.specs.Steps.{Steps};
ghost use Rattle.ovs_world.specs.declared.error.WorldError.TheVariants as errors;
ghost use Rattle.ovs_world_script.specs.Reading.{event_of_line};
ghost use Rattle.ovs_world_script.specs.Telling.{TellsLine};

use crate::reading::event_of_line;
use crate::telling::told;
use ovs_types::NoMemory;
use ovs_world::{Event, Reply, World, WorldError};
use std::alloc::Global;

/// What is said to a line, and whether it was refused.
#[derive(Debug, Drop)]
pub(crate) struct EventAnswer {
    pub text: String,
    pub is_refused: bool,
}

// The event happens. The inner answer is what the world replies, or why it refuses the event.
fn happen(
    alloc: Global,
    world: &mut World,
    event: &Event,
) -> Result<Result<Reply, WorldError>, NoMemory>
    ensures steps { IfOk result (λ answer. Steps world.old event.now answer world.new) }
    ensures faithful { IsFaithful world.new.source world.new.relays }
    ensures memory { IfOk result (λ answer. answer ≢ Err errors.NoMemory) }
{
    match world.step(alloc, event) {
        Err(WorldError::NoMemory) => Err(NoMemory),
        answer => Ok(answer),
    }
}

/// Has the event of a line happen, with its number from 1, and tells what became of it.
pub(crate) fn answer_line(
    alloc: Global,
    world: &mut World,
    number: u64,
    line: Option<&[u8]>,
) -> Result<EventAnswer, NoMemory>
    ensures tells { IfOk result (λ answer. TellsLine world.old number (event_of_line (option_map (λ l. l.now) line.entry)) (string_bytes answer.text) answer.is_refused world.new) }
{
    match event_of_line(alloc, line)? {
        Ok(event) => {
            let answer = happen(alloc, world, &event)?;
            Ok(EventAnswer {
                text: told(alloc, number, &answer)?,
                is_refused: answer.is_err(),
            })
        }
        Err(refusal) => Ok(EventAnswer {
            text: refusal.line(alloc, number)?,
            is_refused: true,
        }),
    }
}
