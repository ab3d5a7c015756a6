//! What is told of an event that has happened.

ghost use Rattle.std.specs.Prelude.{◌≡◌, ◌≢◌, ◌++◌, IfOk, Err, codes, string_bytes};
ghost use Rattle.std.specs.Fmt.{decimal};
ghost use Rattle.ovs_world_script.specs.Telling.{IsReplyText, Tells};

use crate::words::EventRefusal;
use ovs_types::NoMemory;
use ovs_world::{Reply, WorldError};
use std::alloc::Global;

fn session_text(alloc: Global, number: usize) -> Result<String, NoMemory>
    ensures text { IfOk result (λ text. string_bytes text ≡ codes "session " ++ decimal number) }
{
    Ok(format!(in alloc; "session {number}")?)
}

fn counts_text(alloc: Global, took: usize, held: usize) -> Result<String, NoMemory>
    ensures text { IfOk result (λ text. string_bytes text ≡ codes "took " ++ (decimal took ++ (codes " held " ++ decimal held))) }
{
    Ok(format!(in alloc; "took {took} held {held}")?)
}

fn dropped_text(alloc: Global, count: usize) -> Result<String, NoMemory>
    ensures text { IfOk result (λ text. string_bytes text ≡ codes "dropped " ++ decimal count) }
{
    Ok(format!(in alloc; "dropped {count}")?)
}

fn reply_text(alloc: Global, reply: &Reply) -> Result<String, NoMemory>
    ensures text { IfOk result (λ text. IsReplyText reply.now (string_bytes text)) }
{
    match reply {
        Reply::Results(results) => Ok(results.as_value().to_string(alloc)?),
        Reply::Session(number) => session_text(alloc, *number),
        Reply::Took { took, held } => counts_text(alloc, *took, *held),
        Reply::Dropped(count) => dropped_text(alloc, *count),
        Reply::Done => Ok(String::from_str(alloc, "ok")?),
    }
}

fn numbered(alloc: Global, number: u64, text: &str) -> Result<String, NoMemory>
    ensures text { IfOk result (λ line. string_bytes line ≡ decimal number ++ (codes " " ++ (text.now ++ codes "\n"))) }
{
    Ok(format!(in alloc; "{number} {text}\n")?)
}

/// The line that tells of event `number`: its reply, or why it was refused.
pub(crate) fn told(
    alloc: Global,
    number: u64,
    answer: &Result<Reply, WorldError>,
) -> Result<String, NoMemory>
    requires memory { answer.now ≢ Err WorldError.NoMemory }
    ensures tells { IfOk result (λ line. Tells number answer.now (string_bytes line)) }
{
    match answer {
        Ok(reply) => {
            let text = reply_text(alloc, reply)?;
            numbered(alloc, number, text.as_str())
        }
        Err(error) => EventRefusal::Event(*error).line(alloc, number),
    }
}
