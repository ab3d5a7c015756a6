//! Scripts: what answers to the lines of a text.
ghost use Rattle.std.specs.Prelude.{◌≡◌, ◌<◌, ◌+◌, ◌^◌, IfOk, OnOk, string_bytes, option_map};

use ovs_json::NoMemory;
use std::alloc::Global;

/// The last words of a script.
#[derive(Debug, Drop)]
pub struct ScriptEnd {
    /// What is written behind the answers.
    pub text: String,
    /// Whether the script is content with what it heard.
    pub is_content: bool,
}

/// What answers to the lines of a text, one after another, and has the last word.
///
/// An implementation says by `rules` what it may answer and how its state may change then. `run_script` is proved for
/// all rules.
pub trait Script {
    ghost use Rattle.ovs_script.specs.Rules.{Rules};

    // What is answered, and the states before and after.
    ghost rules: { Rules Self };

    /// Hears a line, with its number from 0 on, and answers it. The line comes without its LF; `None` is a line of
    /// more than 16,777,216 bytes. The number is small enough to count from 1 too.
    ///
    /// After `NoMemory` the script is not asked again.
    fn take(&mut self, alloc: Global, number: u64, line: Option<&[u8]>) -> Result<String, NoMemory>
        requires small { number + 1 < 2 ^ 64 }
        ensures answers { IfOk result (λ text. rules.Answers self.old number (option_map (λ bytes. bytes.now) line.entry) (string_bytes text) self.new) };

    /// Turns to the lines of a second text, behind those of the first. Their numbers count from 0 again.
    ///
    /// After `NoMemory` the script is not asked again.
    fn begin_second(&mut self, alloc: Global) -> Result<(), NoMemory>
        ensures state { OnOk result (rules.BeginsSecond self.old self.new) };

    /// Whether the script hears no further line of this text.
    fn is_over(&self) -> bool
        ensures value { result ≡ rules.is_over self.now };

    /// Says the last words. After this the script is not asked again.
    fn close(&mut self, alloc: Global) -> Result<ScriptEnd, NoMemory>
        ensures closes { IfOk result (λ closing. rules.Closes self.old (string_bytes closing.text) closing.is_content) };
}
