//! What is said in a session, part by part, and what is to be written of it.

use crate::session_case_error::SessionCaseError;
use ovs_case_lines::list_in;
use serde_json::Value;
use std::alloc::Global;

/// A part of what a peer says, which it says once it was written so much.
#[derive(Drop)]
pub(crate) struct TalkPart {
    /// What it says; nothing where it says no more.
    pub(crate) text: String,
    /// How many bytes are written to it before.
    pub(crate) written_before: u64,
}

/// What a peer says, and what is to be written to it.
#[derive(Drop)]
pub(crate) struct TrialTalk {
    /// What it says, part by part.
    pub(crate) parts: Vec<TalkPart>,
    /// All that is to be written to it.
    pub(crate) wanted: String,
}

// Puts the texts of these messages behind another.
fn add_texts(alloc: Global, json: &Value, text: &mut String) -> Result<(), SessionCaseError> {
    for message in list_in(json)? {
        text.push_str(message.to_string(alloc)?.as_str())?;
    }
    Ok(())
}

impl TrialTalk {
    // One part more, which says this once all was written that is wanted by now.
    fn add_part(&mut self, text: String) -> Result<(), SessionCaseError> {
        self.parts.push(TalkPart {
            text,
            written_before: self.wanted.len() as u64,
        })?;
        Ok(())
    }

    // `[[MESSAGE, ..], [MESSAGE, ..]]`: what a part says, if anything, and what is to be written then.
    fn read_part(&mut self, alloc: Global, json: &Value) -> Result<(), SessionCaseError> {
        let [said, wanted] = list_in(json)? else {
            return Err(SessionCaseError::Malformed);
        };
        let mut text = String::new(alloc);
        add_texts(alloc, said, &mut text)?;
        if !text.is_empty() {
            self.add_part(text)?;
        }
        add_texts(alloc, wanted, &mut self.wanted)
    }

    /// `[[[MESSAGE, ..], [MESSAGE, ..]], ..]`: what each part says, and what is to be written before the next. Behind all of them it ends.
    pub(crate) fn read(alloc: Global, json: &Value) -> Result<TrialTalk, SessionCaseError> {
        let mut talk = TrialTalk {
            parts: Vec::new(alloc),
            wanted: String::new(alloc),
        };
        for part in list_in(json)? {
            talk.read_part(alloc, part)?;
        }
        talk.add_part(String::new(alloc))?;
        Ok(talk)
    }
}
