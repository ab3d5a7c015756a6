//! What an upstream says over memory, session by session.

ghost use Rattle.std.specs.Prelude.{false};

use crate::node_case_error::NodeCaseError;
use ovs_case_lines::{commit_in, count_in, list_in, number_of, text_in};
use ovs_node_threads::Connector;
use ovs_types::{Schema, TxnId};
use ovs_wire::MAX_MESSAGE_BYTES;
use serde_json::Value;
use std::alloc::Global;
use std::collections::VecDeque;
use std::io::{self, Read, Sink, sink};
use std::sync::Arc;
use std::sync::atomic::{AtomicU64, Ordering};
use std::thread;

// How often it is looked whether a reader has seen a commit.
const TURNS: u64 = 1_000_000;

/// One session of an upstream.
#[derive(Drop)]
pub(crate) struct UpstreamScript {
    /// It begins once a reader has seen the commit of this number.
    pub(crate) after: u64,
    /// What the upstream says.
    pub(crate) text: String,
    /// Behind so many bytes of that it breaks off, if not at its end.
    pub(crate) bytes: usize,
    /// It ends once a reader has seen the commit of this number.
    pub(crate) until: u64,
}

// Waits until a reader has seen the commit of this number; false where it waits too long.
fn wait_for(seen: &AtomicU64, number: u64) -> bool {
    for _turn in 0..TURNS {
        if seen.load(Ordering::SeqCst) >= number {
            return true;
        }
        thread::yield_now();
    }
    false
}

// `[KNOWN, ID, CHANGES]`, the answer to a monitor request, or `[ID, CHANGES]`, what comes after it.
fn message_text(alloc: Global, json: &Value) -> Result<String, NodeCaseError> {
    match list_in(json)? {
        [known, id, changes] => {
            let known = known.as_bool().ok_or(NodeCaseError::Malformed)?;
            let id = commit_in(id)?.to_text(alloc)?;
            let changes = changes.to_string(alloc)?;
            Ok(format!(in alloc;
                "{{\"id\":\"monitor\",\"result\":[{known},\"{id}\",{changes}],\"error\":null}}"
            )?)
        }
        [id, changes] => {
            let id = commit_in(id)?.to_text(alloc)?;
            let changes = changes.to_string(alloc)?;
            Ok(format!(in alloc;
                "{{\"method\":\"update3\",\"params\":[\"relay\",\"{id}\",{changes}],\"id\":null}}"
            )?)
        }
        _ => Err(NodeCaseError::Malformed),
    }
}

// The number of the commit that a reader is to have seen; 0 where null stands.
pub(crate) fn number_in(json: &Value) -> Result<u64, NodeCaseError> {
    if json.is_null() {
        return Ok(0);
    }
    Ok(number_of(text_in(json)?)?)
}

// Behind how many bytes a session breaks off: at its end where nothing stands there.
fn bytes_in(parts: &[Value]) -> Result<usize, NodeCaseError> {
    match parts {
        [] => Ok(usize::MAX),
        [bytes] => Ok(count_in(bytes)? as usize),
        _ => Err(NodeCaseError::Malformed),
    }
}

// `[AFTER, UNTIL, [MESSAGE, ..]]`, where the reply with the schema comes before the messages; or `[AFTER, UNTIL, [MESSAGE, ..], BYTES]`
// for a session that breaks off behind so many bytes of that.
fn read_session(
    alloc: Global,
    schema: &Schema,
    json: &Value,
) -> Result<UpstreamScript, NodeCaseError> {
    let [after, until, messages, rest @ ..] = list_in(json)? else {
        return Err(NodeCaseError::Malformed);
    };
    let bytes = bytes_in(rest)?;
    let schema = schema.to_json()?.to_string(alloc)?;
    let mut text = format!(in alloc; "{{\"id\":\"schema\",\"result\":{schema},\"error\":null}}")?;
    for message in list_in(messages)? {
        let message = message_text(alloc, message)?;
        text.push_str(message.as_str())?;
    }
    Ok(UpstreamScript {
        after: number_in(after)?,
        text,
        bytes,
        until: number_in(until)?,
    })
}

/// The sessions of one upstream, in order.
pub(crate) fn read_sessions(
    alloc: Global,
    schema: &Schema,
    json: &Value,
) -> Result<Vec<UpstreamScript>, NodeCaseError> {
    let mut sessions = Vec::new(alloc);
    for session in list_in(json)? {
        sessions.push(read_session(alloc, schema, session)?)?;
    }
    Ok(sessions)
}

/// What an upstream says in a session. Its end comes once a reader has seen what it is to see.
#[derive(Drop)]
pub(crate) struct Saying {
    session: UpstreamScript,
    given: usize,
    seen: Arc<AtomicU64>,
}

impl Read for Saying {
    fn read(&mut self, buf: &mut [u8]) -> io::Result<usize> {
        let text = self.session.text.as_bytes();
        let end = text.len().min(self.session.bytes);
        let mut rest = text;
        if self.given < end {
            rest = &text[self.given..end];
        } else {
            wait_for(&self.seen, self.session.until);
            rest = &[];
        }
        let len = rest.read(buf)?;
        self.given = self.given.saturating_add(len);
        Ok(len)
    }
}

/// Connections with one upstream.
#[derive(Drop)]
pub(crate) struct ScriptedUpstream {
    sessions: VecDeque<UpstreamScript>,
    seen: Arc<AtomicU64>,
}

impl ScriptedUpstream {
    /// One for each of these sessions.
    pub(crate) fn new(sessions: Vec<UpstreamScript>, seen: Arc<AtomicU64>) -> ScriptedUpstream {
        ScriptedUpstream {
            sessions: VecDeque::from_vec(sessions),
            seen,
        }
    }
}

impl Connector for ScriptedUpstream {
    type In = Saying;

    // What is said to an upstream isn't heard.
    type Out = Sink;

    ghost admits = { λ _ _. Unit {0} };

    ghost resyncs = { λ _. false };

    fn resyncs(&self) -> bool {
        false
    }

    fn most_bytes(&self) -> usize {
        MAX_MESSAGE_BYTES
    }

    fn next(&mut self) -> bool {
        match self.sessions.front() {
            Some(session) => wait_for(&self.seen, session.after),
            None => false,
        }
    }

    fn open(&mut self, _asked: TxnId) -> Option<(Saying, Sink)> {
        let session = self.sessions.pop_front()?;
        let reader = Saying {
            session,
            given: 0,
            seen: self.seen.clone().ok()?,
        };
        Some((reader, sink()))
    }
}
