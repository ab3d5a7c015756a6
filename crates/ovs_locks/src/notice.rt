//! What a session is told of its locks.

ghost use Rattle.std.specs.Prelude.{◌≡◌, IfOk};
ghost use Rattle.ovs_locks.specs.Lock.{name_told};
ghost use Rattle.ovs_locks.specs.Notices.{message_of};

use ovs_json::{NoMemory, Text, text_json};
use ovs_wire::{Message, Method, Params};
use std::alloc::Global;

/// What became of a lock that a session asked for.
#[derive(Debug, Drop)]
pub enum LockNotice {
    /// The session owns the lock of this name (`locked`, RFC 7047 section 4.1.9).
    Locked(Text),
    /// The lock of this name was stolen from the session (`stolen`, RFC 7047 section 4.1.10).
    Stolen(Text),
}

impl LockNotice {
    /// The name of the lock.
    pub fn name(&self) -> &Text
        ensures value { result.now ≡ name_told self.now }
    {
        match self {
            LockNotice::Locked(name) | LockNotice::Stolen(name) => name,
        }
    }

    /// The notification that the session is sent: `locked` or `stolen`, with the name of the lock.
    ///
    /// # Errors
    /// `NoMemory` alone.
    pub fn to_message(&self, alloc: Global) -> Result<Message, NoMemory>
        ensures value { IfOk result (λ message. message ≡ message_of self.now) }
    {
        let (method, name) = match self {
            LockNotice::Locked(name) => ("locked", name),
            LockNotice::Stolen(name) => ("stolen", name),
        };
        let mut params = Vec::with_capacity(alloc, 1)?;
        params.push_reserved(text_json(alloc, name.as_str())?);
        Ok(Message::Notice {
            method: Method::new(String::from_str(alloc, method)?),
            params: Params::new(params),
        })
    }
}
