//! The requests that went up and aren't answered.

ghost use Rattle.std.specs.Prelude.{◌≡◌, ◌≢◌, ℕ, List, [], Some, None, OnOk, OnErr, false, option_and_then, option_map, unwrap_or};
ghost use Rattle.ovs_locks.specs.ByName.{Ascends};
ghost use Rattle.ovs_locks.specs.BySession.{Notes, Forgets, names_at, mark_at};
ghost use Rattle.ovs_lock_desk.specs.UpwardTable.{Opens};

use crate::lock_state::LockVerb;
use ovs_json::{NoMemory, Text};
use ovs_locks::BySession;
use std::alloc::Global;
use std::collections::BTreeMap;
use std::marker::Model;

/// The names of the locks that were asked for under each number, as long as the request isn't answered.
#[derive(Drop)]
pub(crate) struct OpenRequests {
    // The number stands in the place of a session; none is open where there is no map.
    requests: Option<BySession>,
}

impl Model for OpenRequests {
    ghost use Rattle.std.specs.Prelude.{[], unwrap_or};
    ghost use Rattle.ovs_locks.specs.contracts.by_session.BySession as requests_row;
    ghost use Rattle.ovs_locks.specs.BySession.{Sessions};

    ghost Value = { Sessions };

    ghost coded = { requests_row.the_row.coded };

    ghost view = { λ r. unwrap_or r.requests [] };
}

impl OpenRequests {
    /// None is open.
    pub(crate) fn new() -> OpenRequests
        ensures value { result ≡ [] }
    {
        OpenRequests { requests: None }
    }

    /// None is open any more.
    pub(crate) fn clear(&mut self)
        ensures value { self.new ≡ [] }
    {
        self.requests = None;
    }

    /// This is asked for the lock of this name, under this number. No answer to an Unlock is waited for.
    ///
    /// # Errors
    /// `NoMemory` alone; nothing is changed then.
    pub(crate) fn note_sent(
        &mut self,
        alloc: Global,
        number: u64,
        name: &Text,
        verb: LockVerb,
    ) -> Result<(), NoMemory>
        ensures opens { OnOk result (Opens verb number name.now self.old self.new) }
        ensures unchanged { OnErr result (self.new ≡ self.old) }
    {
        match verb {
            LockVerb::Lock | LockVerb::Steal => self.enter(alloc, number, name),
            LockVerb::Unlock => Ok(()),
        }
    }

    // The lock of this name is asked for under this number.
    fn enter(&mut self, alloc: Global, number: u64, name: &Text) -> Result<(), NoMemory>
        ensures note { OnOk result (Notes self.old number name.now (Some false) self.new) }
        ensures unchanged { OnErr result (self.new ≡ self.old) }
    {
        if let Some(requests) = &mut self.requests {
            return requests.enter(alloc, number, name);
        }
        let mut requests = BySession::new(alloc);
        requests.enter(alloc, number, name)?;
        self.requests = Some(requests);
        Ok(())
    }

    /// The request of this number for the lock of this name isn't open any more.
    pub(crate) fn close(&mut self, number: u64, name: &Text)
        ensures note { Notes self.old number name.now (option_and_then (λ _. None) (mark_at number name.now self.old)) self.new }
    {
        if let Some(requests) = &mut self.requests {
            requests.note(number, name, None);
        }
    }

    /// Takes out the names of the locks that were asked for under this number.
    pub(crate) fn take(&mut self, number: u64) -> Option<BTreeMap<Text, bool>>
        ensures names { unwrap_or (option_map (λ m. m.entries) result) [] ≡ names_at number self.old }
        ensures forgets { Forgets number self.old self.new }
    {
        match &mut self.requests {
            Some(requests) => requests.take(number),
            None => None,
        }
    }

    /// The names of the locks that were asked for under this number.
    pub(crate) fn names(&self, number: u64) -> Option<&BTreeMap<Text, bool>>
        ensures value { unwrap_or (option_map (λ m. m.now.entries) result) [] ≡ names_at number self.now }
        ensures ascend { Ascends (names_at number self.now) }
    {
        match &self.requests {
            Some(requests) => requests.names(number),
            None => None,
        }
    }
}
