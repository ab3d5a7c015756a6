//! The names of the locks with which each session has to do.

ghost use Rattle.std.specs.Prelude.{◌≡◌, ◌≢◌, ℕ, List, [], Some, None, OnOk, OnErr, true, false, option_and_then, option_map, unwrap_or, length};
ghost use Rattle.std.specs.BTreeMap.{IsOrdered};
ghost use Rattle.std.specs.Ordering.{nat_cmp};
ghost use Rattle.ovs_locks.specs.ByName.{Ascends};
ghost use Rattle.ovs_locks.specs.BySession.{NamesNote, Notes, names_at, mark_in, mark_at, is_some_owed, owed_names, TellsAll, Forgets};

use ovs_json::{NoMemory, SessionId, Text};
use std::alloc::Global;
use std::collections::BTreeMap;
use std::marker::Model;

/// The names of one session, each with whether something may be owed for it.
#[derive(Drop)]
pub(crate) struct Names {
    names: BTreeMap<Text, bool>,
    is_owed: bool,
}

impl Model for Names {
    ghost use Rattle.std.specs.Prelude.{◌≡◌, ℕ, List, Bool};
    ghost use Rattle.std.specs.BTreeMap.{IsOrdered};
    ghost use Rattle.std.specs.Ordering.{nat_cmp};
    ghost use Rattle.std.specs.Cmp.Lexicographic.{slice_cmp};
    ghost use Rattle.std.specs.Coded.{coded×, coded_ℕ, coded_list, coded_bool};
    ghost use Rattle.ovs_locks.specs.BySession.{Names, is_some_owed};

    ghost Value = { Names };

    ghost coded = { coded_list (coded× (coded_list coded_ℕ) coded_bool) };

    ghost view = { λ n. n.names.entries };

    ghost invariant = { λ n. IsOrdered (slice_cmp nat_cmp) n.names × (n.is_owed ≡ is_some_owed n.names.entries) };
}

fn is_some_owed(names: &BTreeMap<Text, bool>) -> bool
    ensures value { result ≡ is_some_owed names.now.entries }
{
    for (_name, owed) in names.iter() {
        if *owed {
            return true;
        }
    }
    false
}

// Sets the mark of a name that is there.
fn set(names: &mut BTreeMap<Text, bool>, name: &Text, owed: bool)
    ensures note { NamesNote names.old.entries name.now (option_map (λ _. owed) (mark_in name.now names.old.entries)) names.new.entries }
    ensures ascend { Ascends names.new.entries }
{
    if let Some(mark) = names.get_mut(name) {
        *mark = owed;
    }
}

fn remove(names: &mut BTreeMap<Text, bool>, name: &Text)
    ensures note { NamesNote names.old.entries name.now None names.new.entries }
    ensures ascend { Ascends names.new.entries }
{
    let _ = names.remove(name);
}

impl Names {
    fn new(alloc: Global) -> Names
        ensures value { result ≡ [] }
    {
        Names {
            names: BTreeMap::new(alloc),
            is_owed: false,
        }
    }

    fn add(&mut self, name: &Text) -> Result<(), NoMemory>
        ensures note { OnOk result (NamesNote self.old name.now (Some false) self.new) }
        ensures unchanged { OnErr result (self.new ≡ self.old) }
    {
        self.names.insert(name.copy()?, false)?;
        self.is_owed = is_some_owed(&self.names);
        Ok(())
    }

    fn note(&mut self, name: &Text, mark: Option<bool>)
        ensures note { NamesNote self.old name.now (option_and_then (λ _. mark) (mark_in name.now self.old)) self.new }
    {
        match mark {
            Some(owed) => set(&mut self.names, name, owed),
            None => remove(&mut self.names, name),
        }
        self.is_owed = is_some_owed(&self.names);
    }

    fn note_told(&mut self)
        ensures at { (name : List ℕ) → mark_in name self.new ≡ option_map (λ _. false) (mark_in name self.old) }
    {
        self.names.retain(|_name, owed| {
            *owed = false;
            true
        });
        self.is_owed = is_some_owed(&self.names);
    }

    fn is_empty(&self) -> bool
        ensures value { result ≡ true → self.now ≡ [] }
    {
        self.names.is_empty()
    }

    fn len(&self) -> usize
        ensures value { result ≡ length self.now }
        ensures ascend { Ascends self.now }
    {
        self.names.len()
    }
}

/// The names of each session. One that has none isn't there.
#[derive(Drop)]
pub struct BySession {
    sessions: BTreeMap<SessionId, Names>,
}

impl Model for BySession {
    ghost use Rattle.std.specs.BTreeMap.{IsOrdered};
    ghost use Rattle.std.specs.Ordering.{nat_cmp};
    ghost use Rattle.std.specs.Coded.{coded×, coded_ℕ, coded_list};
    ghost use Rattle.ovs_locks.specs.contracts.by_session.Names as names_row;
    ghost use Rattle.ovs_locks.specs.BySession.{Sessions};

    ghost Value = { Sessions };

    ghost coded = { coded_list (coded× coded_ℕ names_row.the_row.coded) };

    ghost view = { λ s. s.sessions.entries };

    ghost invariant = { λ s. IsOrdered nat_cmp s.sessions };
}

// Takes a session out that has no names.
fn forget(sessions: &mut BTreeMap<SessionId, Names>, session: SessionId)
    requires empty { names_at session sessions.old.entries ≡ [] }
    ensures same { (other : ℕ) → names_at other sessions.new.entries ≡ names_at other sessions.old.entries }
    ensures ordered { IsOrdered nat_cmp sessions.new }
{
    let _ = sessions.remove(&session);
}

impl BySession {
    /// No session has a name.
    pub fn new(alloc: Global) -> BySession
        ensures value { result ≡ [] }
    {
        BySession {
            sessions: BTreeMap::new(alloc),
        }
    }

    /// A session has this name from now on, and is owed nothing for it.
    ///
    /// # Errors
    /// `NoMemory` alone; nothing is changed then.
    pub fn enter(&mut self, alloc: Global, session: SessionId, name: &Text) -> Result<(), NoMemory>
        ensures note { OnOk result (Notes self.old session name.now (Some false) self.new) }
        ensures unchanged { OnErr result (self.new ≡ self.old) }
    {
        if let Some(names) = self.sessions.get_mut(&session) {
            return names.add(name);
        }
        let mut names = Names::new(alloc);
        names.add(name)?;
        self.sessions.insert(session, names)?;
        Ok(())
    }

    /// The mark of a name that a session has becomes this; `None` takes the name out. No memory is taken.
    pub fn note(&mut self, session: SessionId, name: &Text, mark: Option<bool>)
        ensures note { Notes self.old session name.now (option_and_then (λ _. mark) (mark_at session name.now self.old)) self.new }
    {
        if let Some(names) = self.sessions.get_mut(&session) {
            names.note(name, mark);
            if names.is_empty() {
                forget(&mut self.sessions, session);
            }
        }
    }

    /// Nothing is owed to a session any more. No memory is taken.
    pub fn note_told(&mut self, session: SessionId)
        ensures told { TellsAll session self.old self.new }
    {
        if let Some(names) = self.sessions.get_mut(&session) {
            names.note_told();
        }
    }

    /// Takes out the names of a session. No memory is taken.
    pub fn take(&mut self, session: SessionId) -> Option<BTreeMap<Text, bool>>
        ensures names { unwrap_or (option_map (λ m. m.entries) result) [] ≡ names_at session self.old }
        ensures forgets { Forgets session self.old self.new }
    {
        let names = self.sessions.remove(&session)?;
        Some(names.names)
    }

    /// How many names a session has.
    pub fn count(&self, session: SessionId) -> usize
        ensures value { result ≡ length (names_at session self.now) }
        ensures ascend { Ascends (names_at session self.now) }
    {
        match self.sessions.get(&session) {
            Some(names) => names.len(),
            None => 0,
        }
    }

    /// The names of a session.
    pub fn names(&self, session: SessionId) -> Option<&BTreeMap<Text, bool>>
        ensures value { unwrap_or (option_map (λ m. m.now.entries) result) [] ≡ names_at session self.now }
        ensures ascend { Ascends (names_at session self.now) }
    {
        let names = self.sessions.get(&session)?;
        Some(&names.names)
    }

    /// The names of a session, where something may be owed to it.
    pub fn owed(&self, session: SessionId) -> Option<&BTreeMap<Text, bool>>
        ensures value { option_map (λ m. m.now.entries) result ≡ owed_names session self.now }
        ensures ascend { Ascends (names_at session self.now) }
    {
        let names = self.sessions.get(&session)?;
        if names.is_owed {
            Some(&names.names)
        } else {
            None
        }
    }
}
