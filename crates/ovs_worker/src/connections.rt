//! The connections that are out.

ghost use Rattle.std.specs.Prelude.{◌≡◌, ◌≢◌, ◌++◌, [], ℕ, Some, None, option_to_list};
ghost use Rattle.ovs_worker.specs.Connections.{out_of};

use ovs_sync::history::{EntryFrom, GhostList};
use std::collections::LinkedList;
use std::marker::Model;
use std::snapshot::Snapshot;

// What became of which number, and the connections that are back.
type ConnectionState<I, O> = (LinkedList<(usize, Option<(I, O)>)>, LinkedList<(I, O)>);

// A connection came in under a number.
struct Coming<I, O> {
    before: Snapshot<Connections<I, O>>,
    key: usize,
    reader: Snapshot<I>,
    writer: Snapshot<O>,
}

impl<I, O> EntryFrom<Coming<I, O>, ConnectionState<I, O>> for Coming<I, O> {
    ghost use Rattle.std.specs.Prelude.{[], ◌∷◌, ◌++◌, Some};

    ghost entry = { λ c. (c.before.value.changes ++ (c.key, Some (c.reader.value, c.writer.value)) ∷ [], c.before.value.back) };
}

// The connection of a number is back.
struct Leaving<I, O> {
    before: Snapshot<Connections<I, O>>,
    key: usize,
}

impl<I, O> EntryFrom<Leaving<I, O>, ConnectionState<I, O>> for Leaving<I, O> {
    ghost use Rattle.std.specs.Prelude.{[], ◌∷◌, ◌++◌, None, option_to_list};
    ghost use Rattle.ovs_worker.specs.Connections.{out_of};

    ghost entry = { λ l. (l.before.value.changes ++ (l.key, None) ∷ [], l.before.value.back ++ option_to_list (out_of l.before.value l.key)) };
}

/// The connections that came in under their numbers and aren't back, and those that are, as they were when they came in: for pollers that
/// say so. Only proofs see it: it takes no memory, and nothing reads it when the program runs.
#[derive(Drop)]
pub struct Connections<I, O> {
    // The state that is kept is the first.
    states: Snapshot<GhostList<ConnectionState<I, O>>>,
}

impl<I, O> Model for Connections<I, O> {
    ghost use Rattle.std.specs.Prelude.{refl};
    ghost use Rattle.ovs_worker.specs.Connections.{Notes, newest};

    ghost Value = { Notes (I × O) };

    ghost view = { λ c. newest c.states.value };
}

impl<I, O> Connections<I, O> {
    /// None came in.
    pub fn new() -> Connections<I, O>
        ensures none { (key : ℕ) → out_of result key ≡ None }
        ensures none_back { result.back ≡ [] }
    {
        Connections {
            states: Snapshot::of(&GhostList::new()),
        }
    }

    /// This connection came in under this number.
    pub fn note_came(&mut self, key: usize, reader: &I, writer: &O)
        ensures came { out_of self.new key ≡ Some (reader.now, writer.now) }
        ensures others { (other : ℕ) → other ≢ key → out_of self.new other ≡ out_of self.old other }
        ensures back { self.new.back ≡ self.old.back }
    {
        let coming = Coming {
            before: Snapshot::of(self),
            key,
            reader: Snapshot::of(reader),
            writer: Snapshot::of(writer),
        };
        let mut states = GhostList::<ConnectionState<I, O>>::new();
        states.push_as::<Coming<I, O>, Coming<I, O>>(&coming);
        self.states = Snapshot::of(&states);
        let Coming {
            before: _,
            key: _,
            reader: _,
            writer: _,
        } = coming;
    }

    /// The connection of this number is back.
    pub fn note_left(&mut self, key: usize)
        ensures gone { out_of self.new key ≡ None }
        ensures others { (other : ℕ) → other ≢ key → out_of self.new other ≡ out_of self.old other }
        ensures back { self.new.back ≡ self.old.back ++ option_to_list (out_of self.old key) }
    {
        let leaving = Leaving {
            before: Snapshot::of(self),
            key,
        };
        let mut states = GhostList::<ConnectionState<I, O>>::new();
        states.push_as::<Leaving<I, O>, Leaving<I, O>>(&leaving);
        self.states = Snapshot::of(&states);
        let Leaving { before: _, key: _ } = leaving;
    }
}
