//! Requests by the sessions that asked.

ghost use Rattle.std.specs.Prelude.{◌≡◌, ◌<◌, ◌≤◌, slice_get, vec_len, vec_capacity};
ghost use Rattle.ovs_desk.specs.ByAsker.{is_before, is_same, is_this, place, put, without, first_number, InOrder};

use ovs_json::SessionId;

/// Whose request it is, and its number. Lists of them stand by the askers, and then by the numbers.
#[derive(Clone, Copy, Drop)]
pub(crate) struct ByAsker {
    /// The session that asked.
    pub asker: SessionId,
    /// The request's number.
    pub number: u64,
}

impl ByAsker {
    fn is_before(&self, other: &ByAsker) -> bool
        ensures value { result ≡ is_before self.now other.now }
    {
        self.asker < other.asker || (self.asker == other.asker && self.number < other.number)
    }

    fn is_same(&self, other: &ByAsker) -> bool
        ensures value { result ≡ is_same self.now other.now }
    {
        self.asker == other.asker && self.number == other.number
    }
}

// Where it stands, or would.
fn place(list: &[ByAsker], one: &ByAsker) -> usize
    requires in_order { InOrder list.now }
    ensures value { result ≡ place one.now list.now }
{
    list.partition_point(|other| other.is_before(one))
}

/// The least number of an asker's.
pub(crate) fn first_number(list: &[ByAsker], asker: SessionId) -> Option<u64>
    requires in_order { InOrder list.now }
    ensures value { result ≡ first_number asker list.now }
{
    let one = list.get(place(list, &ByAsker { asker, number: 0 }))?;
    if one.asker == asker {
        Some(one.number)
    } else {
        None
    }
}

/// Puts one in its place; there is room.
pub(crate) fn put(list: &mut Vec<ByAsker>, one: ByAsker)
    requires in_order { InOrder list.old.items }
    requires room { vec_len list.old < vec_capacity list.old }
    ensures items { list.new.items ≡ put one list.old.items }
    ensures capacity { vec_capacity list.old ≤ vec_capacity list.new }
{
    let at = place(list, &one);
    let _ = list.insert(at, one);
}

// Whether it stands there.
fn stands_at(list: &[ByAsker], at: usize, one: &ByAsker) -> bool
    ensures value { result ≡ is_this one.now (slice_get list.now at) }
{
    match list.get(at) {
        Some(other) => other.is_same(one),
        None => false,
    }
}

/// Takes it out, where it is there.
pub(crate) fn take_out(list: &mut Vec<ByAsker>, one: &ByAsker)
    requires in_order { InOrder list.old.items }
    ensures items { list.new.items ≡ without one.now list.old.items }
    ensures capacity { vec_capacity list.new ≡ vec_capacity list.old }
{
    let at = place(list, one);
    if stands_at(list, at, one) {
        let _ = list.remove(at);
    }
}
