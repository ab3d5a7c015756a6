//! What a session counts.
ghost use Rattle.std.specs.Prelude.{◌≡◌};
ghost use Rattle.ovs_session.specs.Counting.{count_on, with_a_turn, with_a_message};

/// What a session has counted since it began. Each count stays at `u64::MAX` once there.
#[derive(Clone, Copy, Debug, PartialEq, Eq)]
pub struct Counts {
    /// The calls of its reader and its writer.
    pub turns: u64,
    /// The whole messages that were taken out of its framer.
    pub messages: u64,
    /// The bytes that its writer took.
    pub bytes_out: u64,
}

impl Counts {
    /// One call of a device more.
    pub(crate) fn add_turn(&mut self)
        ensures value { self.new ≡ with_a_turn self.old }
    {
        self.turns = self.turns.saturating_add(1);
    }

    /// One message more.
    pub(crate) fn add_message(&mut self)
        ensures value { self.new ≡ with_a_message self.old }
    {
        self.messages = self.messages.saturating_add(1);
    }

    /// So many bytes more were written.
    pub(crate) fn add_bytes(&mut self, count: usize)
        ensures value { self.new ≡ record self.old { bytes_out = count_on self.old.bytes_out count } }
    {
        self.bytes_out = self.bytes_out.saturating_add(count as u64);
    }
}
