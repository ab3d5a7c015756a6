//! What sessions that ended have counted.

ghost use Rattle.std.specs.Prelude.{◌≡◌};
ghost use Rattle.ovs_worker.specs.Totals.{no_totals, totals_with};

use ovs_session::Counts;

/// How many sessions ended, and what they counted in all. Each number stays at its last value of 64 bits.
#[derive(Clone, Copy, Debug, PartialEq, Eq)]
pub struct SessionTotals {
    /// The sessions that ended.
    pub sessions: u64,
    /// What they counted.
    pub counts: Counts,
}

impl SessionTotals {
    /// No session.
    pub fn new() -> SessionTotals
        ensures value { result ≡ no_totals }
    {
        SessionTotals {
            sessions: 0,
            counts: Counts {
                turns: 0,
                messages: 0,
                bytes_out: 0,
            },
        }
    }

    /// One session more, which counted this.
    pub fn add(&mut self, counts: Counts)
        ensures value { self.new ≡ totals_with self.old counts }
    {
        self.sessions = self.sessions.saturating_add(1);
        self.counts = Counts {
            turns: self.counts.turns.saturating_add(counts.turns),
            messages: self.counts.messages.saturating_add(counts.messages),
            bytes_out: self.counts.bytes_out.saturating_add(counts.bytes_out),
        };
    }
}
