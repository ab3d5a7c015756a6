//! What a node says at its end.

ghost use Rattle.std.specs.Prelude.{◌≡◌, ◌↔◌, IsTrue, if◌then◌else◌, string_bytes};
ghost use Rattle.ovs_node_threads.specs.Reporting.{IsReportOf};
ghost use Rattle.ovs_fold_script.specs.Closing.{chain_lines};
ghost use Rattle.ovs_server.specs.Ending.{IsEndOf};

use ovs_fold_script::chain_lines;
use ovs_links::LinkStore;
use ovs_node::{FeedName, NodeName, Report};
use std::alloc::Global;
use std::sync::Wait;
use std::thread;

/// What a node says once all its threads have come to their ends.
#[derive(Drop)]
pub struct ExitReport {
    /// Two lines: the head of its chain, and how many links it holds, are in the chain, and wait for one before them.
    pub text: String,
    /// Whether no link was refused, as a fork or for want of room.
    pub is_whole: bool,
    /// Why the node came to its end by itself, if it did.
    pub cause: Cause,
    // It is said of a node that has run.
    pub ghost of_node: { ∥ IsEndOf (string_bytes text) is_whole ∥₁ },
}

/// Why a node came to its end by itself.
#[derive(Clone, Copy, Debug, PartialEq, Eq)]
pub struct Cause {
    /// Nobody sent it links any more.
    pub has_given_up: bool,
    /// An upstream can't be followed: it has another schema, or said a message above the limits.
    pub refused_upstream: bool,
}

impl Cause {
    /// The node ended since all its threads did.
    pub(crate) const NONE: Cause = Cause {
        has_given_up: false,
        refused_upstream: false,
    };
}

// The two lines of a store. Where memory runs out it tries again.
fn lines_of<R: Wait>(rt: &R, alloc: Global, store: &LinkStore) -> String
    ensures text { string_bytes result ≡ chain_lines store.now }
{
    let mut text = String::new(alloc);
    for _ in rt.forever() {
        match chain_lines(alloc, store) {
            Ok(lines) => {
                text = lines;
                break;
            }
            Err(_) => thread::yield_now(),
        }
    }
    text
}

// Whether no link was refused.
fn refused_none(forks: u64, short: u64) -> bool
    ensures value { IsTrue result ↔ ((forks ≡ 0) × (short ≡ 0)) }
{
    forks == 0 && short == 0
}

impl ExitReport {
    // What there is to say of a node of which this is left.
    pub(crate) fn of<K: NodeName, Q: FeedName, H, R: Wait>(
        rt: &R,
        alloc: Global,
        report: &Report<K, Q, H>,
        cause: Cause,
    ) -> ExitReport
        requires report { IsReportOf report.now.feed.returned report.now.store report.now.settled report.now.forks report.now.short report.now.dropped }
        ensures text { string_bytes result.text ≡ chain_lines report.now.store }
        ensures whole { IsTrue result.is_whole ↔ ((report.now.forks ≡ 0) × (report.now.short ≡ 0)) }
        ensures cause { result.cause ≡ cause }
    {
        let text = lines_of(rt, alloc, &report.store);
        let is_whole = refused_none(report.forks, report.short);
        ExitReport {
            text,
            is_whole,
            cause,
        }
    }

    /// The exit status of the program: 0 done, 1 where a link or an upstream was refused, 3 where nobody sent it links any more.
    pub fn status(&self) -> u8
        ensures value { result ≡ (if self.now.cause.has_given_up then 3 else if self.now.cause.refused_upstream then 1 else if self.now.is_whole then 0 else 1) }
    {
        if self.cause.has_given_up {
            3
        } else if self.is_whole && !self.cause.refused_upstream {
            0
        } else {
            1
        }
    }
}
