//! What is told while a node runs.

use crate::backlog::Backlog;
use crate::timed::Timed;
use log::kv::Source;
use log::span::Spans;
use log::{Log, Metadata, Record};
use std::alloc::Global;
use std::fmt::Display;
use std::sync::Wait;
use std::time::Clock;

/// Tells each record in a line on standard error, as all else that the program says there, with the time (UTC, to the millisecond).
/// Nobody waits until it is read.
#[derive(Clone, Copy, Drop)]
pub(crate) struct LogLines<'b, R> {
    rt: R,
    alloc: Global,
    backlog: &'b Backlog,
}

impl<'b, R> LogLines<'b, R> {
    /// By this backlog.
    pub(crate) fn new(rt: R, alloc: Global, backlog: &'b Backlog) -> LogLines<'b, R> {
        LogLines { rt, alloc, backlog }
    }
}

impl<'b, R: Clock + Wait> Log for LogLines<'b, R> {
    fn enabled(&self, _metadata: &Metadata<'_>) -> bool {
        true
    }

    fn log<D: Display, K: Source, S: Spans>(&self, record: &Record<'_, D, K, S>) {
        let said = Timed::now(&self.rt, record.args());
        match format!(in self.alloc; "{said}") {
            Ok(line) => self.backlog.put(&self.rt, line),
            Err(_) => self.backlog.note_dropped(),
        }
    }

    fn flush(&self) {}

    fn target(&self) -> &str {
        "ovs_relay"
    }
}
