//! Runs a table of nodes: a line of standard input says what is said to a node, and what is to come of it. What differs is
//! printed, and at last how many lines were as expected.
//!
//! A line is `["WHAT", ARGUMENT, ..] => ANSWER`. Empty lines and lines that begin with `#` are passed over.
#![tactic(auto)]

mod case;
mod client;
mod engine;
mod fold;
mod jobs;
mod many;
mod memory_threads;
mod node;
mod node_case_error;
mod outcome;
mod poller;
mod readers;
mod sendings;
mod sessions;
mod tier;
mod upstreams;
mod worker;

use case::NodeCases;
use std::io::{self, BufRead, BufReader};

fn main(rt: HostRuntime) -> io::Result<()> {
    let alloc = rt.alloc();
    let mut cases = NodeCases::new(rt, alloc);
    let mut right = 0u64;
    let mut wrong = 0u64;
    for line in BufReader::new(alloc, rt.reader())?.lines(alloc) {
        let line = line?;
        let line = line.as_str().trim();
        if line.is_empty() || line.starts_with('#') {
            continue;
        }
        let (case, want) = line.split_once(" => ").unwrap_or((line, "ok"));
        let Ok(answer) = cases.told(case) else {
            return Err(io::ErrorKind::OutOfMemory.into());
        };
        if answer.as_str() == want {
            right = right.saturating_add(1);
        } else {
            wrong = wrong.saturating_add(1);
            println!(rt; "{line}\n  but: {answer}")?;
        }
    }
    println!(rt; "{right} as expected, {wrong} not")?;
    Ok(())
}
