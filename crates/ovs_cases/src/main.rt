//! Runs a table of cases: each line of standard input asks the crates of this repository something, and says what
//! their answer is to be. What differs is printed, and at last how many lines were as expected.
#![tactic(auto)]

mod authorities;
mod case;
mod case_error;
mod changes;
mod columns;
mod commands;
mod data;
mod desks;
mod devices;
mod folds;
mod forwards;
mod full_stores;
mod ids;
mod locks;
mod messages;
mod queries;
mod readers;
mod relay_desks;
mod schemas;
mod scripts;
mod sources;
mod stores;
mod stories;
mod streams;
mod upstreams;

use case::CrateCases;
use ovs_case_lines::run_cases;
use std::io;

fn main(rt: HostRuntime) -> io::Result<()> {
    run_cases(&rt, rt.alloc(), &CrateCases)
}
