//! Runs a table of sessions over devices that fail: a line of standard input says which session, how its devices fail and what is said
//! over them, and what is to come of it. What differs is printed, and at last how many lines were as expected.
#![tactic(auto)]

mod case;
mod devices;
mod reader_trials;
mod relay_node;
mod session_case_error;
mod stand_in;
mod talks;
mod trials;
mod upstream_trials;

use case::SessionCases;
use ovs_case_lines::run_cases;
use std::io;

fn main(rt: HostRuntime) -> io::Result<()> {
    run_cases(&rt, rt.alloc(), &SessionCases { rt })
}
