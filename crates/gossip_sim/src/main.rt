//! Simulates gossipsub peers: reads a scenario, runs it, and prints a report, figures, traces, scores or a picture of the run;
//! or checks or edits the scenario.
#![tactic(auto)]

mod check;
mod command;
mod edit;
mod laws;
mod picture;
mod report;
mod scores;
mod stats;
mod trace;

use gs_program::{arguments_of, refuse_unread};
use std::process::ExitCode;

fn main(rt: HostRuntime) -> ExitCode {
    match arguments_of(&rt) {
        Ok(arguments) => command::run_for(
            &rt,
            arguments.as_slice(),
            &mut rt.stdin(),
            &mut rt.stdout(),
            &mut rt.stderr(),
        ),
        Err(fault) => refuse_unread(fault.kind(), &mut rt.stderr(), report::USAGE),
    }
}
