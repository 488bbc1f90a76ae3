// A line under a script: reads commands from standard input, one a line, calls, and writes one line for each.
#![tactic(auto)]

mod answer;
mod ask;
mod carried;
mod desk;
mod feeding;
mod help;
mod racks;
mod reading;
mod sheets;

use std::env::{Env, FillError};
use std::process::ExitCode;

fn main(rt: HostRuntime) -> ExitCode {
    match rt.arg(1, &mut []) {
        Err(FillError::NotPresent) => reading::run(&rt),
        _ => help::explain(&rt),
    }
}
