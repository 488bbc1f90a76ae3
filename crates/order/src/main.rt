// The check of an order form: reads the form from standard input, and writes what the clerk is told.
#![tactic(auto)]

mod answer;
mod desk;
mod help;
mod reading;

use std::env::{Env, FillError};
use std::process::ExitCode;

fn main(rt: HostRuntime) -> ExitCode {
    match rt.arg(1, &mut []) {
        Err(FillError::NotPresent) => reading::run(&rt),
        _ => help::explain(&rt),
    }
}
