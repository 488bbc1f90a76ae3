// One head at 31 in the office: reads whole telegrams from standard input, one a line, and writes what each is answered with.
#![tactic(auto)]

mod answer;
mod desk;
mod help;
mod reading;

use std::env::{Env, FillError};
use std::process::ExitCode;

fn main(rt: HostRuntime) -> ExitCode {
    match rt.arg(1, &mut []) {
        Err(FillError::NotPresent) => reading::run(&rt),
        _ => help::explain(&rt),
    }
}
