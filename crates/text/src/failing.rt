// What ends a run of a program early.
use arrayvec::ArrayString;
use std::fmt::Write;
use std::{fmt, io};

// The input cannot be read, or the output cannot be written.
#[derive(Clone, Copy)]
pub enum Failure {
    Input(io::Error),
    Output(io::Error),
}

// What failed, and the system's words for why, without its number.
impl fmt::Display for Failure {
    fn fmt<W: fmt::Write>(&self, f: &mut fmt::Formatter<W>) -> fmt::Result {
        let (what, why) = match *self {
            Failure::Input(why) => ("standard input", why),
            Failure::Output(why) => ("standard output", why),
        };
        let mut said = ArrayString::<320>::new();
        if write!(said, "{why}").is_err() {
            return write!(f, "{what}: {why}");
        }
        match said.as_str().split_once(" (os error ") {
            Some((words, _)) => write!(f, "{what}: {words}"),
            None => write!(f, "{what}: {said}"),
        }
    }
}
