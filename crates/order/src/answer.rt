// What the clerk is told, in words.
use crate::desk::Notice;
use order_form::answer::Refusal;
use std::fmt;
use text::failing::Failure;

// The number that the clerk may give instead.
fn propose<W: fmt::Write>(f: &mut fmt::Formatter<W>, free: Option<u32>) -> fmt::Result {
    match free {
        Some(node) => write!(f, "the lowest free number is {node}"),
        None => f.write_str("no number from 1 to 127 is free"),
    }
}

impl fmt::Display for Notice {
    fn fmt<W: fmt::Write>(&self, f: &mut fmt::Formatter<W>) -> fmt::Result {
        match *self {
            Notice::Accepted(1) => {
                f.write_str("accepted: 1 row, all serials and all numbers differ")
            }
            Notice::Accepted(rows) => {
                write!(
                    f,
                    "accepted: {rows} rows, all serials and all numbers differ"
                )
            }
            Notice::SameSerial {
                line,
                serial,
                earlier,
                free,
            } => {
                writeln!(
                    f,
                    "line {line}: serial {serial} stands already in line {earlier}"
                )?;
                propose(f, free)
            }
            Notice::SameNumber {
                line,
                node,
                earlier,
                free,
            } => {
                writeln!(
                    f,
                    "line {line}: node number {node} stands already in line {earlier}"
                )?;
                propose(f, free)
            }
            Notice::Outside { line, node } => write!(
                f,
                "refused {}: line {line}: node number {node} is not 1 to 127",
                Refusal::OUTSIDE
            ),
            Notice::TooMany => write!(f, "refused {}: more than 127 rows", Refusal::TOO_MANY),
            Notice::Malformed(line) => {
                write!(f, "error at line {line}: not a serial and a node number")
            }
        }
    }
}

// The answer on standard output; whether the form is accepted, and that could be written. Standard error gets one line where not.
pub(crate) fn say(rt: &(impl Print + Eprint), notice: Notice) -> bool {
    if let Err(why) = rt.println(notice) {
        let _ = eprintln!(rt; "{}", Failure::Output(why));
        return false;
    }
    let accepted = matches!(notice, Notice::Accepted(_));
    if !accepted {
        let _ = rt.eprintln("order: the form is not accepted");
    }
    accepted
}
