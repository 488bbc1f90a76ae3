// What the program says when it is asked for help.
use std::env::Env;
use std::process::ExitCode;
use text::failing::Failure;

const WORDS: &str = "Checks an order form on standard input, before anything is programmed: no two
rows may share a serial or a node number.

One row a line, as a spreadsheet saves it (CSV): serial and node number, with a
comma, a semicolon or a tab between them. Blank lines and lines that start with
# are passed over, and so is a heading with no digit in it. At most 127 rows.

The answer is one of these lines:

  accepted: 12 rows, all serials and all numbers differ
  line 9: serial 4711 stands already in line 4
  line 9: node number 12 stands already in line 4
  refused 7: line 9: node number 200 is not 1 to 127
  refused 8: more than 127 rows
  error at line 9: not a serial and a node number

A form with a serial or a number that stands already gets a second line, with
the lowest number that none of its rows has:

  the lowest free number is 5
  no number from 1 to 127 is free

All lines count for the numbering. Where the form is not accepted, that is said
on standard error too, and the exit status is 1.
";

// The only argument that there is. Each program has this for itself, since no contract of a library could fix the status that printing comes to.
pub(crate) fn explain(rt: &(impl Env + Print + Eprint)) -> ExitCode {
    let mut word = [0u8; 5];
    match rt.arg(1, &mut word) {
        Ok(n) if matches!(&word[..n], b"help") => match print!(rt; "{WORDS}") {
            Ok(()) => ExitCode::SUCCESS,
            Err(why) => {
                let _ = eprintln!(rt; "{}", Failure::Output(why));
                ExitCode::FAILURE
            }
        },
        _ => {
            let _ = eprintln!(rt;
                "order: the only argument is 'help'; the form comes from standard input"
            );
            ExitCode::FAILURE
        }
    }
}
