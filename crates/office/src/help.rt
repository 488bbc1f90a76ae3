// What the program says when it is asked for help.
use std::env::Env;
use std::process::ExitCode;
use text::failing::Failure;

const WORDS: &str = "Usage: office <TELEGRAMS

Puts whole telegrams from standard input to one head, fresh from the factory, at
31, all at time 0.

One telegram a line: twenty hex digits, in either case, with blanks or tabs
around them. Blank lines and lines whose first word starts with # are passed
over. Each other line is answered by one of these:

  001F200000000000053A                      the reply, twenty hex digits
  silence                                   the head does not reply
  error at line 7: not twenty hex digits    the line is no telegram; the head does
                                            not hear of it
";

// The only argument that there is. Each program has this for itself, since no contract of a library could fix the status that printing comes to.
pub(crate) fn explain(rt: &(impl Env + Print + Eprint)) -> ExitCode {
    let mut word = [0u8; 5];
    match rt.arg(1, &mut word) {
        Ok(n) if matches!(&word[..n], b"help") => match print!(rt; "{WORDS}") {
            Ok(()) => ExitCode::SUCCESS,
            Err(why) => {
                let _ = eprintln!(rt; "{}", Failure::Output(why));
                ExitCode::FAILURE
            }
        },
        _ => {
            let _ = eprintln!(rt;
                "office: the only argument is 'help'; the telegrams come from standard input"
            );
            ExitCode::FAILURE
        }
    }
}
