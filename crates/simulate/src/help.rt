// What the program says when it is asked for help.
use std::env::Env;
use std::process::ExitCode;
use text::failing::Failure;

const WORDS: &str = "A line of SIKONETZ5 heads under a script on standard input: one command a line,
words separated by blanks or tabs, one line of output for each.

  head NODE SERIAL     grow the line by a head; the first is head 0
  send TIME HEX        feed these bytes (two hex digits each), all at TIME
  tick TIME            let the heads look at the clock
  measure HEAD VALUE   a head's measurement; VALUE may have a minus sign
  keys HEAD STATE      a head's keys: 1 left, 2 star, 4 up, or a sum of these
  power HEAD           switch a head off and on
  bring HEAD           bring an older head over: 35h becomes 0 and it shows its
                       absolute position; any other head stays as it is
  space SIZE           space lent for replies and sheets, 0 to 1024; 10 at first
  xor HEAD             which bits of a head's last damaged telegram were hit
  save HEAD            a head's settings on a sheet, to be loaded into another
  load HEAD [HEX]      load the sheet of these bytes; no HEX: a sheet of no byte
  rack TIME PLACE [HEX]
                       drop what was gathered, then feed up to 64 telegrams, all
                       at TIME; replies go into the space from PLACE on
  ask TIME COMMAND NODE PARAMETER WORD DATA
                       build the telegram of these fields with its check sum,
                       feed its ten bytes at TIME, and read what comes back;
                       WORD is up to 65535, COMMAND, NODE and PARAMETER to 255

Numbers are decimal, TIME is in milliseconds. Blank lines and lines whose first
word starts with # are passed over. What is written for a command:

  ok                   done
  ok REPLY             keys done, and the head adopts the number it was offered:
                       REPLY is what it sends, twenty hex digits
  sent ...             fed; then each reply as twenty hex digits, or 'collision N'
                       where N heads replied at once
  asked ...            fed; then 'value N' or 'error HHHH' for a reply to this
                       question, 'foreign' for any other, or 'collision N'
  xor HH               the exclusive-or of the last damaged telegram that the head
                       heard since it was switched on or restarted; 00: none
  saved HEX            the sheet, 274 bytes (two hex digits each)
  racked N M ...       fed, with N replies and M collisions; then each reply as
                       twenty hex digits
  refused N            1 node number not 1 to 127   4 measurement out of range
                       2 thirty-third head          5 key state above 7
                       3 no such head               6 space under ten bytes
                       10 command above 2 or node above 127
                       11 sheet malformed           13 value out of its row
                       12 address not among the 39  14 space under 274 bytes
                       15 not whole telegrams, or more than 64
                       16 space from PLACE on shorter than the telegrams
                       17 serial already on the line
  error at line N      the line is none of these commands
";

// The only argument that there is. Each program has this for itself, since no contract of a library could fix the status that printing comes to.
pub(crate) fn explain(rt: &(impl Env + Print + Eprint)) -> ExitCode {
    let mut word = [0u8; 5];
    match rt.arg(1, &mut word) {
        Ok(n) if matches!(&word[..n], b"help") => match print!(rt; "{WORDS}") {
            Ok(()) => ExitCode::SUCCESS,
            Err(why) => {
                let _ = eprintln!(rt; "{}", Failure::Output(why));
                ExitCode::FAILURE
            }
        },
        _ => {
            let _ = eprintln!(rt;
                "simulate: the only argument is 'help'; the script comes from standard input"
            );
            ExitCode::FAILURE
        }
    }
}
