// The form, read in pieces and taken apart into lines. The functions here stand much alike in each program that reads lines: a library could take what
// is done with a line only as a closure that it asks something of, and here no public function asks anything.
ghost use Rattle.std.specs.Prelude.{◌≡◌, []};
ghost use Rattle.text.specs.Reading.{ended_of, closed_of, read_of};
ghost use Rattle.order.specs.Desk.{noted_of};
ghost use Rattle.order.specs.Reading.{progress_of, room};

use crate::desk::Desk;
use crate::{answer, desk};
use std::io;
use std::io::Read;
use std::process::ExitCode;
use text::failing::Failure;
use text::keeping::Kept;

// As much of a line as its meaning needs: a longer one is malformed whatever it holds.
const KEPT: usize = 4101;

impl Desk {
    // The end of a line: what is kept of it is noted.
    fn end(&mut self, line: &mut Kept<KEPT>)
        ensures { progress_of self.new line.new ≡ ended_of noted_of (progress_of self.old line.old) }
    {
        desk::noted(self, &line.text[..line.count]);
        line.clear();
    }

    // The bytes of a piece: each newline ends a line.
    fn take_in(&mut self, line: &mut Kept<KEPT>, piece: &[u8])
        ensures { progress_of self.new line.new ≡ read_of noted_of room (progress_of self.old line.old) piece.now }
    {
        let mut from = 0;
        while let Some(next) = line.take_in(piece, from) {
            self.end(line);
            from = next;
        }
    }

    // The end of the form: what is kept, if anything, is a last line without a newline.
    #[tactic(auto, unfolding(text::specs::Reading::closed_of))]
    fn close(&mut self, line: &mut Kept<KEPT>)
        ensures kept_value { line.new ≡ [] }
        ensures desk_value { self.new ≡ closed_of noted_of (progress_of self.old line.old) }
    {
        if !line.is_empty() {
            self.end(line);
        }
    }
}

// The whole form. A proved loop has to end, and nothing says that the form does: the turns count up to a number that no run uses up.
fn read(input: &mut impl Read) -> io::Result<Desk> {
    let mut desk = desk::bare();
    let mut line = Kept::new();
    let mut piece = [0u8; 4096];
    for _ in 0..u64::MAX {
        let n = input.read(&mut piece)?;
        if n == 0 {
            desk.close(&mut line);
            break;
        }
        desk.take_in(&mut line, &piece[..n]);
    }
    Ok(desk)
}

// A form that could not be read whole gets no answer.
pub(crate) fn run(rt: &(impl Print + Eprint + Input)) -> ExitCode {
    match read(&mut rt.reader()) {
        Ok(desk) => {
            if answer::say(rt, desk::said(desk)) {
                ExitCode::SUCCESS
            } else {
                ExitCode::FAILURE
            }
        }
        Err(why) => {
            let _ = eprintln!(rt; "{}", Failure::Input(why));
            ExitCode::FAILURE
        }
    }
}
