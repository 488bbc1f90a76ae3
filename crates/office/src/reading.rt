// The list of telegrams, read in pieces and taken apart into lines.
// The functions here stand much alike in each program that reads lines: they print, or call what prints, and no contract of a library could say what.
ghost use Rattle.std.specs.Prelude.{◌≡◌, []};
ghost use Rattle.text.specs.Reading.{ended_of, closed_of, read_of};
ghost use Rattle.office.specs.Reading.{noted_of, state_of, progress_of, most};

use crate::desk;
use state::parts::Head;
use std::io;
use std::io::Read;
use std::process::ExitCode;
use text::failing::Failure;
use text::keeping::Kept;

// As much of a line as its meaning needs: a longer one is malformed whatever it holds.
const KEPT: usize = 4098;

// How far the list is read: the head, and how many lines there were.
#[derive(Clone, Copy)]
struct Reading {
    head: Head,
    lines: u64,
}

impl Reading {
    // The end of a line: what is kept of it is put to the head, and answered.
    fn end(&mut self, rt: &impl Print, line: &mut Kept<KEPT>) -> io::Result<()>
        ensures { progress_of self.new line.new ≡ ended_of noted_of (progress_of self.old line.old) }
    {
        self.lines = self.lines.wrapping_add(1);
        let spoken = desk::speak(self.head, &line.text[..line.count], self.lines);
        self.head = spoken.head;
        line.clear();
        rt.write_all(spoken.line.text())
    }

    // The bytes of a piece: each newline ends a line.
    fn take_in(&mut self, rt: &impl Print, line: &mut Kept<KEPT>, piece: &[u8]) -> io::Result<()>
        ensures { progress_of self.new line.new ≡ read_of noted_of most (progress_of self.old line.old) piece.now }
    {
        let mut written = Ok(());
        let mut from = 0;
        while let Some(next) = line.take_in(piece, from) {
            written = written.and(self.end(rt, line));
            from = next;
        }
        written
    }

    // The end of the list: what is kept, if anything, is a last line without a newline.
    #[tactic(auto, unfolding(text::specs::Reading::closed_of))]
    fn close(&mut self, rt: &impl Print, line: &mut Kept<KEPT>) -> io::Result<()>
        ensures kept_value { line.new ≡ [] }
        ensures result_value { state_of self.new ≡ closed_of noted_of (progress_of self.old line.old) }
    {
        if line.is_empty() {
            return Ok(());
        }
        self.end(rt, line)
    }
}

// The whole list. A proved loop has to end, and nothing says that the list does: the turns count up to a number that no run uses up.
fn read(rt: &impl Print, input: &mut impl Read) -> Result<(), Failure> {
    let mut reading = Reading {
        head: desk::fresh(),
        lines: 0,
    };
    let mut line = Kept::new();
    let mut piece = [0u8; 4096];
    for _ in 0..u64::MAX {
        let n = input.read(&mut piece).map_err(Failure::Input)?;
        if n == 0 {
            return reading.close(rt, &mut line).map_err(Failure::Output);
        }
        reading
            .take_in(rt, &mut line, &piece[..n])
            .map_err(Failure::Output)?;
    }
    Ok(())
}

pub(crate) fn run(rt: &(impl Print + Eprint + Input)) -> ExitCode {
    match read(rt, &mut rt.reader()) {
        Ok(()) => ExitCode::SUCCESS,
        Err(failure) => {
            let _ = eprintln!(rt; "{failure}");
            ExitCode::FAILURE
        }
    }
}
