// Answers: written, or put together first, so that a line of many replies is written at once.
ghost use Rattle.std.specs.Prelude.{◌≤◌};

use std::io;

// As much of an answer as is put together before it is written.
const ROOM: usize = 2048;

// An answer that is being put together: so many characters at the start of the text are still to be written. Once something could not be written
// nothing more is.
#[derive(Clone, Copy)]
pub(crate) struct Answer {
    text: [u8; ROOM],
    kept: usize,
    written: io::Result<()>,
    ghost in_room: { kept ≤ 2048 },
}

impl Answer {
    pub(crate) fn new() -> Self {
        Answer {
            text: [0; ROOM],
            kept: 0,
            written: Ok(()),
        }
    }

    // What is put together is written.
    pub(crate) fn flush(&mut self, rt: &impl Print) -> io::Result<()> {
        self.written?;
        self.written = rt.write_all(&self.text[..self.kept]);
        self.kept = 0;
        self.written
    }

    // A piece more, after what stands in its way is written. No piece is longer than the room.
    #[tactic(auto, unfolding(text::specs::Laid::kept_of))]
    pub(crate) fn put(&mut self, rt: &impl Print, piece: &[u8]) {
        if ROOM - self.kept < piece.len() {
            let _ = self.flush(rt);
        }
        self.kept = text::laying::lay(&mut self.text, self.kept, piece);
    }

    // A label and a number more, written at once: what is put together goes before them.
    pub(crate) fn put_number(&mut self, rt: &impl Print, label: &str, n: u64) {
        if self.flush(rt).is_ok() {
            self.written = print!(rt; "{label}{n}");
        }
    }
}

// A refusal, by its number.
pub(crate) fn refuse(rt: &impl Print, number: u32) -> io::Result<()> {
    println!(rt; "refused {number}")
}
