// The answers, each a line that is put together and written at once.
ghost use Rattle.std.specs.Prelude.{◌≡◌, ℕ, ◌+◌, ◌≤◌, List, [], ◌++◌, length, take};
ghost use Rattle.office.specs.Decimal.{decimal_of};
ghost use Rattle.office.specs.Answer.{silence_line, reply_line, refused_line, error_line, outcome_line};

use engine::Outcome;
use itoa::Buffer;
use std::marker::Model;

// Room for the longest answer, which names a line by twenty digits.
const ROOM: usize = 64;

// An answer: so many characters at the start of the text.
#[derive(Drop)]
pub(crate) struct Line {
    text: [u8; ROOM],
    count: usize,
}

impl Model for Line {
    ghost Value = { List ℕ };

    ghost view = { λ l. take l.count l.text };

    ghost invariant = { λ l. l.count ≤ 64 };
}

impl Line {
    // No answer.
    pub(crate) fn new() -> Self
        ensures { result ≡ [] }
    {
        Line {
            text: [b' '; ROOM],
            count: 0,
        }
    }

    pub(crate) fn text(&self) -> &[u8]
        ensures { result.now ≡ self.now }
    {
        &self.text[..self.count]
    }

    // A piece more.
    fn with(mut self, piece: &[u8]) -> Self
        requires { length self + length piece.now ≤ 64 }
        ensures { result ≡ self ++ piece.now }
    {
        let start = self.count;
        let end = start + piece.len();
        self.text[start..end].copy_from_slice(piece);
        self.count = end;
        self
    }

    // A number more, in decimal digits.
    #[tactic(auto, using(crate::proofs::Decimals::decimal_is))]
    fn with_number(self, n: u64) -> Self
        requires { length self + 20 ≤ 64 }
        ensures value { result ≡ self ++ decimal_of n }
        ensures length_in_bounds { length result ≤ length self + 20 }
    {
        self.with(Buffer::new().format(n).as_bytes())
    }
}

fn silence() -> Line
    ensures { result ≡ silence_line }
{
    Line::new().with(b"silence\n")
}

#[tactic(auto, using(hex_digits::proofs::Ten::ten_line))]
fn reply(ten: [u8; 10]) -> Line
    ensures { result ≡ reply_line ten }
{
    let mut line = [b'\n'; 21];
    hex_digits::spell(&ten, &mut line);
    Line::new().with(&line)
}

// A refusal, by its number.
fn refused(number: u32) -> Line
    ensures { result ≡ refused_line number }
{
    Line::new()
        .with(b"refused ")
        .with_number(number as u64)
        .with(b"\n")
}

// A line that is no telegram, by its number.
pub(crate) fn error(number: u64) -> Line
    ensures { result ≡ error_line number }
{
    Line::new()
        .with(b"error at line ")
        .with_number(number)
        .with(b": not twenty hex digits\n")
}

// What a telegram came to. A refusal cannot be: the head of this program is one that the factory made and the engine handed back. It is told all the
// same, since nothing in the engine's answer rules it out.
pub(crate) fn outcome(what: Outcome, ten: [u8; 10]) -> Line
    ensures { result ≡ outcome_line what ten }
{
    match what {
        Outcome::Silence => silence(),
        Outcome::Reply => reply(ten),
        Outcome::Refused(why) => refused(why.number()),
    }
}
