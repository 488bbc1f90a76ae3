// The head on the desk, and what a line of the list does to it.
ghost use Rattle.std.specs.Prelude.{◌≡◌};
ghost use Rattle.office.specs.Answer.{outcome_line};
ghost use Rattle.office.specs.Desk.{fresh_of, ten_of, told_of, obeyed_of, answer_to};

use crate::answer;
use crate::answer::Line;
use head::calls;
use script::telegrams;
use script::telegrams::Entry;
use state::parts::Head;
use std::array;

// The head after a line, and the answer to it.
#[derive(Drop)]
pub(crate) struct Spoken {
    pub head: Head,
    pub line: Line,
}

// The head that all telegrams are put to: at 31, as bench's is.
pub(crate) fn fresh() -> Head
    ensures { result ≡ fresh_of }
{
    calls::factory(0)
}

// The ten bytes whose digits start at the place `from`.
fn ten(text: &[u8], from: usize) -> [u8; 10]
    ensures { result ≡ ten_of text.now from }
{
    array::from_fn(|i| script::byte_at(text, from, i))
}

// Ten bytes put to the head, at time 0.
fn told(h: Head, bytes: [u8; 10]) -> Spoken
    ensures head_value { result.head ≡ (told_of h bytes).head }
    ensures line_value { result.line ≡ outcome_line (told_of h bytes).outcome (told_of h bytes).reply }
{
    let a = engine::answer(h, bytes, 0);
    Spoken {
        head: a.head,
        line: answer::outcome(a.outcome, a.reply),
    }
}

// What a line of that number says, done and answered.
#[tactic(auto, unfolding(crate::specs::Desk::obeyed_of, crate::specs::Desk::answer_to))]
pub(crate) fn speak(h: Head, text: &[u8], number: u64) -> Spoken
    ensures head_value { result.head ≡ obeyed_of h text.now }
    ensures line_value { result.line ≡ answer_to h text.now number }
{
    match telegrams::meaning(text) {
        Entry::Blank => Spoken {
            head: h,
            line: Line::new(),
        },
        Entry::Malformed => Spoken {
            head: h,
            line: answer::error(number),
        },
        Entry::Telegram(from) => told(h, ten(text, from)),
    }
}
