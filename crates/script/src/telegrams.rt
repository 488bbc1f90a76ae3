// What a line of a list of telegrams means.
ghost use Rattle.std.specs.Prelude.{◌≡◌};
ghost use Rattle.script.specs.Telegrams.{listed_of, entry_of};

use crate::words;
use crate::words::{Kind, Rest};
use text::numbers;

// How many bytes a telegram has.
const TEN: usize = 10;

// What a line of a list of telegrams means: nothing to do, no telegram, or one. Its bytes stay in the line: their digits start at the place, and
// `byte_at` reads them.
#[derive(Clone, Copy)]
pub enum Entry {
    Blank,
    Malformed,
    Telegram(usize),
}

// What a line without its newline means. One of more than 4,097 bytes is malformed whatever it holds, so that its first 4,098 bytes do for it.
#[tactic(auto, unfolding(crate::specs::Telegrams::entry_of))]
pub fn meaning(line: &[u8]) -> Entry
    ensures { result ≡ entry_of line.now }
{
    listed(words::bare(line))
}

// What a line without newline and carriage return means.
#[tactic(auto, unfolding(crate::specs::Telegrams::listed_of))]
fn listed(line: &[u8]) -> Entry
    ensures { result ≡ listed_of line.now }
{
    match words::kind_of(line) {
        Kind::Long => Entry::Malformed,
        Kind::Passed => Entry::Blank,
        Kind::Spoken(at) => {
            if numbers::hex_bytes(Rest { line, from: 0 }.sole()) == TEN {
                Entry::Telegram(at)
            } else {
                Entry::Malformed
            }
        }
    }
}
