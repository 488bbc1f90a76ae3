// What a line of a written order form means.
#![tactic(auto)]

mod cuts;
pub mod rows;

ghost use Rattle.std.specs.Prelude.{◌≡◌};
ghost use Rattle.form_text.specs.Form.{any_digit, read_of, entry_of};

use rows::Entry;
use text::lines;

// How long a line may be.
const LONGEST: usize = 4096;

// What a line without its newline means. `top`: it is the very first line of the form, where a byte order mark may stand; `first`: no line
// before it was other than blank or a comment, so that it may be a heading. One of more than 4,100 bytes is malformed whatever it holds, so that
// its first 4,101 bytes do for it.
#[tactic(auto, unfolding(crate::specs::Form::entry_of))]
pub fn entry(line: &[u8], top: bool, first: bool) -> Entry
    ensures { result ≡ entry_of line.now top first }
{
    let unmarked = cuts::unmarked(line, top);
    let n = lines::bare_length(unmarked);
    if LONGEST < n {
        return Entry::Malformed;
    }
    read(cuts::trimmed(&unmarked[..n]), first)
}

// What a line without the spaces at both ends means.
#[tactic(auto, unfolding(crate::specs::Form::read_of))]
fn read(line: &[u8], first: bool) -> Entry
    ensures { result ≡ read_of line.now first }
{
    match line {
        [] | [b'#', ..] => Entry::Blank,
        _ if first && !any_digit(line) => Entry::Heading,
        _ => rows::row(line),
    }
}

// Is there a digit in the line.
fn any_digit(line: &[u8]) -> bool
    ensures { result ≡ any_digit line.now }
{
    line.iter().any(|c| c.is_ascii_digit())
}
