// A line read as a row of two numbers.
ghost use Rattle.std.specs.Prelude.{◌≡◌};
ghost use Rattle.form_text.specs.Cuts.{fields_of};
ghost use Rattle.form_text.specs.Form.{paired_of, said_of, row_of};

use crate::cuts;
use text::numbers;

// The largest number of 32 bits.
const WHOLE: u32 = 4_294_967_295;

// What a line means: it is passed over, blank or a comment or a heading, it is a row, or it is none of these.
#[derive(Clone, Copy)]
pub enum Entry {
    Blank,
    Heading,
    Row { serial: u32, node: u32 },
    Malformed,
}

// The number that a field says.
fn said(field: &[u8]) -> Option<u32>
    ensures { result ≡ said_of field.now }
{
    numbers::decimal(cuts::trimmed(field), WHOLE)
}

// The row of two numbers that fit.
fn paired(serial: Option<u32>, node: Option<u32>) -> Entry
    ensures { result ≡ paired_of serial node }
{
    match (serial, node) {
        (Some(serial), Some(node)) => Entry::Row { serial, node },
        _ => Entry::Malformed,
    }
}

// The row that the line is. What stands past the first separator is read as one field: another separator in it is no digit.
pub(crate) fn row(line: &[u8]) -> Entry
    ensures { result ≡ row_of (fields_of line.now) }
{
    match line.iter().position(|c| cuts::separator(*c)) {
        Some(end) => paired(said(&line[..end]), said(&line[end + 1..])),
        None => Entry::Malformed,
    }
}
