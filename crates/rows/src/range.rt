// Whether a value is right for its parameter.
ghost use Rattle.std.specs.Prelude.{◌≡◌, Bool, ◌≤◌};
ghost use Rattle.rows.specs.Table.{row_of};
ghost use Rattle.rows.specs.Ranges.{is_signed_of, reading_of, unlisted_of, between_of, range_in, other_row_of, range_of, fits_in, right_from, all_right_of};

use crate::table;
use crate::table::Row;

#[derive(Clone, Copy)]
pub enum Range {
    Right,
    Low,
    High,
    Between,
}

// Whether the parameter's data are read as two's complement: 1Eh, 1Fh and FFh.
#[tactic(auto, unfolding(crate::specs::Ranges::is_signed_of))]
pub fn is_signed(address: u8) -> bool
    ensures { result ≡ is_signed_of address }
{
    matches!(address, 0x1E | 0x1F | 0xFF)
}

// The number that a word of the parameter stands for.
#[tactic(auto, unfolding(crate::specs::Ranges::reading_of))]
pub fn reading(address: u8, word: u32) -> i64
    ensures { result ≡ reading_of address word }
{
    if is_signed(address) {
        signed::number(word)
    } else {
        word as i64
    }
}

// Between the limits, and none of the values that the parameter takes.
#[tactic(auto, unfolding(crate::specs::Ranges::unlisted_of))]
fn unlisted(address: u8, word: u32) -> bool
    ensures { result ≡ unlisted_of address word }
{
    match address {
        0x3E => word == 1,
        0xA0 => matches!(word, 3 | 4 | 6),
        _ => false,
    }
}

#[tactic(auto, unfolding(crate::specs::Ranges::between_of))]
fn between(low: i64, high: i64, v: i64, skipped: bool) -> Range
    ensures { result ≡ between_of low high v skipped }
{
    if v < low {
        Range::Low
    } else if high < v {
        Range::High
    } else if skipped {
        Range::Between
    } else {
        Range::Right
    }
}

#[tactic(auto, unfolding(crate::specs::Ranges::range_in))]
fn range_in(row: Row, word: u32) -> Range
    ensures { result ≡ range_in row word }
{
    let skipped = unlisted(row.0, word);
    let v = reading(row.0, word);
    between(row.1, row.2, v, skipped)
}

// The limits of the parameters that may be written and are not stored.
#[tactic(auto, unfolding(crate::specs::Ranges::other_row_of))]
fn other_row(address: u8) -> Row
    ensures { result ≡ other_row_of address }
{
    match address {
        0xA0 => Row(0xA0, 1, 9, 0),
        0xA7 => Row(0xA7, 1, 1, 0),
        0xA8 => Row(0xA8, 0, 1, 0),
        0xAA => Row(0xAA, 1, 1, 0),
        0xD2 => Row(0xD2, 1, 31, 0),
        0xFF => Row(0xFF, -2147483648, 2147483647, 0),
        _ => Row(address, 0, 4294967295, 0),
    }
}

// How a value that is written to the parameter lies to its limits.
#[tactic(auto, unfolding(crate::specs::Ranges::range_of))]
pub fn range_of(address: u8, word: u32) -> Range
    ensures { result ≡ range_of address word }
{
    match table::place_of(address) {
        Some(i) => range_in(table::row_of(i), word),
        None => range_in(other_row(address), word),
    }
}

#[tactic(auto, unfolding(crate::specs::Ranges::fits_in))]
fn fits(row: Row, word: u32) -> bool
    ensures { result ≡ fits_in row word }
{
    matches!(range_in(row, word), Range::Right)
}

// Whether a word lies in the row at a place.
pub fn fits_at(i: usize, word: u32) -> bool
    ensures { result ≡ fits_in (row_of i) word }
{
    fits(table::row_of(i), word)
}

// The 39 tests are written out: at a place that the compiler knows a test is two comparisons, and a loop takes 934 instructions in place of 176.
fn right_from<const FROM: usize>(values: [u32; 39]) -> bool
    requires { FROM ≤ 26 }
    ensures { result ≡ right_from FROM 13 values }
{
    fits_at(FROM, values[FROM])
        & fits_at(FROM + 1, values[FROM + 1])
        & fits_at(FROM + 2, values[FROM + 2])
        & fits_at(FROM + 3, values[FROM + 3])
        & fits_at(FROM + 4, values[FROM + 4])
        & fits_at(FROM + 5, values[FROM + 5])
        & fits_at(FROM + 6, values[FROM + 6])
        & fits_at(FROM + 7, values[FROM + 7])
        & fits_at(FROM + 8, values[FROM + 8])
        & fits_at(FROM + 9, values[FROM + 9])
        & fits_at(FROM + 10, values[FROM + 10])
        & fits_at(FROM + 11, values[FROM + 11])
        & fits_at(FROM + 12, values[FROM + 12])
}

// Whether each of the 39 stored values lies in its row.
pub fn all_right(values: [u32; 39]) -> bool
    ensures { result ≡ all_right_of values }
{
    right_from::<0>(values) & right_from::<13>(values) & right_from::<26>(values)
}
