// The search through the rows of a form.
ghost use Rattle.std.specs.Prelude.{◌≡◌, [], position};
ghost use Rattle.order_form.specs.Rows.{has, is_outside};
ghost use Rattle.order_form.specs.Check.{repeat_from, answer_of};

use crate::answer::{Answer, Refusal};
use crate::form::MOST;
use crate::row::{Column, Row};

// The first of the rows that has `value` in the column.
fn place(rows: &[Row], column: Column, value: u32) -> Option<usize>
    ensures { result ≡ position (has column value) rows.now }
{
    rows.iter().position(|r| r.value(column) == value)
}

// The first of the rows whose node number is not 1..127.
fn outside(rows: &[Row]) -> Option<usize>
    ensures { result ≡ position is_outside rows.now }
{
    rows.iter().position(|r| !head::calls::node_fits(r.node))
}

// The first of the rows that repeats an earlier one: the serial is looked at before the number.
fn first_repeat(rows: &[Row]) -> Answer
    ensures { result ≡ repeat_from [] rows.now }
{
    for (k, r) in rows.iter().enumerate() {
        let before = &rows[..k];
        if let Some(earlier) = place(before, Column::Serial, r.serial) {
            return Answer::Repeats(Column::Serial, k, earlier);
        }
        if let Some(earlier) = place(before, Column::Number, r.node) {
            return Answer::Repeats(Column::Number, k, earlier);
        }
    }
    Answer::AllDiffer
}

// The answer to these rows: 8 goes before 7, and 7 before any search.
pub(crate) fn answer(rows: &[Row]) -> Answer
    ensures { result ≡ answer_of rows.now }
{
    if MOST < rows.len() {
        return Answer::Refused(Refusal::TooMany);
    }
    match outside(rows) {
        Some(row) => Answer::Refused(Refusal::Outside(row)),
        None => first_repeat(rows),
    }
}
