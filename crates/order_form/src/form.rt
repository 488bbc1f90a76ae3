// A form held by value, row by row, and its check.
ghost use Rattle.std.specs.Prelude.{◌≡◌};
ghost use Rattle.order_form.specs.Held.{blank_of, add_of, check_of};

use crate::answer::{Answer, Refusal};
use crate::row::Row;
use crate::search;

// The most rows.
pub(crate) const MOST: usize = 127;

// The first `count` are the form's rows. A count of more than 127 stands for any number of rows above 127, of which the first 127 are kept.
// The rows are an array, not a `Vec`: no library allocates.
#[derive(Clone, Copy)]
pub struct Form {
    pub rows: [Row; 127],
    pub count: usize,
}

// A form with no row.
#[tactic(auto, unfolding(crate::specs::Held::blank_of))]
pub fn blank() -> Form
    ensures { result ≡ blank_of }
{
    Form {
        rows: [Row { serial: 0, node: 0 }; 127],
        count: 0,
    }
}

// One row more.
#[tactic(auto, unfolding(crate::specs::Held::add_of))]
pub fn add(mut form: Form, row: Row) -> Form
    ensures { result ≡ add_of form row }
{
    if form.count < MOST {
        form.rows[form.count] = row;
        form.count += 1;
    } else {
        form.count = MOST + 1;
    }
    form
}

// The answer to the rows that it holds: a count that no array holds is refused, as 8, before all else.
#[tactic(auto, unfolding(crate::specs::Held::check_of))]
pub fn check(form: Form) -> Answer
    ensures { result ≡ check_of form }
{
    match form.rows.get(..form.count) {
        Some(rows) => search::answer(rows),
        None => Answer::Refused(Refusal::TooMany),
    }
}
