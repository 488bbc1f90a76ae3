// The check of the order form: does any row repeat an earlier row's serial or node number.
#![tactic(auto)]

pub mod answer;
pub mod form;
pub mod row;
mod search;

ghost use Rattle.std.specs.Prelude.{◌≡◌};
ghost use Rattle.order_form.specs.Check.{answer_of};

use answer::Answer;
use row::Row;

// The check of rows that the caller lends.
pub fn check_rows(rows: &[Row]) -> Answer
    ensures { result ≡ answer_of rows.now }
{
    search::answer(rows)
}
