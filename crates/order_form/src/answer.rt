// What the check answers.
ghost use Rattle.std.specs.Prelude.{◌≡◌};
ghost use Rattle.order_form.specs.Check.{refusal_of};

use crate::row::Column;

// Rows are counted from 0. `Repeats`: in that column the row named first has what the row named second, an earlier one, has.
// Not a `Result`: its `Ok` would be either all differ or a repeat, an enum again.
#[derive(Clone, Copy)]
pub enum Answer {
    AllDiffer,
    Repeats(Column, usize, usize),
    Refused(Refusal),
}

// Why a form is refused: a row's node number is not 1..127, and the first such row is named; or there are more than 127 rows.
#[derive(Clone, Copy)]
pub enum Refusal {
    Outside(usize),
    TooMany,
}

impl Refusal {
    pub const OUTSIDE: u32 = 7;

    pub const TOO_MANY: u32 = 8;

    // The document's number. `Outside` carries its row, so that no variant can be cast to its number.
    pub fn number(self) -> u32
        ensures { result ≡ refusal_of self }
    {
        match self {
            Refusal::Outside(row) => Refusal::OUTSIDE,
            Refusal::TooMany => Refusal::TOO_MANY,
        }
    }
}
