// A reader that keeps the sheet and its row number together, and hands out one row after another. Only `new` and `next` touch the struct; they
// are thin over functions on slice and number. It keeps nothing else of the sheet, so that no reader, however it was made, hands out a row of bytes
// that are no sheet: each call looks at the whole sheet, which has 39 rows at most.
ghost use Rattle.std.specs.Prelude.{◌≡◌};
ghost use Rattle.sheet.specs.Format.{read_of, row_after};
ghost use Rattle.sheet.specs.Reader.{new_of, advanced_of};

use crate::format;
use crate::refusal::Refusal;

#[derive(Clone, Copy)]
pub struct SheetReader<'a> {
    pub sheet: &'a [u8],
    pub row: u8,
}

// What is handed out: a row's address and value, or that none is left. An enum of its own, as `next` hands it out and demands' `Real` names it.
#[derive(Clone, Copy)]
pub enum Reading {
    Row(u8, u32),
    End,
    Refused(Refusal),
}

// Row `row` of the sheet.
#[tactic(auto, unfolding(crate::specs::Format::read_of))]
pub(crate) fn row_of(sheet: &[u8], row: u8) -> Reading
    ensures { result ≡ read_of sheet.now row }
{
    if !format::well_formed(sheet) {
        Reading::Refused(Refusal::Malformed)
    } else if row < format::count(sheet) {
        Reading::Row(format::address_at(sheet, row), format::value_at(sheet, row))
    } else {
        Reading::End
    }
}

// No sheet has a row past 38, so the number may stay there.
pub(crate) fn row_after(row: u8) -> u8
    ensures { result ≡ row_after row }
{
    if row < format::MOST { row + 1 } else { row }
}

impl<'a> SheetReader<'a> {
    // A reader at the first row.
    pub fn new(sheet: &'a [u8]) -> SheetReader<'a>
        ensures { result ≡ new_of sheet.entry }
    {
        SheetReader { sheet, row: 0 }
    }

    // The next row.
    pub fn next(&mut self) -> Reading
        ensures { (result ≡ read_of self.old.sheet.now self.old.row) × (self.new ≡ advanced_of self.old) }
    {
        let row = self.row;
        self.row = row_after(row);
        row_of(self.sheet, row)
    }
}
