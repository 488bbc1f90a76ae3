// Why a sheet is not read, not loaded or not written.
ghost use Rattle.std.specs.Prelude.{◌≡◌};
ghost use Rattle.sheet.specs.Refusals.{refusal_of};

// The bytes are no sheet; an address is not among the 39; a value lies outside its row; the space is too short to write one.
#[derive(Clone, Copy)]
pub enum Refusal {
    Malformed = 11,
    NotStored = 12,
    OutOfRow = 13,
    Short = 14,
}

impl Refusal {
    // The document's number.
    pub fn number(self) -> u32
        ensures { result ≡ refusal_of self }
    {
        self as u32
    }
}
