// What is answered to a call that changes a map.
ghost use Rattle.std.specs.Prelude.{◌≡◌};
ghost use Rattle.free_number.specs.Used.{refusal_of};

// Why a call is refused: the number is not 1..127; it was to be added and is used; it was to be removed and is not used.
#[derive(Clone, Copy)]
pub enum Refusal {
    Outside,
    Taken,
    Unused,
}

impl Refusal {
    pub const OUTSIDE: u32 = 7;

    // The number is already as it was to be.
    pub const ALREADY: u32 = 9;

    // The document's number. Two share one, so that they cannot be the variants' own.
    pub fn number(self) -> u32
        ensures { result ≡ refusal_of self }
    {
        match self {
            Refusal::Outside => Refusal::OUTSIDE,
            Refusal::Taken | Refusal::Unused => Refusal::ALREADY,
        }
    }
}
