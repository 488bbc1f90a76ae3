// Why a call is refused; what is wrong with a sheet, the sheet says.
ghost use Rattle.std.specs.Prelude.{◌≡◌};
ghost use Rattle.head.specs.Refusals.{refusal_of};

#[derive(Clone, Copy)]
pub enum Refusal {
    Node,
    Full,
    NoHead,
    OutOfReach,
    Keys,
    Space,
    Sheet(sheet::refusal::Refusal),
    Malformed,
    SerialTaken,
    RackLength,
    RackSpace,
}

impl Refusal {
    pub const NODE: u32 = 1;

    pub const FULL: u32 = 2;

    pub const NO_HEAD: u32 = 3;

    pub const OUT_OF_REACH: u32 = 4;

    pub const KEYS: u32 = 5;

    pub const SPACE: u32 = 6;

    pub const RACK_LENGTH: u32 = 15;

    pub const RACK_SPACE: u32 = 16;

    pub const SERIAL_TAKEN: u32 = 17;

    pub const MALFORMED: u32 = 20;

    // The document's number. `Sheet` carries the sheet's own, so that no variant can be cast to its number.
    pub fn number(self) -> u32
        ensures { result ≡ refusal_of self }
    {
        match self {
            Refusal::Node => Refusal::NODE,
            Refusal::Full => Refusal::FULL,
            Refusal::NoHead => Refusal::NO_HEAD,
            Refusal::OutOfReach => Refusal::OUT_OF_REACH,
            Refusal::Keys => Refusal::KEYS,
            Refusal::Space => Refusal::SPACE,
            Refusal::Sheet(why) => why.number(),
            Refusal::Malformed => Refusal::MALFORMED,
            Refusal::SerialTaken => Refusal::SERIAL_TAKEN,
            Refusal::RackLength => Refusal::RACK_LENGTH,
            Refusal::RackSpace => Refusal::RACK_SPACE,
        }
    }
}
