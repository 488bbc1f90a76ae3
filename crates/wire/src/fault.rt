// The kinds of error, and the two-byte code of each: code 2 above code 1.
ghost use Rattle.std.specs.Prelude.{◌≡◌};
ghost use Rattle.wire.specs.Faults.{code_of};

#[derive(Clone, Copy)]
pub enum Fault {
    CheckSum,
    Timeout,
    Unlisted,
    Below,
    Above,
    UnknownParameter,
    NoAccess,
    WriteRefused,
    ReadRefused,
    DeviceState,
    Locked,
}

impl Fault {
    pub const CHECK_SUM: u16 = 0x0080;

    pub const TIMEOUT: u16 = 0x0081;

    pub const UNLISTED: u16 = 0x0082;

    pub const BELOW: u16 = 0x0182;

    pub const ABOVE: u16 = 0x0282;

    pub const UNKNOWN_PARAMETER: u16 = 0x0083;

    pub const NO_ACCESS: u16 = 0x0084;

    pub const WRITE_REFUSED: u16 = 0x0184;

    pub const READ_REFUSED: u16 = 0x0284;

    pub const DEVICE_STATE: u16 = 0x0085;

    pub const LOCKED: u16 = 0x0385;

    // By the constants, which no contract would hold if nothing used them.
    pub fn code(self) -> u16
        ensures { result ≡ code_of self }
    {
        match self {
            Fault::CheckSum => Fault::CHECK_SUM,
            Fault::Timeout => Fault::TIMEOUT,
            Fault::Unlisted => Fault::UNLISTED,
            Fault::Below => Fault::BELOW,
            Fault::Above => Fault::ABOVE,
            Fault::UnknownParameter => Fault::UNKNOWN_PARAMETER,
            Fault::NoAccess => Fault::NO_ACCESS,
            Fault::WriteRefused => Fault::WRITE_REFUSED,
            Fault::ReadRefused => Fault::READ_REFUSED,
            Fault::DeviceState => Fault::DEVICE_STATE,
            Fault::Locked => Fault::LOCKED,
        }
    }
}
