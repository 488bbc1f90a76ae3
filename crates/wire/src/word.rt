// Words of two and four bytes, high byte first, and their bytes.
ghost use Rattle.std.specs.Prelude.{◌≡◌};
ghost use Rattle.wire.specs.Word.{half_of, whole_of, byte0, byte1, byte2, byte3};

pub fn half(b0: u8, b1: u8) -> u16
    ensures { result ≡ half_of b0 b1 }
{
    u16::from_be_bytes([b0, b1])
}

pub fn whole(b0: u8, b1: u8, b2: u8, b3: u8) -> u32
    ensures { result ≡ whole_of b0 b1 b2 b3 }
{
    u32::from_be_bytes([b0, b1, b2, b3])
}

// The bytes of a word of four, the highest first.
pub fn first(w: u32) -> u8
    ensures { result ≡ byte0 w }
{
    w.to_be_bytes()[0]
}

pub fn second(w: u32) -> u8
    ensures { result ≡ byte1 w }
{
    w.to_be_bytes()[1]
}

pub fn third(w: u32) -> u8
    ensures { result ≡ byte2 w }
{
    w.to_be_bytes()[2]
}

pub fn fourth(w: u32) -> u8
    ensures { result ≡ byte3 w }
{
    w.to_be_bytes()[3]
}

// The bytes of a word of two.
pub fn high(h: u16) -> u8
    ensures { result ≡ byte2 h }
{
    h.to_be_bytes()[0]
}

pub fn low(h: u16) -> u8
    ensures { result ≡ byte3 h }
{
    h.to_be_bytes()[1]
}
