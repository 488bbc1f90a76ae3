// The access group of a parameter address.
ghost use Rattle.std.specs.Prelude.{◌≡◌};
ghost use Rattle.rows.specs.Access.{access_of, broadcast_of};

#[derive(Clone, Copy)]
pub enum Access {
    ReadWrite,
    ReadOnly,
    WriteOnly,
    Unknown,
}

#[tactic(auto, unfolding(crate::specs::Access::access_of, crate::specs::Table::rows))]
pub fn access_of(address: u8) -> Access
    ensures { result ≡ access_of address }
{
    match address {
        0x00..=0x0F
        | 0x1B
        | 0x1C
        | 0x1E..=0x22
        | 0x28
        | 0x30..=0x35
        | 0x39..=0x40
        | 0xD0
        | 0xFB
        | 0xFF => { Access::ReadWrite }
        0x65 | 0x67 | 0x80 | 0x81..=0x8A | 0x96 | 0xFA | 0xFC | 0xFD | 0xFE => Access::ReadOnly,
        0xA0 | 0xA7 | 0xA8 | 0xAA | 0xD2 => Access::WriteOnly,
        _ => Access::Unknown,
    }
}

// Whether the parameter may be broadcast.
#[tactic(auto, unfolding(crate::specs::Access::broadcast_of))]
pub fn broadcast(address: u8) -> bool
    ensures { result ≡ broadcast_of address }
{
    matches!(address, 0xA0 | 0xA8 | 0xAA)
}
