// What stands behind a parameter address.
ghost use Rattle.std.specs.Prelude.{◌≡◌, ◌-◌};
ghost use Rattle.rows.specs.Kinds.{other_of, kind_of};

use crate::table;

// What a read only parameter shows.
#[derive(Clone, Copy)]
pub enum Shown {
    Identification,
    Version,
    ErrorCount,
    ErrorAt(usize),
    InputErrors,
    StatusWord,
    Differential,
    Pending,
    Position,
}

// What a write only parameter orders.
#[derive(Clone, Copy)]
pub enum Order {
    System,
    Calibration,
    Interlock,
    Freezing,
    Assignment,
}

// The parameters by their access groups. Those that are read and written are the 39, by their places, and the two set points.
#[derive(Clone, Copy)]
pub enum Kind {
    Stored(usize),
    SetPoint1,
    SetPoint2,
    ReadOnly(Shown),
    WriteOnly(Order),
    Unknown,
}

// Of an address that is none of the 39.
#[tactic(auto, unfolding(crate::specs::Kinds::other_of))]
fn other(address: u8) -> Kind
    ensures { result ≡ other_of address }
{
    match address {
        0x65 => Kind::ReadOnly(Shown::Identification),
        0x67 => Kind::ReadOnly(Shown::Version),
        0x80 => Kind::ReadOnly(Shown::ErrorCount),
        // 81h is place 0 of the error memory
        0x81..=0x8A => Kind::ReadOnly(Shown::ErrorAt((address - 0x81) as usize)),
        0x96 => Kind::ReadOnly(Shown::InputErrors),
        0xA0 => Kind::WriteOnly(Order::System),
        0xA7 => Kind::WriteOnly(Order::Calibration),
        0xA8 => Kind::WriteOnly(Order::Interlock),
        0xAA => Kind::WriteOnly(Order::Freezing),
        0xD2 => Kind::WriteOnly(Order::Assignment),
        0xFA => Kind::ReadOnly(Shown::StatusWord),
        0xFB => Kind::SetPoint1,
        0xFC => Kind::ReadOnly(Shown::Differential),
        0xFD => Kind::ReadOnly(Shown::Pending),
        0xFE => Kind::ReadOnly(Shown::Position),
        0xFF => Kind::SetPoint2,
        _ => Kind::Unknown,
    }
}

#[tactic(auto, unfolding(crate::specs::Kinds::kind_of))]
pub fn kind_of(address: u8) -> Kind
    ensures { result ≡ kind_of address }
{
    match table::place_of(address) {
        Some(i) => Kind::Stored(i),
        None => other(address),
    }
}
