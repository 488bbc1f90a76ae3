// The 39 rows of limits and delivery values, and the place of an address among them.
ghost use Rattle.std.specs.Prelude.{◌≡◌};
ghost use Rattle.rows.specs.Table.{row_of, place_of};

// Address, low, high, delivery value.
#[derive(Clone, Copy)]
pub struct Row(pub u8, pub i64, pub i64, pub u32);

// The rows in the order of their places.
static ROWS: [Row; 39] = [
    Row(0x00, 1, 127, 31),
    Row(0x01, 0, 2, 1),
    Row(0x02, 0, 20, 0),
    Row(0x03, 0, 2, 0),
    Row(0x04, 1, 60, 5),
    Row(0x05, 0, 1, 1),
    Row(0x06, 0, 1, 0),
    Row(0x07, 0, 1, 1),
    Row(0x08, 0, 1, 1),
    Row(0x09, 0, 1, 1),
    Row(0x0A, 0, 4, 0),
    Row(0x0B, 0, 3, 0),
    Row(0x0C, 0, 2, 0),
    Row(0x0D, 0, 1, 0),
    Row(0x0E, 0, 1, 0),
    Row(0x0F, 0, 99999, 0),
    Row(0x1B, 0, 1, 0),
    Row(0x1C, 1, 65535, 720),
    Row(0x1E, -19999, 19999, 0),
    Row(0x1F, -19999, 99999, 0),
    Row(0x20, 0, 9999, 5),
    Row(0x21, 0, 2, 0),
    Row(0x22, 0, 9999, 0),
    Row(0x28, 0, 3, 0),
    Row(0x30, 0, 1, 0),
    Row(0x31, 0, 9999, 0),
    Row(0x32, 0, 1, 0),
    Row(0x33, 0, 2, 0),
    Row(0x34, 0, 1, 0),
    Row(0x35, 0, 0, 0),
    Row(0x39, 0, 1, 1),
    Row(0x3A, 0, 1, 0),
    Row(0x3B, 0, 1, 1),
    Row(0x3C, 0, 1, 1),
    Row(0x3D, 0, 1, 1),
    Row(0x3E, 0, 2, 0),
    Row(0x3F, 0, 8, 0),
    Row(0x40, 0, 1, 1),
    Row(0xD0, 0, 20, 0),
];

// The row at a place; past the table, a row of nothing.
#[tactic(auto, unfolding(crate::specs::Table::row_of, crate::specs::Table::rows))]
pub fn row_of(i: usize) -> Row
    ensures { result ≡ row_of i }
{
    ROWS.get(i).copied().unwrap_or(Row(0, 0, 0, 0))
}

// The place of a stored parameter: its address, less the addresses before it that have no place.
#[tactic(auto, unfolding(crate::specs::Table::place_of, crate::specs::Table::rows))]
pub fn place_of(address: u8) -> Option<usize>
    ensures { result ≡ place_of address }
{
    match address {
        0x00..=0x0F => Some(address as usize),
        0x1B..=0x1C => Some((address - 11) as usize),
        0x1E..=0x22 => Some((address - 12) as usize),
        0x28 => Some(23),
        0x30..=0x35 => Some((address - 24) as usize),
        0x39..=0x40 => Some((address - 27) as usize),
        0xD0 => Some(38),
        _ => None,
    }
}
