// The six bus parameters, and which places the factory resets touch.
ghost use Rattle.std.specs.Prelude.{◌≡◌};
ghost use Rattle.rows.specs.Resets.{bus_of, resets_of};

// Whether the place holds a bus parameter: 00h, 01h, 02h, 03h, 0Eh or D0h.
#[tactic(auto, unfolding(crate::specs::Resets::bus_of, crate::specs::Table::row_of, crate::specs::Table::rows))]
pub fn bus(i: usize) -> bool
    ensures { result ≡ bus_of i }
{
    matches!(i, 0..=3 | 14 | 38)
}

// Whether the system command touches the place: 1 all, 2 all but the bus six, 5 the bus six.
#[tactic(auto, unfolding(crate::specs::Resets::resets_of))]
pub fn resets(command: u32, i: usize) -> bool
    ensures { result ≡ resets_of command i }
{
    match command {
        1 => i < 39,
        2 => i < 39 && !bus(i),
        5 => bus(i),
        _ => false,
    }
}
