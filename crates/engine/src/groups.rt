// What the checks ask about an address: its group, whether the interlock covers it, and how a value lies to its limits.
ghost use Rattle.std.specs.Prelude.{◌≡◌, cond, ◌||◌, eqb};
ghost use Rattle.std.specs.Int.Signed.{lt_z};
ghost use Rattle.engine.specs.Addresses.{place, is_stored, is_read_only, is_write_only, is_known, limits_of, is_listed, number_in};

use rows::access::Access;
use rows::range::Range;
use rows::table;

#[tactic(auto, using(crate::proofs::Addressed::known_is))]
pub(crate) fn is_known(address: u8) -> bool
    ensures { result ≡ is_known address }
{
    !matches!(rows::access::access_of(address), Access::Unknown)
}

#[tactic(auto, using(crate::proofs::Addressed::read_only_is))]
pub(crate) fn is_read_only(address: u8) -> bool
    ensures { result ≡ is_read_only address }
{
    matches!(rows::access::access_of(address), Access::ReadOnly)
}

#[tactic(auto, using(crate::proofs::Addressed::write_only_is))]
pub(crate) fn is_write_only(address: u8) -> bool
    ensures { result ≡ is_write_only address }
{
    matches!(rows::access::access_of(address), Access::WriteOnly)
}

// The place of one of the 39.
#[tactic(auto, using(crate::proofs::Places::placed))]
pub(crate) fn place_of(address: u8) -> Option<usize>
    ensures { result ≡ cond (is_stored address) (Some (place address)) None }
{
    table::place_of(address)
}

// What the interlock covers: the 39 and A0h, and never A8h.
pub(crate) fn is_covered(address: u8) -> bool
    ensures { result ≡ (is_stored address || eqb address 0xA0) }
{
    place_of(address).is_some() || address == 0xA0
}

// Below low, above high, in between and not listed, or right.
#[tactic(auto, using(crate::proofs::Addressed::range_is))]
pub(crate) fn range_of(address: u8, word: u32) -> Range
    ensures { result
        ≡ cond (lt_z (number_in address word) (limits_of address).low) Range.Low
        (cond (lt_z (limits_of address).high (number_in address word)) Range.High
        (cond (is_listed address word) Range.Right Range.Between)) }
{
    rows::range::range_of(address, word)
}
