// The status word, and the differential value.
ghost use Rattle.std.specs.Prelude.{◌≡◌, Bool, ◌^◌, ◌≤◌, ◌<◌};
ghost use Rattle.state.specs.Bits.{bit};
ghost use Rattle.state.specs.Status.{clockwise_of, aim_of, aim_bits_of, display_bits_of, rest_bits_of, aimed_of, status_of, within_of, difference_of};

use crate::parts::{Head, Measurement, Setting, Targets};
use crate::{control, mode, position};

// How A lies to set point 2: inside target window 1 (20h), inside window 2 (31h), above it, and the way to go.
#[repr(C)]
#[derive(Clone, Copy)]
pub struct Bearing {
    pub inside1: bool,
    pub inside2: bool,
    pub above: bool,
    pub clockwise: bool,
}

// Whether the way to the set point is clockwise.
fn clockwise(below: bool, above: bool, turned: bool) -> bool
    ensures { result ≡ clockwise_of below above turned }
{
    if turned { above } else { below }
}

#[tactic(auto, unfolding(crate::specs::Status::aim_of))]
pub fn aim(values: [u32; 39], a: i64, s: i64) -> Bearing
    ensures { result ≡ aim_of values a s }
{
    let d = signed::distance(a, s);
    Bearing {
        inside1: d <= values[Setting::WINDOW1] as u64,
        inside2: d <= values[Setting::WINDOW2] as u64,
        above: s < a,
        clockwise: clockwise(a < s, s < a, values[Setting::DIRECTION] == 1),
    }
}

// The word that has bit n alone where it is on, and else none.
fn bit(n: u32, on: bool) -> u16
    requires { n < 16 }
    ensures { (result ≡ bit n on) × (result ≤ 2 ^ n) }
{
    if on { 1 << n } else { 0 }
}

// Bits 0, 1, 3, 5 and 6: only with bit 10.
#[tactic(auto, unfolding(crate::specs::Status::aim_bits_of))]
fn aim_bits(valid: bool, m: Bearing) -> u16
    ensures { (result ≡ aim_bits_of valid m) × (result ≤ 107) }
{
    bit(0, valid && !m.inside1 && m.clockwise)
        + bit(1, valid && !m.inside1 && !m.clockwise)
        + bit(3, valid && m.inside2)
        + bit(5, valid && m.inside1)
        + bit(6, valid && m.above)
}

// The bits that are the same in every mode.
#[tactic(auto, unfolding(crate::specs::Status::rest_bits_of))]
fn rest_bits(t: Targets, pending: bool, frozen: bool, keys: u32) -> u16
    ensures { (result ≡ rest_bits_of t pending frozen keys) × (result ≤ 58756) }
{
    bit(2, t.valid1)
        + bit(7, pending)
        + bit(8, frozen)
        + bit(10, t.valid2)
        + (keys % 8) as u16 * (1 << 13)
}

// Bits 3, 5 and 9 in alpha-numeric display. Bit 7 of the control word that was taken last says that the set points are characters, and not numbers.
#[tactic(auto, unfolding(crate::specs::Status::display_bits_of))]
fn display_bits(t: Targets) -> u16
    ensures { (result ≡ display_bits_of t) × (result ≤ 552) }
{
    bit(3, t.acknowledged1) + bit(5, t.acknowledged2) + bit(9, control::bit(t.word, 7))
}

// How A lies to S, set point 2, valid or not.
#[tactic(auto, unfolding(crate::specs::Status::aimed_of))]
fn aimed(values: [u32; 39], m: Measurement, t: Targets) -> Bearing
    ensures { result ≡ aimed_of values m t }
{
    aim(
        values,
        position::view(values, m).actual,
        signed::number(t.second),
    )
}

#[tactic(auto, unfolding(crate::specs::Status::status_of))]
pub fn status(h: Head) -> u16
    ensures { result ≡ status_of h }
{
    let v = h.stored.values;
    let t = h.targets;
    let rest = rest_bits(t, h.faults.pending != 0, h.measurement.frozen, h.keys);
    if mode::is_display(v[Setting::MODE]) {
        display_bits(t) + rest
    } else {
        aim_bits(t.valid2, aimed(v, h.measurement, t)) + bit(4, t.reached) + rest
    }
}

// What sets the static bit: set point 2 is valid and A within window 1, and never in alpha-numeric display.
#[tactic(auto, unfolding(crate::specs::Status::within_of))]
pub fn within(values: [u32; 39], m: Measurement, t: Targets) -> bool
    ensures { result ≡ within_of values m t }
{
    !mode::is_display(values[Setting::MODE]) && t.valid2 && aimed(values, m, t).inside1
}

// The differential value for the set point s.
#[tactic(auto, unfolding(crate::specs::Status::difference_of))]
pub fn difference(values: [u32; 39], m: Measurement, s: u32) -> i64
    ensures { result ≡ difference_of values m s }
{
    let actual = position::view(values, m).actual;
    signed::differential(actual, signed::number(s), values[Setting::DIFFERENCE] == 1)
}
