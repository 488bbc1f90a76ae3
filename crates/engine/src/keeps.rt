// The 39 values of a head: one is written, or those that A0h 1, 2 and 5 reset go to their delivery values.
ghost use Rattle.std.specs.Prelude.{◌≡◌, cond, set};
ghost use Rattle.rows.specs.Table.{row_of, delivery};
ghost use Rattle.rows.specs.Resets.{resets_of};
ghost use Rattle.engine.specs.Addresses.{the39};
ghost use Rattle.engine.specs.Does.{invalid, with_the39, reset_all, reset};

use state::mode;
use state::parts::{Head, Setting, Targets};

// Both set points invalid and unacknowledged, and no static bit.
fn invalid(t: Targets) -> Targets
    ensures { result ≡ invalid t }
{
    Targets {
        valid1: false,
        valid2: false,
        reached: false,
        acknowledged1: false,
        acknowledged2: false,
        ..t
    }
}

// The head with these values. Entering or leaving mode 3 of 28h leaves no valid set point.
#[tactic(auto, unfolding(crate::specs::Does::with_the39, state::specs::Mode::is_display, crate::specs::Addresses::place, crate::specs::Addresses::the39))]
fn keep(values: [u32; 39], mut h: Head) -> Head
    ensures { result ≡ with_the39 values h }
{
    let was = mode::is_display(h.stored.values[Setting::MODE]);
    let is = mode::is_display(values[Setting::MODE]);
    h.stored.values = values;
    if was != is {
        h.targets = invalid(h.targets);
    }
    h
}

// A write of the parameter at a place; past the 39 nothing changes.
pub(crate) fn store(i: usize, word: u32, h: Head) -> Head
    ensures { result ≡ with_the39 (set h.stored.values i word) h }
{
    let mut values = h.stored.values;
    if i < values.len() {
        values[i] = word;
    }
    keep(values, h)
}

// All 39 after A0h 1, 2 or 5.
fn reset_all(command: u32, mut values: [u32; 39]) -> [u32; 39]
    ensures { result ≡ reset_all command the39 values }
{
    for (i, value) in values.iter_mut().enumerate() {
        if rows::resets::resets(command, i) {
            *value = rows::table::row_of(i).3;
        }
    }
    values
}

// A0h 1, 2 and 5.
#[tactic(auto, unfolding(crate::specs::Does::reset))]
pub(crate) fn reset(command: u32, h: Head) -> Head
    ensures { result ≡ reset command h }
{
    keep(reset_all(command, h.stored.values), h)
}
