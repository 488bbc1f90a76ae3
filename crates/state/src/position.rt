// The position, the actual value A, and what FEh shows.
ghost use Rattle.std.specs.Prelude.{◌≡◌};
ghost use Rattle.state.specs.Position.{position_of, actual_of, shown_of, view_of};

use crate::parts::{Measurement, Setting};

// A, and what FEh shows while nothing is frozen.
#[repr(C)]
#[derive(Clone, Copy)]
pub struct Readout {
    pub actual: i64,
    pub shown: i64,
}

#[tactic(auto, unfolding(crate::specs::Position::position_of))]
pub fn position(m: Measurement, offset: u32) -> i64
    ensures { result ≡ position_of m offset }
{
    signed::absolute(m.m, m.zero, m.adopted, offset)
}

// A: the position divided, where 33h is 0 or 1.
#[tactic(auto, unfolding(crate::specs::Position::actual_of))]
fn actual(p: i64, divisor: u32, application: u32) -> i64
    ensures { result ≡ actual_of p divisor application }
{
    if application < 2 {
        signed::rounded(p, divisor)
    } else {
        p
    }
}

// What FEh shows: A where 33h is 0, else the position.
#[tactic(auto, unfolding(crate::specs::Position::shown_of))]
fn shown(p: i64, a: i64, application: u32) -> i64
    ensures { result ≡ shown_of p a application }
{
    if application == 0 { a } else { p }
}

// The 39 values and the measurement come side by side here, in status and in effects: they are two parts of a head, and these functions ask for no more
// of it than they look at.
#[tactic(auto, unfolding(crate::specs::Position::view_of))]
pub fn view(values: [u32; 39], m: Measurement) -> Readout
    ensures { result ≡ view_of values m }
{
    let p = position(m, values[Setting::OFFSET]);
    let actual = actual(p, values[Setting::DIVISOR], values[Setting::APPLICATION]);
    let shown = shown(p, actual, values[Setting::APPLICATION]);
    Readout { actual, shown }
}
