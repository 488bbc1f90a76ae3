// The measurement part: calibration, freezing, restart.
ghost use Rattle.std.specs.Prelude.{◌≡◌};
ghost use Rattle.effects.specs.Measured.{calibrated_of, frozen_of, released_of, restarted_measurement, moved_of, measurement_by};

use judge::deed::Deed;
use state::parts::{Measurement, Setting};
use state::position;

// Calibration makes m the zero and adopts 1Fh.
#[tactic(auto, unfolding(crate::specs::Measured::calibrated_of))]
pub fn calibrated(values: [u32; 39], g: Measurement) -> Measurement
    ensures { result ≡ calibrated_of values g }
{
    Measurement {
        zero: g.m,
        adopted: values[Setting::CALIBRATION],
        ..g
    }
}

// What FEh shows is kept.
#[tactic(auto, unfolding(crate::specs::Measured::frozen_of))]
fn frozen(values: [u32; 39], g: Measurement) -> Measurement
    ensures { result ≡ frozen_of values g }
{
    Measurement {
        frozen: true,
        kept: position::view(values, g).shown,
        ..g
    }
}

#[tactic(auto, unfolding(crate::specs::Measured::released_of))]
fn released(g: Measurement) -> Measurement
    ensures { result ≡ released_of g }
{
    Measurement {
        frozen: false,
        kept: 0,
        ..g
    }
}

// A restart keeps calibration and the last measurement.
#[tactic(auto, unfolding(crate::specs::Measured::released_of, crate::specs::Measured::restarted_measurement))]
pub fn restarted(g: Measurement) -> Measurement
    ensures { result ≡ restarted_measurement g }
{
    Measurement {
        incremental: false,
        start: 0,
        ..released(g)
    }
}

// A new measurement.
#[tactic(auto, unfolding(crate::specs::Measured::moved_of))]
pub fn moved(m: i32, g: Measurement) -> Measurement
    ensures { result ≡ moved_of m g }
{
    Measurement { m, ..g }
}

#[tactic(auto, unfolding(crate::specs::Measured::measurement_by))]
pub fn measurement_by(d: Deed, values: [u32; 39], g: Measurement) -> Measurement
    ensures { result ≡ measurement_by d values g }
{
    match d {
        Deed::Calibrate => calibrated(values, g),
        Deed::Freeze => frozen(values, g),
        Deed::Release => released(g),
        _ => g,
    }
}
