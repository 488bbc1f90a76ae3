// What the commands and the reads do that change neither the 39 values nor a set point: from head to head.
ghost use Rattle.std.specs.Prelude.{◌≡◌, false, pos};
ghost use Rattle.state.specs.With.{with_kept};
ghost use Rattle.engine.specs.Does.{unlock, offer, calibrate, freeze, release, forget_errors, clear_static, no_bytes_of, restart};

use state::parts::{Ear, Faults, Head, Measurement, Monitor, Setting, Stored, Targets};
use state::{errors, position};

// A8h: 1 opens the interlock, 0 closes it.
#[tactic(auto, unfolding(crate::specs::Does::unlock))]
pub(crate) fn unlock(b: bool, mut h: Head) -> Head
    ensures { result ≡ unlock b h }
{
    h.stored.unlocked = b;
    h
}

// D2h: the number is offered; 0 drops an offer.
#[tactic(auto, unfolding(crate::specs::Does::offer))]
pub(crate) fn offer(number: u32, mut h: Head) -> Head
    ensures { result ≡ offer number h }
{
    h.stored.offer = number;
    h
}

// A0h 7 and A7h: m is the zero, and 1Fh is adopted.
#[tactic(auto, unfolding(crate::specs::Does::calibrate, crate::specs::Addresses::place, crate::specs::Addresses::the39))]
pub(crate) fn calibrate(mut h: Head) -> Head
    ensures { result ≡ calibrate h }
{
    h.measurement.zero = h.measurement.m;
    h.measurement.adopted = h.stored.values[Setting::CALIBRATION];
    h
}

// AAh: what FEh would now show unfrozen is kept.
#[tactic(auto, unfolding(crate::specs::Does::freeze), using(crate::proofs::Shown::current_is))]
pub(crate) fn freeze(mut h: Head) -> Head
    ensures { result ≡ freeze h }
{
    h.measurement.kept = position::view(h.stored.values, h.measurement).shown;
    h.measurement.frozen = true;
    h
}

// Nothing is kept.
fn released(g: Measurement) -> Measurement
    ensures { result ≡ with_kept g false (pos 0) }
{
    Measurement {
        frozen: false,
        kept: 0,
        ..g
    }
}

// A read of FEh releases it.
#[tactic(auto, unfolding(crate::specs::Does::release))]
pub(crate) fn release(mut h: Head) -> Head
    ensures { result ≡ release h }
{
    h.measurement = released(h.measurement);
    h
}

// A0h 8 empties the error memory.
#[tactic(auto, unfolding(crate::specs::Does::forget_errors))]
pub(crate) fn forget(mut h: Head) -> Head
    ensures { result ≡ forget_errors h }
{
    h.faults.memory = errors::empty_list();
    h
}

// A read of FAh clears the static bit.
#[tactic(auto, unfolding(crate::specs::Does::clear_static))]
pub(crate) fn clear(mut h: Head) -> Head
    ensures { result ≡ clear_static h }
{
    h.targets.reached = false;
    h
}

// No bytes gathered.
pub(crate) fn none(at: u32) -> Ear
    ensures { result ≡ no_bytes_of at }
{
    Ear {
        bytes: [0; 10],
        count: 0,
        at,
    }
}

// A0h 9 takes 00h and 01h into force, and clears all that a restart does not keep.
#[tactic(auto, unfolding(crate::specs::Does::restart, crate::specs::Addresses::place, crate::specs::Addresses::the39))]
pub(crate) fn restart(h: Head) -> Head
    ensures { result ≡ restart h }
{
    Head {
        stored: Stored {
            number: h.stored.values[Setting::NODE],
            baud: h.stored.values[Setting::BAUD],
            offer: 0,
            ..h.stored
        },
        faults: Faults {
            inputs: errors::empty_list(),
            pending: 0,
            hit: 0,
            damaged: 0,
            ..h.faults
        },
        measurement: Measurement {
            incremental: false,
            start: 0,
            ..released(h.measurement)
        },
        targets: Targets {
            first: 0,
            valid1: false,
            second: 0,
            valid2: false,
            word: 0,
            reached: false,
            acknowledged1: false,
            acknowledged2: false,
        },
        monitor: Monitor {
            running: false,
            since: 0,
        },
        ear: none(0),
        keys: 0,
    }
}
