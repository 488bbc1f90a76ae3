// Hearing, whatever comes of the telegram: the damaged ones in a row, the monitor, the bytes gathered.
ghost use Rattle.std.specs.Prelude.{◌≡◌};
ghost use Rattle.engine.specs.Way.{raised, counted, hearing};

use crate::does;
use state::errors;
use state::parts::{Faults, Head, Monitor};
use wire::fault::Fault;

// A raised error becomes the pending one and enters the error memory.
fn raised(code: u16, f: Faults) -> Faults
    ensures { result ≡ raised code f }
{
    Faults {
        memory: errors::remembered(f.memory, code),
        pending: code,
        ..f
    }
}

// Check 1 for whomever: a sound telegram ends the row of damaged ones, and the third of a row raises error 0080h.
#[tactic(auto, unfolding(crate::specs::Way::counted))]
fn counted(hit: u8, f: Faults) -> Faults
    ensures { result ≡ counted hit f }
{
    if hit == 0 {
        Faults { damaged: 0, ..f }
    } else if f.damaged < 2 {
        Faults {
            hit,
            damaged: f.damaged + 1,
            ..f
        }
    } else {
        raised(
            Fault::CheckSum.code(),
            Faults {
                hit,
                damaged: 0,
                ..f
            },
        )
    }
}

// A sound telegram starts the monitor.
#[tactic(auto, unfolding(crate::specs::Way::hearing))]
pub(crate) fn hearing(hit: u8, at: u32, mut h: Head) -> Head
    ensures { result ≡ hearing hit at h }
{
    h.faults = counted(hit, h.faults);
    h.ear = does::none(at);
    if hit == 0 {
        h.monitor = Monitor {
            running: true,
            since: at,
        };
    }
    h
}
