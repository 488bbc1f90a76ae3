// The restart of a head, and heads as they are made.
ghost use Rattle.std.specs.Prelude.{◌≡◌};
ghost use Rattle.effects.specs.Restart.{empty_ear, stopped, restarted_of, adopted_of, delivered_of, fresh_of};

use crate::{aim, errors, measure, store};
use state::parts::{Ear, Faults, Head, Measurement, Monitor, Setting, Stored};

// No bytes gathered.
#[tactic(auto, unfolding(crate::specs::Restart::empty_ear))]
pub fn empty_ear(at: u32) -> Ear
    ensures { result ≡ empty_ear at }
{
    Ear {
        bytes: [0u8; 10],
        count: 0,
        at,
    }
}

// The bus timeout is not running.
#[tactic(auto, unfolding(crate::specs::Restart::stopped))]
pub fn stopped_monitor() -> Monitor
    ensures { result ≡ stopped }
{
    Monitor {
        running: false,
        since: 0,
    }
}

// A0h 9 and power.
#[tactic(auto, unfolding(crate::specs::Restart::restarted_of))]
pub fn restarted(h: Head) -> Head
    ensures { result ≡ restarted_of h }
{
    Head {
        stored: store::restarted(h.stored),
        faults: errors::restarted(h.faults),
        measurement: measure::restarted(h.measurement),
        targets: aim::no_targets(),
        monitor: stopped_monitor(),
        ear: empty_ear(0),
        keys: 0,
    }
}

// Auto-ID: the number that is offered is stored, and the head restarts last.
#[tactic(auto, unfolding(crate::specs::Restart::adopted_of))]
pub fn adopted(h: Head) -> Head
    ensures { result ≡ adopted_of h }
{
    restarted(Head {
        stored: store::adopted(h.stored),
        ..h
    })
}

// The delivery values, 00h being the number given.
#[tactic(auto, unfolding(crate::specs::Restart::delivered_of))]
fn delivered(node: u32) -> [u32; 39]
    ensures { result ≡ delivered_of node }
{
    let mut v = store::reset([0u32; 39], 1);
    v[Setting::NODE] = node;
    v
}

// A new head is as after a restart, its error memory empty.
#[tactic(auto, unfolding(crate::specs::Restart::fresh_of))]
pub fn fresh(node: u32, serial: u32) -> Head
    ensures { result ≡ fresh_of node serial }
{
    let empty = state::errors::empty_list();
    restarted(Head {
        stored: Stored {
            values: delivered(node),
            number: 0,
            baud: 0,
            offer: 0,
            serial,
            unlocked: false,
        },
        faults: Faults {
            memory: empty,
            inputs: empty,
            pending: 0,
            hit: 0,
            damaged: 0,
        },
        measurement: Measurement {
            m: 0,
            zero: 0,
            adopted: 0,
            incremental: false,
            start: 0,
            frozen: false,
            kept: 0,
        },
        targets: aim::no_targets(),
        monitor: stopped_monitor(),
        ear: empty_ear(0),
        keys: 0,
    })
}
