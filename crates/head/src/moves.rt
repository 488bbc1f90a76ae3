// What a tick, a measurement and a key state do to a head.
ghost use Rattle.std.specs.Prelude.{◌≡◌, ◌<◌, Bool};
ghost use Rattle.head.specs.Moves.{overdue_of, ticked_of, measured_of, pressed_of, left_of, star_of, keyed_of};

use crate::hear;
use crate::hear::Stepped;
use effects::{aim, errors, measure, restart};
use state::parts::{Head, Setting};
use state::{mode, status};
use wire::fault::Fault;

// Whether the bus timeout has run out: 02h above 0 and at least 100 times 02h ms.
#[tactic(auto, unfolding(crate::specs::Moves::overdue_of))]
fn overdue(timeout: u32, elapsed: u32) -> bool
    ensures { result ≡ overdue_of timeout elapsed }
{
    0 < timeout && 100 * u64::from(timeout) <= u64::from(elapsed)
}

// A tick raises the timeout once, and stops the monitor.
#[tactic(auto, unfolding(crate::specs::Moves::ticked_of))]
pub fn ticked(h: Head, at: u32) -> Head
    ensures { result ≡ ticked_of h at }
{
    let timeout = h.stored.values[Setting::TIMEOUT];
    if h.monitor.running && overdue(timeout, hear::elapsed(at, h.monitor.since)) {
        return Head {
            faults: errors::raised(h.faults, Fault::Timeout.code()),
            monitor: restart::stopped_monitor(),
            ..h
        };
    }
    h
}

// A measurement; the static bit is set where A is within window 1 after it, and never in alpha-numeric display.
#[tactic(auto, unfolding(crate::specs::Moves::measured_of))]
pub fn measured(h: Head, m: i32) -> Head
    ensures { result ≡ measured_of h m }
{
    let measurement = measure::moved(m, h.measurement);
    Head {
        measurement,
        targets: aim::settled(h.stored.values, measurement, h.targets),
        ..h
    }
}

// The keys by their weights in a key state.
const LEFT: u32 = 1;

const STAR: u32 = 2;

const UP: u32 = 4;

// The key of this weight is down now and was not before.
#[tactic(auto, unfolding(crate::specs::Moves::pressed_of))]
fn pressed(keys: u32, before: u32, weight: u32) -> bool
    requires { 0 < weight }
    ensures { result ≡ pressed_of keys before weight }
{
    keys / weight % 2 == 1 && before / weight % 2 == 0
}

// Left, where it is newly pressed, acknowledges a pending error; else, in alpha-numeric display, all valid set points where one lacks it; else it
// calibrates if 05h is 1.
#[tactic(auto, unfolding(crate::specs::Moves::left_of))]
fn left(on: bool, h: Head) -> Head
    ensures { result ≡ left_of on h }
{
    let values = h.stored.values;
    let mut n = h;
    if on {
        if h.faults.pending != 0 {
            n.faults.pending = 0;
        } else if mode::is_display(values[Setting::MODE]) && aim::lacking(h.targets) {
            n.targets = aim::all_given(h.targets);
        } else if values[Setting::CALIBRATION_KEY] == 1 {
            n.measurement = measure::calibrated(values, h.measurement);
        }
    }
    n
}

// Star, where it is newly pressed, acknowledges all valid set points, in alpha-numeric display with 3Eh 2.
#[tactic(auto, unfolding(crate::specs::Moves::star_of))]
fn star(on: bool, h: Head) -> Head
    ensures { result ≡ star_of on h }
{
    let values = h.stored.values;
    if on && mode::is_display(values[Setting::MODE]) && values[Setting::ACKNOWLEDGEMENT] == 2 {
        return Head {
            targets: aim::all_given(h.targets),
            ..h
        };
    }
    h
}

// A key state: left is taken before star, and star before up, each when newly pressed. Where a number is offered, up adopts it: the head says
// so with the status word of before, and restarts. Else up does nothing.
#[tactic(auto, unfolding(crate::specs::Moves::keyed_of))]
pub fn keyed(h: Head, keys: u32) -> Stepped
    ensures { result ≡ keyed_of h keys }
{
    let n = left(pressed(keys, h.keys, LEFT), Head { keys, ..h });
    let n = star(pressed(keys, h.keys, STAR), n);
    if pressed(keys, h.keys, UP) && h.stored.offer != 0 {
        return Stepped {
            head: restart::adopted(n),
            reply: Some(reply::adoption(status::status(h), h.stored.offer)),
        };
    }
    Stepped {
        head: n,
        reply: None,
    }
}
