// A byte heard: gathered, and with the tenth a telegram obeyed and answered.
ghost use Rattle.std.specs.Prelude.{◌≡◌, Bool};
ghost use Rattle.head.specs.Hear.{elapsed_of, kept_ear, gathered_of, standing_of, started_of, affected_of, told_of, passes_of, passed_of, tell_of, step_of};

use effects::{aim, errors, measure, restart, store};
use judge::deed::Deed;
use judge::judged;
use judge::judged::Judged;
use judge::verdict::Standing;
use state::parts::{Ear, Head, Monitor, Setting};

// The time between two readings of a millisecond clock that starts again at 0 after 4,294,967,295.
#[tactic(auto, unfolding(crate::specs::Hear::elapsed_of))]
pub fn elapsed(now: u32, then: u32) -> u32
    ensures { result ≡ elapsed_of now then }
{
    now.wrapping_sub(then)
}

// What is still gathered when a byte comes: nothing after more than 10 ms.
#[tactic(auto, unfolding(crate::specs::Hear::kept_ear))]
fn kept(e: Ear, at: u32) -> Ear
    ensures { result ≡ kept_ear e at }
{
    if 10 < elapsed(at, e.at) {
        return restart::empty_ear(at);
    }
    e
}

// A byte more: the bytes so far, or the ten of a telegram.
#[repr(C)]
#[derive(Clone, Copy)]
pub struct Gathered {
    pub ear: Ear,
    pub ten: Option<[u8; 10]>,
}

#[tactic(auto, unfolding(crate::specs::Hear::gathered_of))]
pub fn gather(ear: Ear, b: u8, at: u32) -> Gathered
    ensures { result ≡ gathered_of ear b at }
{
    let mut e = kept(ear, at);
    e.at = at;
    if e.count < 9 {
        e.bytes[e.count] = b;
        e.count += 1;
        return Gathered { ear: e, ten: None };
    }
    let mut ten = e.bytes;
    ten[9] = b;
    Gathered {
        ear: restart::empty_ear(at),
        ten: Some(ten),
    }
}

// What the checks ask of a head.
#[tactic(auto, unfolding(crate::specs::Hear::standing_of))]
pub fn standing(h: Head) -> Standing
    ensures { result ≡ standing_of h }
{
    Standing {
        number: h.stored.number,
        locked: store::locked(h.stored),
        inputs: h.faults.inputs.count,
    }
}

// A sound telegram, for whomever, starts the monitor.
#[tactic(auto, unfolding(crate::specs::Hear::started_of))]
fn started(hit: u8, at: u32, m: Monitor) -> Monitor
    ensures { result ≡ started_of hit at m }
{
    if hit == 0 {
        return Monitor {
            running: true,
            since: at,
        };
    }
    m
}

// The head after the own effects of a telegram that came whole at this time.
fn affected(j: Judged, h: Head, at: u32) -> Head
    ensures { result ≡ affected_of j h at }
{
    let d = j.deed;
    let values = h.stored.values;
    let faults = errors::complained(j.verdict, errors::counted(j.hit, h.faults));
    let stored = store::stored_by(d, h.stored);
    let targets = aim::targets_by(d, values, h.measurement, h.targets);
    Head {
        stored,
        faults: errors::faults_by(d, h.targets.word, faults),
        measurement: measure::measurement_by(d, values, h.measurement),
        targets: aim::turned(values[Setting::MODE], stored.values[Setting::MODE], targets),
        monitor: started(j.hit, at, h.monitor),
        ear: restart::empty_ear(at),
        ..h
    }
}

// A0h 9 restarts the head after them.
#[tactic(auto, unfolding(crate::specs::Hear::told_of, crate::specs::Hear::restarts_of))]
fn told(j: Judged, h: Head, at: u32) -> Head
    ensures { result ≡ told_of j h at }
{
    let n = affected(j, h, at);
    match j.deed {
        Deed::Restart => restart::restarted(n),
        _ => n,
    }
}

// What a head does with a byte, a telegram or a key state: the head after it, and the reply if there is one.
#[repr(C)]
#[derive(Clone, Copy)]
pub struct Stepped {
    pub head: Head,
    pub reply: Option<[u8; 10]>,
}

// Whether ten bytes are a sound telegram for another node.
#[tactic(auto, unfolding(crate::specs::Hear::passes_of))]
fn passes(ten: [u8; 10], number: u32) -> bool
    ensures { result ≡ passes_of ten number }
{
    wire::check::hit(ten) == 0 && ten[0] != 2 && u32::from(ten[1]) != number
}

// The head after such a telegram.
#[tactic(auto, unfolding(crate::specs::Hear::passed_of))]
fn passed(h: Head, at: u32) -> Head
    ensures { result ≡ passed_of h at }
{
    Head {
        faults: errors::counted(0, h.faults),
        monitor: started(0, at, h.monitor),
        ear: restart::empty_ear(at),
        ..h
    }
}

// A whole telegram: the head after it, and the reply. Most telegrams that a head hears are sound and for another node: they go the short way.
#[tactic(auto, unfolding(crate::specs::Hear::tell_of))]
pub fn tell(h: Head, ten: [u8; 10], at: u32) -> Stepped
    ensures { result ≡ tell_of h ten at }
{
    if passes(ten, h.stored.number) {
        return Stepped {
            head: passed(h, at),
            reply: None,
        };
    }
    let j = judged::judge(ten, standing(h));
    let n = told(j, h, at);
    Stepped {
        head: n,
        reply: reply::reply_to(j, h, n),
    }
}

// A byte.
#[tactic(auto, unfolding(crate::specs::Hear::step_of))]
pub fn step(h: Head, b: u8, at: u32) -> Stepped
    ensures { result ≡ step_of h b at }
{
    let g = gather(h.ear, b, at);
    if let Some(ten) = g.ten {
        return tell(h, ten, at);
    }
    Stepped {
        head: Head { ear: g.ear, ..h },
        reply: None,
    }
}
