// The targets: both set points with their validity, the taken control word, the static bit, the acknowledgements.
ghost use Rattle.std.specs.Prelude.{◌≡◌, Bool};
ghost use Rattle.effects.specs.Aimed.{no_targets, settled_of, first_aimed, second_aimed, given_of, lacking_of, all_given_of, cleared_of, stays_of, turned_of, targets_by};

use judge::deed::Deed;
use state::parts::{Measurement, Setting, Targets};
use state::{control, mode, status};

// No set point, as after a restart.
#[tactic(auto, unfolding(crate::specs::Aimed::no_targets))]
pub fn no_targets() -> Targets
    ensures { result ≡ no_targets }
{
    Targets {
        first: 0,
        valid1: false,
        second: 0,
        valid2: false,
        word: 0,
        reached: false,
        acknowledged1: false,
        acknowledged2: false,
    }
}

// The static bit is set where status bit 5 holds, but for alpha-numeric display, and else stays.
#[tactic(auto, unfolding(crate::specs::Aimed::settled_of))]
pub fn settled(values: [u32; 39], g: Measurement, t: Targets) -> Targets
    ensures { result ≡ settled_of values g t }
{
    Targets {
        reached: t.reached || status::within(values, g, t),
        ..t
    }
}

// FBh: the value, its validity by bit 2, the static bit cleared by bit 4, the acknowledgement withdrawn.
#[tactic(auto, unfolding(crate::specs::Aimed::first_aimed))]
fn aim_first(value: u32, word: u16, t: Targets) -> Targets
    ensures { result ≡ first_aimed value word t }
{
    Targets {
        first: value,
        valid1: control::bit(word, 2),
        word,
        reached: t.reached && !control::bit(word, 4),
        acknowledged1: false,
        ..t
    }
}

// FFh: the value, its validity by bit 9, the static bit cleared by bit 4, the acknowledgement withdrawn.
#[tactic(auto, unfolding(crate::specs::Aimed::second_aimed))]
fn aim_second(value: u32, word: u16, t: Targets) -> Targets
    ensures { result ≡ second_aimed value word t }
{
    Targets {
        second: value,
        valid2: control::bit(word, 9),
        word,
        reached: t.reached && !control::bit(word, 4),
        acknowledged2: false,
        ..t
    }
}

// Then bits 10 and 6 acknowledge set points 1 and 2 where they are valid. Nothing is acknowledged but in alpha-numeric display.
#[tactic(auto, unfolding(crate::specs::Aimed::given_of))]
fn given(display: bool, word: u16, t: Targets) -> Targets
    ensures { result ≡ given_of display word t }
{
    Targets {
        acknowledged1: display && (t.acknowledged1 || (control::bit(word, 10) && t.valid1)),
        acknowledged2: display && (t.acknowledged2 || (control::bit(word, 6) && t.valid2)),
        ..t
    }
}

// Whether a valid set point lacks its acknowledgement.
#[tactic(auto, unfolding(crate::specs::Aimed::lacking_of))]
pub fn lacking(t: Targets) -> bool
    ensures { result ≡ lacking_of t }
{
    (t.valid1 && !t.acknowledged1) || (t.valid2 && !t.acknowledged2)
}

// All valid set points are acknowledged, as a key does it.
#[tactic(auto, unfolding(crate::specs::Aimed::all_given_of))]
pub fn all_given(t: Targets) -> Targets
    ensures { result ≡ all_given_of t }
{
    Targets {
        acknowledged1: t.acknowledged1 || t.valid1,
        acknowledged2: t.acknowledged2 || t.valid2,
        ..t
    }
}

#[tactic(auto, unfolding(crate::specs::Aimed::cleared_of))]
fn cleared(t: Targets) -> Targets
    ensures { result ≡ cleared_of t }
{
    Targets {
        reached: false,
        ..t
    }
}

// Whether alpha-numeric display is neither entered nor left, by 28h before and after.
#[tactic(auto, unfolding(crate::specs::Aimed::stays_of))]
fn stays(before: u32, after: u32) -> bool
    ensures { result ≡ stays_of before after }
{
    mode::is_display(before) == mode::is_display(after)
}

// By 28h before and after a write, a reset or a sheet: entering or leaving alpha-numeric display leaves no set point valid or acknowledged, and no
// static bit.
#[tactic(auto, unfolding(crate::specs::Aimed::turned_of))]
pub fn turned(before: u32, after: u32, t: Targets) -> Targets
    ensures { result ≡ turned_of before after t }
{
    if stays(before, after) {
        t
    } else {
        Targets {
            valid1: false,
            valid2: false,
            reached: false,
            acknowledged1: false,
            acknowledged2: false,
            ..t
        }
    }
}

#[tactic(auto, unfolding(crate::specs::Aimed::targets_by))]
pub fn targets_by(d: Deed, values: [u32; 39], g: Measurement, t: Targets) -> Targets
    ensures { result ≡ targets_by d values g t }
{
    let display = mode::is_display(values[Setting::MODE]);
    match d {
        Deed::Aim1(value, word) => given(display, word, aim_first(value, word, t)),
        Deed::Aim2(value, word) => {
            settled(values, g, given(display, word, aim_second(value, word, t)))
        }
        Deed::ClearStatic => cleared(t),
        _ => t,
    }
}
