// The set points and the control word that is taken with them.
ghost use Rattle.std.specs.Prelude.{◌≡◌};
ghost use Rattle.engine.specs.Shows.{displays};
ghost use Rattle.engine.specs.Does.{acknowledge, taken, give, aim_first, settle, aim_second};

use state::parts::{Head, Setting, Targets};
use state::{control, mode, status};

// Alpha-numeric display, mode 3 of 28h.
#[tactic(auto, unfolding(state::specs::Mode::is_display, crate::specs::Addresses::place, crate::specs::Addresses::the39))]
fn displays(h: Head) -> bool
    ensures { result ≡ displays h }
{
    mode::is_display(h.stored.values[Setting::MODE])
}

// Bit 5 acknowledges the error if the last taken word had it 0.
#[tactic(auto, unfolding(crate::specs::Does::acknowledge))]
fn acknowledge(word: u16, mut h: Head) -> Head
    ensures { result ≡ acknowledge word h }
{
    if control::bit(word, 5) && !control::bit(h.targets.word, 5) {
        h.faults.pending = 0;
    }
    h
}

// The word is taken, and its bit 4 clears the static bit.
fn taken(word: u16, t: Targets) -> Targets
    ensures { result ≡ taken word t }
{
    Targets {
        word,
        reached: t.reached && !control::bit(word, 4),
        ..t
    }
}

// Bits 10 and 6 acknowledge set points 1 and 2 where they are valid, in mode 3 alone.
fn give(mode3: bool, word: u16, t: Targets) -> Targets
    ensures { result ≡ give mode3 word t }
{
    Targets {
        acknowledged1: mode3 && (t.acknowledged1 || control::bit(word, 10) && t.valid1),
        acknowledged2: mode3 && (t.acknowledged2 || control::bit(word, 6) && t.valid2),
        ..t
    }
}

// FBh: its validity by bit 2.
#[tactic(auto, unfolding(crate::specs::Does::aim_first))]
pub(crate) fn aim_first(value: u32, word: u16, h: Head) -> Head
    ensures { result ≡ aim_first value word h }
{
    let aimed = Targets {
        first: value,
        valid1: control::bit(word, 2),
        acknowledged1: false,
        ..taken(word, h.targets)
    };
    Head {
        targets: give(displays(h), word, aimed),
        ..acknowledge(word, h)
    }
}

// The static bit is set where A is near the valid set point 2, but in mode 3.
#[tactic(auto, using(crate::proofs::Shown::settles_is))]
fn settle(mut h: Head) -> Head
    ensures { result ≡ settle h }
{
    if status::within(h.stored.values, h.measurement, h.targets) {
        h.targets.reached = true;
    }
    h
}

// FFh: its validity by bit 9; bit 4 of the word clears the static bit before the new set point may set it.
#[tactic(auto, unfolding(crate::specs::Does::aim_second))]
pub(crate) fn aim_second(value: u32, word: u16, h: Head) -> Head
    ensures { result ≡ aim_second value word h }
{
    let aimed = Targets {
        second: value,
        valid2: control::bit(word, 9),
        acknowledged2: false,
        ..taken(word, h.targets)
    };
    settle(Head {
        targets: give(displays(h), word, aimed),
        ..acknowledge(word, h)
    })
}
