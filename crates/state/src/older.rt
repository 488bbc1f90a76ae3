// Older heads: incremental measurement is retired, and a head that still has 35h at 1 or incremental on is brought over.
ghost use Rattle.std.specs.Prelude.{◌≡◌, Bool};
ghost use Rattle.state.specs.Older.{is_older, retired_of, older_fits, passes_of, brought_of};

use crate::parts::{Head, Setting};
use crate::wellformed;

// Whether a head is an older one: 35h above 0, or incremental still on.
#[tactic(auto, unfolding(crate::specs::Older::is_older))]
fn is_older(h: Head) -> bool
    ensures { result ≡ is_older h }
{
    h.stored.values[Setting::INCREMENTAL] != 0 || h.measurement.incremental
}

// The head with 35h 0, incremental off and this start of it.
#[tactic(auto, unfolding(crate::specs::Older::retired_of))]
fn retired(start: i32, h: Head) -> Head
    ensures { result ≡ retired_of start h }
{
    let mut n = h;
    n.stored.values[Setting::INCREMENTAL] = 0;
    n.measurement.incremental = false;
    n.measurement.start = start;
    n
}

// The old test of refusal 20: 35h may be 1 and incremental on.
#[tactic(auto, unfolding(crate::specs::Older::older_fits))]
fn fits(h: Head) -> bool
    ensures { result ≡ older_fits h }
{
    h.stored.values[Setting::INCREMENTAL] <= 1
        && wellformed::wellformed(retired(h.measurement.start, h))
}

// Whether refusal 20 lets a head pass: by the old test where the call brings a head over.
pub fn passes(bringing: bool, h: Head) -> bool
    ensures { result ≡ passes_of bringing h }
{
    if bringing {
        fits(h)
    } else {
        wellformed::wellformed(h)
    }
}

// The head brought over; one that is no older head is as it was.
#[tactic(auto, unfolding(crate::specs::Older::brought_of))]
pub fn brought(h: Head) -> Head
    ensures { result ≡ brought_of h }
{
    if is_older(h) { retired(0, h) } else { h }
}
