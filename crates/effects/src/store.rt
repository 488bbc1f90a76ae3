// The stored part: the 39 values, the number and the baud setting in force, the number that is offered, the serial number, the interlock.
ghost use Rattle.std.specs.Prelude.{◌≡◌, Bool};
ghost use Rattle.effects.specs.Stored.{locked_of, reset_value, reset_of, adopted_stored, restarted_stored, stored_by};

use judge::deed::Deed;
use state::parts::{Setting, Stored};

// 0Eh is 1 and the interlock closed.
#[tactic(auto, unfolding(crate::specs::Stored::locked_of))]
pub fn locked(s: Stored) -> bool
    ensures { result ≡ locked_of s }
{
    s.values[Setting::INTERLOCK] == 1 && !s.unlocked
}

// The value at a place after the system command: its delivery value, where the command resets it.
#[tactic(auto, unfolding(crate::specs::Stored::reset_value))]
fn reset_value(command: u32, i: usize, word: u32) -> u32
    ensures { result ≡ reset_value command i word }
{
    if rows::resets::resets(command, i) {
        rows::table::row_of(i).3
    } else {
        word
    }
}

// All 39 after the system command.
#[tactic(auto, unfolding(crate::specs::Stored::reset_of))]
pub(crate) fn reset(values: [u32; 39], command: u32) -> [u32; 39]
    ensures { result ≡ reset_of command values }
{
    let mut v = values;
    for (i, word) in v.iter_mut().enumerate() {
        *word = reset_value(command, i, *word);
    }
    v
}

// The number that is offered goes to 00h.
#[tactic(auto, unfolding(crate::specs::Stored::adopted_stored))]
pub(crate) fn adopted(s: Stored) -> Stored
    ensures { result ≡ adopted_stored s }
{
    let mut n = s;
    n.values[Setting::NODE] = s.offer;
    n
}

// A restart takes 00h and 01h into force, and drops an offer.
#[tactic(auto, unfolding(crate::specs::Stored::restarted_stored))]
pub fn restarted(s: Stored) -> Stored
    ensures { result ≡ restarted_stored s }
{
    Stored {
        number: s.values[Setting::NODE],
        baud: s.values[Setting::BAUD],
        offer: 0,
        ..s
    }
}

#[tactic(auto, unfolding(crate::specs::Stored::stored_by))]
pub fn stored_by(d: Deed, s: Stored) -> Stored
    ensures { result ≡ stored_by d s }
{
    match d {
        Deed::Store(i, word) => {
            let mut n = s;
            if i < 39 {
                n.values[i] = word;
            }
            n
        }
        Deed::Reset(command) => Stored {
            values: reset(s.values, command),
            ..s
        },
        Deed::Unlock(unlocked) => Stored { unlocked, ..s },
        Deed::Offer(offer) => Stored { offer, ..s },
        Deed::Withdraw => Stored { offer: 0, ..s },
        _ => s,
    }
}
