// The error part: remembered errors, input errors, the pending error, what the last damaged telegram was hit by, damaged telegrams in a row.
ghost use Rattle.std.specs.Prelude.{◌≡◌, Bool};
ghost use Rattle.effects.specs.Faults.{raised_of, counted_of, complained_of, acknowledged_of, restarted_faults, faults_by};

use judge::deed::Deed;
use judge::verdict::Verdict;
use state::parts::Faults;
use state::{control, errors};
use wire::fault::Fault;

// A raised error becomes the pending one and enters the error memory.
#[tactic(auto, unfolding(crate::specs::Faults::raised_of))]
pub fn raised(f: Faults, code: u16) -> Faults
    ensures { result ≡ raised_of f code }
{
    Faults {
        memory: errors::remembered(f.memory, code),
        pending: code,
        ..f
    }
}

// A telegram by the exclusive-or of its ten bytes: a sound one ends the row of damaged ones. A damaged one's is kept in the place of the last,
// and the third in a row raises an error.
#[tactic(auto, unfolding(crate::specs::Faults::counted_of))]
pub fn counted(hit: u8, f: Faults) -> Faults
    ensures { result ≡ counted_of hit f }
{
    if hit == 0 {
        Faults { damaged: 0, ..f }
    } else if f.damaged < 2 {
        Faults {
            hit,
            damaged: f.damaged + 1,
            ..f
        }
    } else {
        let n = Faults {
            hit,
            damaged: 0,
            ..f
        };
        raised(n, Fault::CheckSum.code())
    }
}

// Every error reply enters the input list.
#[tactic(auto, unfolding(crate::specs::Faults::complained_of))]
pub fn complained(v: Verdict, f: Faults) -> Faults
    ensures { result ≡ complained_of v f }
{
    match v {
        Verdict::Refused(fault) => Faults {
            inputs: errors::remembered(f.inputs, fault.code()),
            ..f
        },
        _ => f,
    }
}

// Bit 5 acknowledges the error if the last taken word had it 0.
#[tactic(auto, unfolding(crate::specs::Faults::acknowledged_of))]
fn acknowledged(word: u16, last: u16, f: Faults) -> Faults
    ensures { result ≡ acknowledged_of word last f }
{
    if control::bit(word, 5) && !control::bit(last, 5) {
        Faults { pending: 0, ..f }
    } else {
        f
    }
}

// A restart keeps the error memory alone.
#[tactic(auto, unfolding(crate::specs::Faults::restarted_faults))]
pub fn restarted(f: Faults) -> Faults
    ensures { result ≡ restarted_faults f }
{
    Faults {
        memory: f.memory,
        inputs: errors::empty_list(),
        pending: 0,
        hit: 0,
        damaged: 0,
    }
}

// `last` is the control word that was taken before.
#[tactic(auto, unfolding(crate::specs::Faults::faults_by))]
pub fn faults_by(d: Deed, last: u16, f: Faults) -> Faults
    ensures { result ≡ faults_by d last f }
{
    match d {
        Deed::Forget => Faults {
            memory: errors::empty_list(),
            ..f
        },
        Deed::Aim1(_, word) | Deed::Aim2(_, word) => acknowledged(word, last, f),
        _ => f,
    }
}
