// Whether a state is one that a head can be in: the clauses of refusal 20. They are joined by `&`: with `&&` each is a branch, and a byte call takes 10
// instructions more for each head of the line.
ghost use Rattle.std.specs.Prelude.{◌≡◌, Bool};
ghost use Rattle.state.specs.Wellformed.{in_reach_of, offer_fits, stored_fits, faults_fit, kept_fits, measurement_fits, ear_fits, wellformed_of};

use crate::parts::{Ear, Faults, Head, Measurement, Stored};

// A measurement lies in -2,500,000..2,500,000.
#[tactic(auto, unfolding(crate::specs::Wellformed::in_reach_of))]
pub fn in_reach(m: i32) -> bool
    ensures { result ≡ in_reach_of m }
{
    (-2500000..=2500000).contains(&m)
}

// A number that is offered is 1 to 31, and the number in force is 31.
#[tactic(auto, unfolding(crate::specs::Wellformed::offer_fits))]
fn offer(number: u32, offered: u32) -> bool
    ensures { result ≡ offer_fits number offered }
{
    offered == 0 || (offered <= 31 && number == 31)
}

#[tactic(auto, unfolding(crate::specs::Wellformed::stored_fits))]
fn stored(s: Stored) -> bool
    ensures { result ≡ stored_fits s }
{
    rows::range::all_right(s.values) & rows::range::fits_at(0, s.number) & offer(s.number, s.offer)
}

#[tactic(auto, unfolding(crate::specs::Wellformed::faults_fit))]
fn faults(f: Faults) -> bool
    ensures { result ≡ faults_fit f }
{
    (f.memory.count <= 10) & (f.inputs.count <= 10) & (f.damaged <= 2)
}

#[tactic(auto, unfolding(crate::specs::Wellformed::kept_fits))]
fn kept(v: i64) -> bool
    ensures { result ≡ kept_fits v }
{
    signed::size(v) <= 5242880
}

#[tactic(auto, unfolding(crate::specs::Wellformed::measurement_fits))]
fn measurement(m: Measurement) -> bool
    ensures { result ≡ measurement_fits m }
{
    !m.incremental
        & in_reach(m.m)
        & in_reach(m.zero)
        & in_reach(m.start)
        & rows::range::fits_at(19, m.adopted)
        & kept(m.kept)
}

#[tactic(auto, unfolding(crate::specs::Wellformed::ear_fits))]
fn ear(e: Ear) -> bool
    ensures { result ≡ ear_fits e }
{
    e.count <= 9
}

#[tactic(auto, unfolding(crate::specs::Wellformed::wellformed_of))]
pub fn wellformed(h: Head) -> bool
    ensures { result ≡ wellformed_of h }
{
    stored(h.stored) & faults(h.faults) & measurement(h.measurement) & ear(h.ear) & (h.keys <= 7)
}
