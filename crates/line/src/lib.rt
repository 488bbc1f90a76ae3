// Up to 32 heads on one wire: the calls on a line and their refusals.
#![tactic(auto)]

pub mod calls;
pub mod round;
mod serials;
