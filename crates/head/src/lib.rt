// One head: what it does with a byte and a telegram, with ticks, measurements and keys, and every call on it.
#![tactic(auto)]

pub mod calls;
pub mod hear;
pub mod moves;
pub mod refusal;
