// The lowest node number that is free, and how many are used, from a map of used numbers.
#![tactic(auto)]

pub mod answer;
pub mod map;
