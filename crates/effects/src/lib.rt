// What a deed does to each part of a head, and the restart. Each part has a function of its own, and nothing else changes that part.
#![tactic(auto)]

pub mod aim;
pub mod errors;
pub mod measure;
pub mod restart;
pub mod store;
