// The state of a head, and what it shows: error lists, position, status word. Whether a state is well-formed, and older heads, which are brought over.
#![tactic(auto)]

pub mod control;
pub mod errors;
pub mod mode;
pub mod older;
pub mod parts;
pub mod position;
pub mod status;
pub mod wellformed;
