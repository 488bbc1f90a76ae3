// What a parameter is: the 39 rows, the access groups, the range of a value, the resets.
#![tactic(auto)]

pub mod access;
pub mod kind;
pub mod range;
pub mod resets;
pub mod table;
