// Settings on a sheet: read row by row, checked, loaded into the 39 stored values and written from them.
#![tactic(auto)]

pub mod format;
pub mod load;
pub mod reader;
pub mod refusal;
pub mod write;
