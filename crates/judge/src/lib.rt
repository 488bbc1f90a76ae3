// A telegram judged: the seven checks in the document's order, and what an obeyed telegram does. No head is seen here.
#![tactic(auto)]

pub mod command;
pub mod deed;
pub mod judged;
pub mod verdict;
