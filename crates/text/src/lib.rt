// What the programs share that read and write lines of text: numbers and bytes spelled in characters, the lines themselves, and lines put together
// of pieces.
#![tactic(auto)]

pub mod failing;
pub mod keeping;
pub mod laying;
pub mod lines;
pub mod numbers;
