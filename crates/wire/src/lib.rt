// Ten bytes on the wire: words and their bytes, the check sum, a telegram's fields, the fault codes.
#![tactic(auto)]

pub mod check;
pub mod fault;
pub mod telegram;
pub mod word;
