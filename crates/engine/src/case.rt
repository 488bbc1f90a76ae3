// What a telegram is judged by.
use state::parts::Head;
use wire::telegram::Telegram;

// The commands of a telegram; what a byte above them asks is no access.
pub(crate) const READ: u8 = 0;

pub(crate) const WRITE: u8 = 1;

pub(crate) const BROADCAST: u8 = 2;

// A telegram, the head before it, and the head that has heard it.
#[derive(Clone, Copy)]
pub(crate) struct Case {
    pub(crate) telegram: Telegram,
    pub(crate) before: Head,
    pub(crate) heard: Head,
}
