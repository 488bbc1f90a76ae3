// The command byte.
ghost use Rattle.std.specs.Prelude.{◌≡◌, Bool};
ghost use Rattle.judge.specs.Commands.{command_of, reads_of, writes_of, casts_of, changes_of};

#[derive(Clone, Copy, PartialEq, Eq)]
pub enum Command {
    Read,
    Write,
    Broadcast,
    Other,
}

#[tactic(auto, unfolding(crate::specs::Commands::command_of))]
pub fn command_of(b: u8) -> Command
    ensures { result ≡ command_of b }
{
    match b {
        0 => Command::Read,
        1 => Command::Write,
        2 => Command::Broadcast,
        _ => Command::Other,
    }
}

pub fn reads(c: Command) -> bool
    ensures { result ≡ reads_of c }
{
    c == Command::Read
}

pub fn writes(c: Command) -> bool
    ensures { result ≡ writes_of c }
{
    c == Command::Write
}

pub fn casts(c: Command) -> bool
    ensures { result ≡ casts_of c }
{
    c == Command::Broadcast
}

// A write or a broadcast.
pub fn changes(c: Command) -> bool
    ensures { result ≡ changes_of c }
{
    writes(c) || casts(c)
}
