// One head at 31 on the bench: takes raw bytes from standard input, all at time 0, and writes each reply as one line of twenty upper-case
// hex digits.
#![tactic(auto)]

ghost use Rattle.std.specs.Prelude.{◌≡◌};
ghost use Rattle.bench.specs.Bench.{replied_of, spoken_of, fed_of};

use head::calls;
use head::refusal::Refusal;
use state::parts::Head;
use std::io;
use std::io::{Print, Read};
use std::process::ExitCode;
use text::failing::Failure;

// The head after a byte, and the line of its reply where there is one.
#[derive(Clone, Copy)]
struct Spoken {
    head: Head,
    reply: Option<[u8; 21]>,
}

#[tactic(auto, unfolding(crate::specs::Bench::replied_of))]
fn replied(heard: Result<usize, Refusal>) -> bool
    ensures { result ≡ replied_of heard }
{
    matches!(heard, Ok(1..))
}

fn speak(h: Head, b: u8) -> Spoken
    ensures { result ≡ spoken_of h b }
{
    let mut space = [0u8; 10];
    let f = calls::byte(h, b, 0, &mut space);
    let mut line = [b'\n'; 21];
    hex_digits::spell(&space, &mut line);
    Spoken {
        head: f.head,
        reply: if replied(f.heard) { Some(line) } else { None },
    }
}

// Each byte in turn, and the line of each reply at once.
fn feed(rt: &impl Print, head: &mut Head, bytes: &[u8]) -> io::Result<()>
    ensures { head.new ≡ fed_of head.old bytes.now }
{
    let mut written = Ok(());
    for b in bytes {
        let s = speak(*head, *b);
        *head = s.head;
        if let Some(line) = s.reply {
            written = written.and(rt.write_all(&line));
        }
    }
    written
}

// All of the input. A proved loop has to end, and nothing says that the input does: the turns count up to a number that no run uses up.
fn read(rt: &impl Print, input: &mut impl Read) -> Result<(), Failure> {
    let mut head = calls::factory(0);
    let mut piece = [0u8; 4096];
    for _ in 0..u64::MAX {
        let n = input.read(&mut piece).map_err(Failure::Input)?;
        if n == 0 {
            break;
        }
        feed(rt, &mut head, &piece[..n]).map_err(Failure::Output)?;
    }
    Ok(())
}

fn main(rt: HostRuntime) -> ExitCode {
    match read(&rt, &mut rt.reader()) {
        Ok(()) => ExitCode::SUCCESS,
        Err(failure) => {
            let _ = eprintln!(rt; "{failure}");
            ExitCode::FAILURE
        }
    }
}
