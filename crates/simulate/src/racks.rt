// Racks in a script: the call, and the words of the replies that it laid.
ghost use Rattle.std.specs.Prelude.{◌≡◌, length, drop};
ghost use Rattle.rack.specs.Rack.{rack_of};
ghost use Rattle.simulate.specs.Racks.{counted_of, shown_on, shown_of};

use crate::{answer, feeding};
use head::refusal::Refusal;
use line::calls::Line;
use rack::{Racked, Tally};
use std::io;
use text::laying;

// Room for the words of as many replies as a rack can have: 64, of a blank and twenty digits each.
pub(crate) const WORDS: usize = 1344;

// How many replies an answer counts; refused, none.
fn counted(answer: Result<Tally, Refusal>) -> usize
    ensures { result ≡ counted_of answer }
{
    match answer {
        Ok(tally) => tally.replies,
        Err(_) => 0,
    }
}

// The bytes from a place on; past the end, none.
fn from(space: &[u8], place: usize) -> &[u8]
    ensures { result.now ≡ drop place space.now }
{
    space.get(place..).unwrap_or(&[])
}

// The words of so many replies, which stand one after another, at the start of a text: as many as there is room for.
fn show(replies: &[u8], n: usize, out: &mut [u8])
    ensures { out.new ≡ shown_on out.old replies.now n }
{
    let m = n.min(out.len() / 21);
    let mut kept = 0;
    for i in 0..m {
        kept = laying::lay(out, kept, &feeding::word(from(replies, 10 * i)));
    }
}

// A rack of these bytes, and the words of the replies that it laid, at the start of `out`.
pub(crate) fn call(
    l: Line,
    bytes: &[u8],
    time: u32,
    space: &mut [u8],
    place: usize,
    out: &mut [u8],
) -> Racked
    ensures value { result ≡ rack_of l bytes.now time (length space.old) place }
    ensures out_after { out.new ≡ shown_of l bytes.now time space.old place out.old }
{
    let r = rack::rack(l, bytes, time, space, place);
    show(from(space, place), counted(r.answer), out);
    r
}

// What a rack came to, with the words of the replies that it laid.
pub(crate) fn write(
    rt: &impl Print,
    answer: Result<Tally, Refusal>,
    words: &[u8],
) -> io::Result<()> {
    match answer {
        Ok(tally) => {
            let n = 21 * tally.replies.min(words.len() / 21);
            print!(rt; "racked {} {}", tally.replies, tally.collisions)?;
            rt.write_all(&words[..n])?;
            rt.println("")
        }
        Err(why) => answer::refuse(rt, why.number()),
    }
}
