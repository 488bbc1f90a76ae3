// A rack of telegrams in one call: up to 64 telegrams for a line, and their replies one after another in the space that is lent. 20 goes before 15, and
// 15 before 16.
#![tactic(auto)]

ghost use Rattle.std.specs.Prelude.{◌≡◌, Bool, true, length, map};
ghost use Rattle.state.specs.With.{with_ear};
ghost use Rattle.effects.specs.Restart.{empty_ear};
ghost use Rattle.line.specs.Calls.{fits_of};
ghost use Rattle.rack.specs.Rack.{is_rack, room_for, dropped_of, fed_of, laid_at, laid_from, refused_with, racked, rack_of, rack_space_of};

use effects::restart;
use head::refusal::Refusal;
use line::calls::Line;
use line::{calls, round};
use state::parts::Head;

// How many replies were laid, and how many collisions there were.
#[repr(C)]
#[derive(Clone, Copy)]
pub struct Tally {
    pub replies: usize,
    pub collisions: usize,
}

#[repr(C)]
#[derive(Clone, Copy)]
pub struct Racked {
    pub line: Line,
    pub answer: Result<Tally, Refusal>,
}

// Whether so many bytes are a rack: whole telegrams, 64 at most.
#[tactic(auto, unfolding(crate::specs::Rack::is_rack))]
fn is_rack(n: usize) -> bool
    ensures { result ≡ is_rack n }
{
    n % 10 == 0 && n <= 640
}

// Whether the space has room for so many bytes from the place on.
#[tactic(auto, unfolding(crate::specs::Rack::room_for))]
fn room_for(n: usize, room: usize, place: usize) -> bool
    ensures { result ≡ room_for n room place }
{
    place <= room && n <= room - place
}

// Each of these heads drops the bytes it has gathered.
fn drop_bytes(heads: &mut [Head], at: u32)
    ensures { heads.new ≡ map (λ h. with_ear h (empty_ear at)) heads.old }
{
    for h in heads.iter_mut() {
        h.ear = restart::empty_ear(at);
    }
}

// A reply at a place of the space; past its end, nothing.
#[tactic(auto, unfolding(crate::specs::Rack::laid_at))]
fn lay(space: &mut [u8], place: usize, ten: [u8; 10])
    ensures { space.new ≡ laid_at space.old place ten }
{
    if place <= space.len() {
        head::calls::lay(&mut space[place..], ten);
    }
}

// The telegrams of a rack, the replies from the start of the space. No head has a byte gathered and all bytes come at one time, so each ten of them are
// a telegram that every head is told whole: no byte is gathered here. The line is tested by the caller, once for all.
fn feed(line: Line, bytes: &[u8], at: u32, space: &mut [u8]) -> Racked
    requires line_value { fits_of line ≡ true }
    requires bytes_value { is_rack (length bytes.now) ≡ true }
    ensures value { result ≡ racked (fed_of (dropped_of line at) bytes.now at) }
    ensures space_after { space.new ≡ laid_from (fed_of (dropped_of line at) bytes.now at).laid 0 space.old }
{
    let mut heads = line.heads;
    drop_bytes(&mut heads[..line.count], at);
    let mut tally = Tally {
        replies: 0,
        collisions: 0,
    };
    let (telegrams, _) = bytes.as_chunks::<10>();
    for ten in telegrams {
        let drawn = round::told(&mut heads[..line.count], *ten, at);
        if drawn.count == 1 {
            lay(space, 10 * tally.replies, drawn.last);
            tally.replies += 1;
        } else if 1 < drawn.count {
            tally.collisions += 1;
        }
    }
    Racked {
        line: Line {
            heads,
            count: line.count,
        },
        answer: Ok(tally),
    }
}

fn refused(line: Line, why: Refusal) -> Racked
    ensures { result ≡ refused_with line why }
{
    Racked {
        line,
        answer: Err(why),
    }
}

// The bytes of up to 64 telegrams for a line, all at one time; the replies are laid from a place of the space on.
#[tactic(auto, unfolding(crate::specs::Rack::rack_of, crate::specs::Rack::rack_space_of))]
pub fn rack(line: Line, bytes: &[u8], at: u32, space: &mut [u8], place: usize) -> Racked
    ensures value { result ≡ rack_of line bytes.now at (length space.old) place }
    ensures space_after { space.new ≡ rack_space_of line bytes.now at space.old place }
{
    if !calls::fits(line) {
        return refused(line, Refusal::Malformed);
    }
    if !is_rack(bytes.len()) {
        return refused(line, Refusal::RackLength);
    }
    if !room_for(bytes.len(), space.len(), place) {
        return refused(line, Refusal::RackSpace);
    }
    feed(line, bytes, at, &mut space[place..])
}
