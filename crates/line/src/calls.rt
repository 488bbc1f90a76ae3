// The calls on a line. 20 goes before all other refusals, 2 before 1 and 1 before 17, 3 before 4, 5, 6 and those of a sheet.
ghost use Rattle.std.specs.Prelude.{◌≡◌, Bool, Ok, Err, length, drop, map, eqb};
ghost use Rattle.std.specs.List.{list_any};
ghost use Rattle.head.specs.Calls.{guarded};
ghost use Rattle.line.specs.Calls.{empty_of, fits_by, fits_of, done_with, refused_with, head_at, placed_of, grow_of, byte_of, byte_space_of, tick_of, named_by, named_of, measure_of, keys_of, keys_space_of, power_of, bring_of, last_hit_of, serial_number_of, load_of, save_of, save_space_of};
ghost use Rattle.line.specs.Round.{ticked_at};
ghost use Rattle.line.specs.Stretch.{until_of, until_space_of};

use crate::round::Replies;
use crate::{round, serials};
use effects::restart;
use head::refusal::Refusal;
use head::{calls, moves};
use state::older;
use state::parts::Head;

// Places for 32 heads in fixed memory, of which the first `count` are on the wire.
#[repr(C)]
#[derive(Clone, Copy)]
pub struct Line {
    pub heads: [Head; 32],
    pub count: usize,
}

// What a call hands back is as a head's own, with the line in the head's place: the statements of demands name both, `c.head` and `c.line`.
#[repr(C)]
#[derive(Clone, Copy)]
pub struct Called {
    pub line: Line,
    pub answer: Result<(), Refusal>,
}

#[repr(C)]
#[derive(Clone, Copy)]
pub struct Fed {
    pub line: Line,
    pub heard: Result<usize, Refusal>,
}

// The line after a stretch of bytes, what the last of them that was heard drew, and the place of the next.
#[repr(C)]
#[derive(Clone, Copy)]
pub struct Stretch {
    pub line: Line,
    pub heard: Result<usize, Refusal>,
    pub next: usize,
}

// A line with no head.
#[tactic(auto, unfolding(crate::specs::Calls::empty_of))]
pub fn empty() -> Line
    ensures { result ≡ empty_of }
{
    Line {
        heads: [calls::factory(0); 32],
        count: 0,
    }
}

// The number of heads.
pub fn count(l: Line) -> usize
    ensures { result ≡ l.count }
{
    l.count
}

// Whether the line is one that can be: at most 32 heads, each below the count let pass by its test, no two with one serial number. The serial numbers
// are gathered on the way, so that each head is read once. The line is lent; `fits` takes it by value, for other crates.
#[tactic(auto, unfolding(crate::specs::Calls::fits_by))]
fn fits_by(bringing: bool, l: &Line) -> bool
    ensures { result ≡ fits_by bringing l.now }
{
    if 32 < l.count {
        return false;
    }
    let mut ok = true;
    let mut serials = [0; 32];
    for (i, h) in l.heads[..l.count].iter().enumerate() {
        ok = ok & older::passes(bringing, *h) & !serials::stands(&serials[..i], h.stored.serial);
        serials[i] = h.stored.serial;
    }
    ok
}

// Whether every call takes the line: each head is well-formed. The call that brings a head over takes one with older heads too.
pub fn fits(l: Line) -> bool
    ensures { result ≡ fits_of l }
{
    fits_by(false, &l)
}

fn done(l: Line) -> Called
    ensures { result ≡ done_with l }
{
    Called {
        line: l,
        answer: Ok(()),
    }
}

fn refused(l: Line, why: Refusal) -> Called
    ensures { result ≡ refused_with l why }
{
    Called {
        line: l,
        answer: Err(why),
    }
}

// The head at a place; at no place, the factory head.
fn head_at(l: &Line, i: usize) -> Head
    ensures { result ≡ head_at l.now i }
{
    match l.heads.get(i) {
        Some(h) => *h,
        None => calls::factory(0),
    }
}

// A head put at a place; at no place, nothing is put.
#[tactic(auto, unfolding(crate::specs::Calls::placed_of))]
fn place(l: &mut Line, i: usize, h: Head)
    ensures { l.new ≡ placed_of l.old i h }
{
    if i < 32 {
        l.heads[i] = h;
    }
}

// Whether one of these heads has this serial number.
fn is_taken(heads: &[Head], serial: u32) -> bool
    ensures { result ≡ list_any (λ (h : Head). eqb h.stored.serial serial) heads.now }
{
    heads.iter().any(|h| h.stored.serial == serial)
}

// A line grown by a head with a node number and a serial number.
#[tactic(auto, unfolding(crate::specs::Calls::grow_of))]
pub fn grow(l: Line, node: u32, serial: u32) -> Called
    ensures { result ≡ grow_of l node serial }
{
    if !fits_by(false, &l) {
        return refused(l, Refusal::Malformed);
    }
    let n = l.count;
    if 32 <= n {
        return refused(l, Refusal::Full);
    }
    if !calls::node_fits(node) {
        return refused(l, Refusal::Node);
    }
    if is_taken(&l.heads[..n], serial) {
        return refused(l, Refusal::SerialTaken);
    }
    let mut k = l;
    k.heads[n] = restart::fresh(node, serial);
    k.count += 1;
    done(k)
}

// Bytes for every head, from the place `from` on, all at one time and with lent reply space, until one draws a reply: the space holds the reply to
// one byte, so whoever wants them all has to look at it before the next byte is heard. The tests for refusal are made once for all these bytes, and
// the line leaves by one exit, for which its heads are copied once.
#[tactic(auto, unfolding(crate::specs::Stretch::until_of, crate::specs::Stretch::until_space_of))]
pub fn until_reply(l: Line, bytes: &[u8], from: usize, at: u32, space: &mut [u8]) -> Stretch
    ensures value { result ≡ until_of l (drop from bytes.now) from at (length space.old) }
    ensures space_after { space.new ≡ until_space_of l (drop from bytes.now) at space.old }
{
    let mut heads = l.heads;
    let mut next = from;
    let heard = if !fits_by(false, &l) {
        Err(Refusal::Malformed)
    } else if space.len() < 10 {
        Err(Refusal::Space)
    } else {
        let mut replies = Replies::none();
        // A `while`, since the place where it ends is handed back, and `from` may be past the last byte.
        while next < bytes.len() && replies.count == 0 {
            replies = round::heard(&mut heads[..l.count], bytes[next], at);
            next += 1;
        }
        round::lay(space, replies);
        Ok(replies.count)
    };
    Stretch {
        line: Line {
            heads,
            count: l.count,
        },
        heard,
        next,
    }
}

// A byte for every head, with lent reply space: a stretch of one.
pub fn byte(l: Line, b: u8, at: u32, space: &mut [u8]) -> Fed
    ensures value { result ≡ byte_of l b at (length space.old) }
    ensures space_after { space.new ≡ byte_space_of l b at space.old }
{
    let s = until_reply(l, &[b], 0, at, space);
    Fed {
        line: s.line,
        heard: s.heard,
    }
}

// Each of these heads hears a tick.
fn tick_each(heads: &mut [Head], at: u32)
    ensures { heads.new ≡ map (ticked_at at) heads.old }
{
    for h in heads.iter_mut() {
        *h = moves::ticked(*h, at);
    }
}

// A tick for every head.
#[tactic(auto, unfolding(crate::specs::Calls::tick_of), using(crate::proofs::Laws::fits_small, crate::proofs::Laws::each_map))]
pub fn tick(l: Line, at: u32) -> Called
    ensures { result ≡ tick_of l at }
{
    if !fits_by(false, &l) {
        return refused(l, Refusal::Malformed);
    }
    let mut heads = l.heads;
    tick_each(&mut heads[..l.count], at);
    done(Line {
        heads,
        count: l.count,
    })
}

// The head that a call names: 20, then 3.
fn chosen(bringing: bool, l: &Line, i: usize) -> Result<Head, Refusal>
    ensures { result ≡ guarded Err (named_by bringing l.now i) (Ok (head_at l.now i)) }
{
    if !fits_by(bringing, l) {
        return Err(Refusal::Malformed);
    }
    if i < l.count {
        Ok(head_at(l, i))
    } else {
        Err(Refusal::NoHead)
    }
}

// What a call made of the head that it names alone, put back in its place, with its answer.
#[tactic(auto, unfolding(crate::specs::Calls::named_of))]
fn named(bringing: bool, mut l: Line, i: usize, c: calls::Called) -> Called
    ensures { result ≡ named_of bringing l i c }
{
    let answer = match chosen(bringing, &l, i) {
        Ok(_) => {
            place(&mut l, i, c.head);
            c.answer
        }
        Err(why) => Err(why),
    };
    Called { line: l, answer }
}

// A measurement of one head.
#[tactic(auto, unfolding(crate::specs::Calls::measure_of))]
pub fn measure(l: Line, i: usize, m: i32) -> Called
    ensures { result ≡ measure_of l i m }
{
    named(false, l, i, calls::measure(head_at(&l, i), m))
}

// A key state of one head, with lent reply space: 20, then 3, then what the head alone makes of both.
#[tactic(auto, unfolding(crate::specs::Calls::keys_of, crate::specs::Calls::keys_space_of))]
pub fn keys(mut l: Line, i: usize, state: u32, space: &mut [u8]) -> Fed
    ensures value { result ≡ keys_of l i state (length space.old) }
    ensures space_after { space.new ≡ keys_space_of l i state space.old }
{
    let heard = match chosen(false, &l, i) {
        Ok(h) => {
            let f = calls::keys(h, state, space);
            place(&mut l, i, f.head);
            f.heard
        }
        Err(why) => Err(why),
    };
    Fed { line: l, heard }
}

// Power off and on at one head.
#[tactic(auto, unfolding(crate::specs::Calls::power_of))]
pub fn power(l: Line, i: usize) -> Called
    ensures { result ≡ power_of l i }
{
    named(false, l, i, calls::power(head_at(&l, i)))
}

// An older head brought over, whatever other older heads there are.
#[tactic(auto, unfolding(crate::specs::Calls::bring_of))]
pub fn bring(l: Line, i: usize) -> Called
    ensures { result ≡ bring_of l i }
{
    named(true, l, i, calls::bring(head_at(&l, i)))
}

// What the last damaged telegram that one head heard was hit by.
#[tactic(auto, unfolding(crate::specs::Calls::last_hit_of))]
pub fn last_hit(l: Line, i: usize) -> Result<u8, Refusal>
    ensures { result ≡ last_hit_of l i }
{
    calls::last_hit(chosen(false, &l, i)?)
}

// The serial number of one head.
#[tactic(auto, unfolding(crate::specs::Calls::serial_number_of))]
pub fn serial_number(l: Line, i: usize) -> Result<u32, Refusal>
    ensures { result ≡ serial_number_of l i }
{
    calls::serial_number(chosen(false, &l, i)?)
}

// A sheet loaded into one head.
#[tactic(auto, unfolding(crate::specs::Calls::load_of))]
pub fn load(l: Line, i: usize, sheet: &[u8]) -> Called
    ensures { result ≡ load_of l i sheet.now }
{
    named(false, l, i, calls::load(head_at(&l, i), sheet))
}

// The settings of one head written on a sheet at the start of the space: 20, then 3, then what the head alone writes.
#[tactic(auto, unfolding(crate::specs::Calls::save_of, crate::specs::Calls::save_space_of))]
pub fn save(l: Line, i: usize, space: &mut [u8]) -> Result<(), Refusal>
    ensures value { result ≡ save_of l i (length space.old) }
    ensures space_after { space.new ≡ save_space_of l i space.old }
{
    calls::save(chosen(false, &l, i)?, space)
}
