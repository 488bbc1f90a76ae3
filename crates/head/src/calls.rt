// The calls on a head. Each looks first whether the head handed in is well-formed, `bring` by the old test, then refuses by the document's numbers, then
// works.
ghost use Rattle.std.specs.Prelude.{◌≡◌, Bool, length};
ghost use Rattle.head.specs.Calls.{node_fits, factory_of, made_of, done_with, refused_with, laid_on_of, fed_with, unfed, space_with, byte_of, byte_space_of, tick_of, measure_of, keys_of, keys_space_of, power_of, bring_of, tested_of, last_hit_of, serial_number_of, load_of, save_of, save_space_of};

use crate::hear::Stepped;
use crate::refusal::Refusal;
use crate::{hear, moves};
use effects::{aim, restart};
use sheet::load::Loaded;
use sheet::{load, write};
use state::parts::{Head, Setting, Stored};
use state::{older, wellformed};

#[repr(C)]
#[derive(Clone, Copy)]
pub struct Called {
    pub head: Head,
    pub answer: Result<(), Refusal>,
}

#[repr(C)]
#[derive(Clone, Copy)]
pub struct Fed {
    pub head: Head,
    pub heard: Result<usize, Refusal>,
}

// The head as the factory delivers it, at 31.
#[tactic(auto, unfolding(crate::specs::Calls::factory_of))]
pub fn factory(serial: u32) -> Head
    ensures { result ≡ factory_of serial }
{
    restart::fresh(31, serial)
}

// Whether a number may be a node number.
#[tactic(auto, unfolding(crate::specs::Calls::node_fits))]
pub fn node_fits(node: u32) -> bool
    ensures { result ≡ node_fits node }
{
    rows::range::fits_at(0, node)
}

// A head with a node number and a serial number.
#[tactic(auto, unfolding(crate::specs::Calls::made_of))]
pub fn make(node: u32, serial: u32) -> Called
    ensures { result ≡ made_of node serial }
{
    if node_fits(node) {
        return done(restart::fresh(node, serial));
    }
    refused(factory(serial), Refusal::Node)
}

// A reply at the start of the space.
#[tactic(auto, unfolding(crate::specs::Calls::laid_on_of))]
pub fn lay(space: &mut [u8], x: [u8; 10])
    ensures { space.new ≡ laid_on_of space.old x }
{
    if space.len() < 10 {
        return;
    }
    space[..10].copy_from_slice(&x);
}

// What a head did, with its reply laid, if there is one; and a call that was refused.
fn fed_with(s: Stepped, space: &mut [u8]) -> Fed
    ensures value { result ≡ fed_with s }
    ensures space_after { space.new ≡ space_with s space.old }
{
    if let Some(ten) = s.reply {
        lay(space, ten);
        return Fed {
            head: s.head,
            heard: Ok(1),
        };
    }
    Fed {
        head: s.head,
        heard: Ok(0),
    }
}

fn unfed(h: Head, why: Refusal) -> Fed
    ensures { result ≡ unfed h why }
{
    Fed {
        head: h,
        heard: Err(why),
    }
}

// A byte, with lent reply space.
#[tactic(auto, unfolding(crate::specs::Calls::byte_of, crate::specs::Calls::byte_space_of))]
pub fn byte(h: Head, b: u8, at: u32, space: &mut [u8]) -> Fed
    ensures value { result ≡ byte_of h b at (length space.old) }
    ensures space_after { space.new ≡ byte_space_of h b at space.old }
{
    if !wellformed::wellformed(h) {
        return unfed(h, Refusal::Malformed);
    }
    if space.len() < 10 {
        return unfed(h, Refusal::Space);
    }
    fed_with(hear::step(h, b, at), space)
}

fn done(h: Head) -> Called
    ensures { result ≡ done_with h }
{
    Called {
        head: h,
        answer: Ok(()),
    }
}

fn refused(h: Head, why: Refusal) -> Called
    ensures { result ≡ refused_with h why }
{
    Called {
        head: h,
        answer: Err(why),
    }
}

#[tactic(auto, unfolding(crate::specs::Calls::tick_of))]
pub fn tick(h: Head, at: u32) -> Called
    ensures { result ≡ tick_of h at }
{
    if !wellformed::wellformed(h) {
        return refused(h, Refusal::Malformed);
    }
    done(moves::ticked(h, at))
}

#[tactic(auto, unfolding(crate::specs::Calls::measure_of))]
pub fn measure(h: Head, m: i32) -> Called
    ensures { result ≡ measure_of h m }
{
    if !wellformed::wellformed(h) {
        return refused(h, Refusal::Malformed);
    }
    if !wellformed::in_reach(m) {
        return refused(h, Refusal::OutOfReach);
    }
    done(moves::measured(h, m))
}

// A key state, with lent reply space: a head that adopts a number says so.
#[tactic(auto, unfolding(crate::specs::Calls::keys_of, crate::specs::Calls::keys_space_of))]
pub fn keys(h: Head, state: u32, space: &mut [u8]) -> Fed
    ensures value { result ≡ keys_of h state (length space.old) }
    ensures space_after { space.new ≡ keys_space_of h state space.old }
{
    if !wellformed::wellformed(h) {
        return unfed(h, Refusal::Malformed);
    }
    if 7 < state {
        return unfed(h, Refusal::Keys);
    }
    if space.len() < 10 {
        return unfed(h, Refusal::Space);
    }
    fed_with(moves::keyed(h, state), space)
}

#[tactic(auto, unfolding(crate::specs::Calls::power_of))]
pub fn power(h: Head) -> Called
    ensures { result ≡ power_of h }
{
    if !wellformed::wellformed(h) {
        return refused(h, Refusal::Malformed);
    }
    done(restart::restarted(h))
}

// An older head brought over: 35h 0, incremental measurement off, its absolute position, and all else as it was. Every other call that looks for
// refusal 20 refuses it.
#[tactic(auto, unfolding(crate::specs::Calls::bring_of))]
pub fn bring(h: Head) -> Called
    ensures { result ≡ bring_of h }
{
    if !older::passes(true, h) {
        return refused(h, Refusal::Malformed);
    }
    done(older::brought(h))
}

// The test that goes before all others, where a call hands back no head.
fn tested(h: Head) -> Result<(), Refusal>
    ensures { result ≡ tested_of h }
{
    if !wellformed::wellformed(h) {
        return Err(Refusal::Malformed);
    }
    Ok(())
}

// What the last damaged telegram was hit by; whoever asks changes nothing.
#[tactic(auto, unfolding(crate::specs::Calls::last_hit_of))]
pub fn last_hit(h: Head) -> Result<u8, Refusal>
    ensures { result ≡ last_hit_of h }
{
    tested(h)?;
    Ok(h.faults.hit)
}

// The serial number; whoever asks changes nothing.
#[tactic(auto, unfolding(crate::specs::Calls::serial_number_of))]
pub fn serial_number(h: Head) -> Result<u32, Refusal>
    ensures { result ≡ serial_number_of h }
{
    tested(h)?;
    Ok(h.stored.serial)
}

// A sheet loaded, all or nothing, whatever the interlock: the values that it names, and nothing else of the head, but that alpha-numeric display may
// be entered or left.
#[tactic(auto, unfolding(crate::specs::Calls::load_of))]
pub fn load(h: Head, sheet: &[u8]) -> Called
    ensures { result ≡ load_of h sheet.now }
{
    if !wellformed::wellformed(h) {
        return refused(h, Refusal::Malformed);
    }
    let before = h.stored.values[Setting::MODE];
    let Loaded { values, answer } = load::load(h.stored.values, sheet);
    Called {
        head: Head {
            stored: Stored { values, ..h.stored },
            targets: aim::turned(before, values[Setting::MODE], h.targets),
            ..h
        },
        answer: answer.map_err(Refusal::Sheet),
    }
}

// The head's settings written on a sheet at the start of the space; whoever saves changes no head.
#[tactic(auto, unfolding(crate::specs::Calls::save_of, crate::specs::Calls::save_space_of), using(crate::proofs::Sheets::save_told, crate::proofs::Sheets::space_told))]
pub fn save(h: Head, space: &mut [u8]) -> Result<(), Refusal>
    ensures value { result ≡ save_of h (length space.old) }
    ensures space_after { space.new ≡ save_space_of h space.old }
{
    tested(h)?;
    write::write(h.stored.values, space).map_err(Refusal::Sheet)
}

// The node number in force, which a new 00h changes only at a restart.
pub fn number_in_force(h: Head) -> u32
    ensures { result ≡ h.stored.number }
{
    h.stored.number
}

// The baud setting in force.
pub fn baud_in_force(h: Head) -> u32
    ensures { result ≡ h.stored.baud }
{
    h.stored.baud
}
