// Words that a head shows: in a read's data, and in the answer to a write of FFh.
ghost use Rattle.std.specs.Prelude.{◌≡◌, cond, ◌-◌, get_or};
ghost use Rattle.wire.specs.Word.{byte0};
ghost use Rattle.signed.specs.Number.{word_of};
ghost use Rattle.state.specs.Errors.{entry_of};
ghost use Rattle.engine.specs.Shows.{current, differential};
ghost use Rattle.engine.specs.Way.{input_error, response};

use state::parts::{Head, Setting};
use state::{errors, position, status};
use wire::telegram::Telegram;

// One of the 39, at its place; past them, 0.
pub(crate) fn stored(values: [u32; 39], i: usize) -> u32
    ensures { result ≡ get_or values i 0 }
{
    values.get(i).copied().unwrap_or(0)
}

// What FEh would show unfrozen.
#[tactic(auto, using(crate::proofs::Shown::current_is))]
fn current(h: Head) -> u32
    ensures { result ≡ word_of (current h) }
{
    signed::word(position::view(h.stored.values, h.measurement).shown)
}

// FEh: the kept value while it is frozen.
pub(crate) fn position(h: Head) -> u32
    ensures { result ≡ word_of (cond h.measurement.frozen h.measurement.kept (current h)) }
{
    if h.measurement.frozen {
        signed::word(h.measurement.kept)
    } else {
        current(h)
    }
}

// FCh, and FFh with 03h 2: the differential value for a set point.
#[tactic(auto, using(crate::proofs::Shown::differential_is))]
pub(crate) fn differential(h: Head, target: u32) -> u32
    ensures { result ≡ word_of (differential h target) }
{
    signed::word(status::difference(h.stored.values, h.measurement, target))
}

// 81h is the oldest of the remembered errors.
pub(crate) fn error_at(address: u8, h: Head) -> u32
    ensures { result ≡ entry_of h.faults.memory (address - 0x81) }
{
    errors::entry(h.faults.memory, address.saturating_sub(0x81) as usize) as u32
}

// 96h: its number in the first data byte; 0 gives the count, n the nth oldest code.
pub(crate) fn input_error(t: Telegram, h: Head) -> u32
    ensures { result ≡ input_error h (byte0 t.value) }
{
    match wire::word::first(t.value) {
        0 => h.faults.inputs.count,
        n => n as u32 * 16777216 + errors::entry(h.faults.inputs, (n - 1) as usize) as u32,
    }
}

// The answer to a write of FFh, by 03h: the set point, the current value, or the differential value.
#[tactic(auto, unfolding(crate::specs::Addresses::place, crate::specs::Addresses::the39))]
pub(crate) fn response(t: Telegram, h: Head) -> u32
    ensures { result ≡ response t h }
{
    match h.stored.values[Setting::RESPONSE] {
        1 => current(h),
        2 => differential(h, t.value),
        _ => t.value,
    }
}
