// A telegram's way through the head: the seven checks. Each check gives a verdict, and the first that is not "obeyed" decides.
ghost use Rattle.std.specs.Prelude.{◌≡◌, Bool};
ghost use Rattle.judge.specs.Checks.{◌else◌, sum_check, node_check, command_check, parameter_check, access_check, lockable_of, lock_check, state_check, range_check, value_check, number_check, hush_of};
ghost use Rattle.judge.specs.Verdicts.{late_of, verdict_of};

use crate::command;
use crate::command::Command;
use rows::access::Access;
use rows::range::Range;
use rows::table;
use wire::fault::Fault;
use wire::telegram::Telegram;

#[derive(Clone, Copy)]
pub enum Verdict {
    Obeyed,
    Silent,
    Refused(Fault),
}

// What the checks ask of a head: its number in force, whether it is locked, how many input errors it holds.
#[repr(C)]
#[derive(Clone, Copy)]
pub struct Standing {
    pub number: u32,
    pub locked: bool,
    pub inputs: u32,
}

// The first of two checks that decides.
fn first(a: Verdict, b: Verdict) -> Verdict
    ensures { result ≡ a else b }
{
    match a {
        Verdict::Obeyed => b,
        decided => decided,
    }
}

// 1. Damaged: answered only at the number in force, and not a broadcast.
#[tactic(auto, unfolding(crate::specs::Checks::sum_check))]
fn check_sum(hit: u8, c: Command, mine: bool) -> Verdict
    ensures { result ≡ sum_check hit c mine }
{
    if hit == 0 {
        Verdict::Obeyed
    } else if mine && !command::casts(c) {
        Verdict::Refused(Fault::CheckSum)
    } else {
        Verdict::Silent
    }
}

// 2. For another head.
#[tactic(auto, unfolding(crate::specs::Checks::node_check))]
fn check_node(c: Command, mine: bool) -> Verdict
    ensures { result ≡ node_check c mine }
{
    if command::casts(c) || mine {
        Verdict::Obeyed
    } else {
        Verdict::Silent
    }
}

// 3. Command above 02h.
#[tactic(auto, unfolding(crate::specs::Checks::command_check))]
fn check_command(c: Command) -> Verdict
    ensures { result ≡ command_check c }
{
    match c {
        Command::Other => Verdict::Refused(Fault::NoAccess),
        _ => Verdict::Obeyed,
    }
}

// 4. Unknown parameter.
#[tactic(auto, unfolding(crate::specs::Checks::parameter_check))]
fn check_parameter(a: Access) -> Verdict
    ensures { result ≡ parameter_check a }
{
    match a {
        Access::Unknown => Verdict::Refused(Fault::UnknownParameter),
        _ => Verdict::Obeyed,
    }
}

// 5. Write to read only, read of write only, broadcast where none is allowed.
#[tactic(auto, unfolding(crate::specs::Checks::access_check))]
fn check_access(c: Command, a: Access, castable: bool) -> Verdict
    ensures { result ≡ access_check c a castable }
{
    match a {
        _ if command::casts(c) && !castable => Verdict::Silent,
        _ if command::casts(c) => Verdict::Obeyed,
        Access::ReadOnly if command::writes(c) => Verdict::Refused(Fault::WriteRefused),
        Access::WriteOnly if command::reads(c) => Verdict::Refused(Fault::ReadRefused),
        _ => Verdict::Obeyed,
    }
}

// What the interlock covers: the 39 and A0h.
#[tactic(auto, unfolding(crate::specs::Checks::lockable_of), using(rows::proofs::Groups::stored_at))]
fn lockable(address: u8) -> bool
    ensures { result ≡ lockable_of address }
{
    table::place_of(address).is_some() || address == 0xA0
}

// 6. Locked.
#[tactic(auto, unfolding(crate::specs::Checks::lock_check))]
fn check_lock(locked: bool, c: Command, address: u8) -> Verdict
    ensures { result ≡ lock_check locked c address }
{
    if locked && command::changes(c) && lockable(address) {
        Verdict::Refused(Fault::Locked)
    } else {
        Verdict::Obeyed
    }
}

// 6. A number is offered, by D2h, where the number in force is not 31.
#[tactic(auto, unfolding(crate::specs::Checks::state_check))]
fn check_state(number: u32, c: Command, address: u8) -> Verdict
    ensures { result ≡ state_check number c address }
{
    if command::changes(c) && address == 0xD2 && number != 31 {
        Verdict::Refused(Fault::DeviceState)
    } else {
        Verdict::Obeyed
    }
}

#[tactic(auto, unfolding(crate::specs::Checks::range_check))]
fn check_range(g: Range) -> Verdict
    ensures { result ≡ range_check g }
{
    match g {
        Range::Right => Verdict::Obeyed,
        Range::Low => Verdict::Refused(Fault::Below),
        Range::High => Verdict::Refused(Fault::Above),
        Range::Between => Verdict::Refused(Fault::Unlisted),
    }
}

// 7. The value of a write or a broadcast.
#[tactic(auto, unfolding(crate::specs::Checks::value_check))]
fn check_value(c: Command, g: Range) -> Verdict
    ensures { result ≡ value_check c g }
{
    if command::changes(c) {
        check_range(g)
    } else {
        Verdict::Obeyed
    }
}

// 7. For 96h, a number above the count.
#[tactic(auto, unfolding(crate::specs::Checks::number_check))]
fn check_number(address: u8, number: u8, inputs: u32) -> Verdict
    ensures { result ≡ number_check address number inputs }
{
    if address == 0x96 && inputs < number as u32 {
        Verdict::Refused(Fault::Above)
    } else {
        Verdict::Obeyed
    }
}

// A refused broadcast is silent.
#[tactic(auto, unfolding(crate::specs::Checks::hush_of))]
fn hush(c: Command, v: Verdict) -> Verdict
    ensures { result ≡ hush_of c v }
{
    match v {
        Verdict::Refused(_) if command::casts(c) => Verdict::Silent,
        _ => v,
    }
}

// Checks 3 to 7.
#[tactic(auto, unfolding(crate::specs::Verdicts::late_of))]
fn late(t: Telegram, s: Standing) -> Verdict
    ensures { result ≡ late_of t s }
{
    let c = command::command_of(t.command);
    let a = rows::access::access_of(t.parameter);
    let above = check_command(c);
    let known = check_parameter(a);
    let access = check_access(c, a, rows::access::broadcast(t.parameter));
    let lock = check_lock(s.locked, c, t.parameter);
    let state = check_state(s.number, c, t.parameter);
    let value = check_value(c, rows::range::range_of(t.parameter, t.value));
    let number = check_number(t.parameter, wire::word::first(t.value), s.inputs);
    let last = first(lock, first(state, first(value, number)));
    hush(c, first(above, first(known, first(access, last))))
}

// All seven, of a telegram and the exclusive-or of its ten bytes. The late ones are looked at only where the first two let it pass.
#[tactic(auto, unfolding(crate::specs::Verdicts::verdict_of))]
pub fn verdict_of(hit: u8, t: Telegram, s: Standing) -> Verdict
    ensures { result ≡ verdict_of hit t s }
{
    let c = command::command_of(t.command);
    let mine = t.node as u32 == s.number;
    let early = first(check_sum(hit, c, mine), check_node(c, mine));
    match early {
        Verdict::Obeyed => late(t, s),
        _ => early,
    }
}
