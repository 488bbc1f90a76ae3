// What a telegram does, once it is judged.
ghost use Rattle.std.specs.Prelude.{◌≡◌};
ghost use Rattle.judge.specs.Deeds.{system_of, ordered_by, done_by, shown_by, refused_by, deed_of};

use crate::command;
use crate::command::Command;
use crate::verdict::Verdict;
use rows::kind::{Kind, Order};
use wire::fault::Fault;
use wire::telegram::Telegram;

#[derive(Clone, Copy)]
pub enum Deed {
    // Nothing: it was refused or not heard, or it only reads.
    Nothing,
    // The value goes to the stored parameter at the place.
    Store(usize, u32),
    // The factory reset of this number: 1, 2 or 5.
    Reset(u32),
    Restart,
    Calibrate,
    // The error memory is emptied.
    Forget,
    // The interlock is opened, or closed.
    Unlock(bool),
    Freeze,
    // Set point 1 or 2, with the control word.
    Aim1(u32, u16),
    Aim2(u32, u16),
    // The status word was read by FAh: the static bit is cleared.
    ClearStatic,
    // The position was read by FEh: a kept value is released.
    Release,
    // The number is offered, by D2h: it is remembered until it is adopted.
    Offer(u32),
    // An offer outside its range: the one that is remembered is dropped.
    Withdraw,
}

// A0h.
#[tactic(auto, unfolding(crate::specs::Deeds::system_of))]
fn system(value: u32) -> Deed
    ensures { result ≡ system_of value }
{
    match value {
        7 => Deed::Calibrate,
        8 => Deed::Forget,
        9 => Deed::Restart,
        _ => Deed::Reset(value),
    }
}

// A write only parameter.
fn ordered_by(o: Order, value: u32) -> Deed
    ensures { result ≡ ordered_by o value }
{
    match o {
        Order::System => system(value),
        Order::Calibration => Deed::Calibrate,
        Order::Interlock => Deed::Unlock(value == 1),
        Order::Freezing => Deed::Freeze,
        Order::Assignment => Deed::Offer(value),
    }
}

// A write or a broadcast that is obeyed.
#[tactic(auto, unfolding(crate::specs::Deeds::done_by))]
fn done_by(k: Kind, value: u32, word: u16) -> Deed
    ensures { result ≡ done_by k value word }
{
    match k {
        Kind::Stored(i) => Deed::Store(i, value),
        Kind::SetPoint1 => Deed::Aim1(value, word),
        Kind::SetPoint2 => Deed::Aim2(value, word),
        Kind::ReadOnly(_) => Deed::Nothing,
        Kind::WriteOnly(o) => ordered_by(o, value),
        Kind::Unknown => Deed::Nothing,
    }
}

// A read that is obeyed.
#[tactic(auto, unfolding(crate::specs::Deeds::shown_by))]
fn shown_by(address: u8) -> Deed
    ensures { result ≡ shown_by address }
{
    match address {
        0xFA => Deed::ClearStatic,
        0xFE => Deed::Release,
        _ => Deed::Nothing,
    }
}

// A telegram that is refused does nothing, save for an offer that is refused for its range.
#[tactic(auto, unfolding(crate::specs::Deeds::refused_by))]
fn refused_by(f: Fault, address: u8) -> Deed
    ensures { result ≡ refused_by f address }
{
    match f {
        Fault::Below | Fault::Above if address == 0xD2 => Deed::Withdraw,
        _ => Deed::Nothing,
    }
}

#[tactic(auto, unfolding(crate::specs::Deeds::deed_of))]
pub fn deed_of(v: Verdict, c: Command, k: Kind, t: Telegram) -> Deed
    ensures { result ≡ deed_of v c k t }
{
    match v {
        Verdict::Obeyed if command::changes(c) => done_by(k, t.value, t.word),
        Verdict::Obeyed => shown_by(t.parameter),
        Verdict::Silent => Deed::Nothing,
        Verdict::Refused(f) => refused_by(f, t.parameter),
    }
}
