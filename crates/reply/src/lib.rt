// What a head answers to a telegram that was judged.
#![tactic(auto)]

mod word;

ghost use Rattle.std.specs.Prelude.{◌≡◌, Bool};
ghost use Rattle.reply.specs.Reply.{input_of, position_word, shows_of, read_of, set_point_answer, answer_of, said, value_reply, reply_of, adoption_of};

use judge::command;
use judge::judged::Judged;
use judge::verdict::Verdict;
use rows::kind::{Kind, Shown};
use state::parts::{ErrorList, Head, Measurement, Setting};
use state::{errors, position, status};
use wire::telegram;
use wire::telegram::Telegram;

// 96h: its number in the first data byte; 0 gives the count, n the nth oldest code.
#[tactic(auto, unfolding(crate::specs::Reply::input_of))]
fn input(list: ErrorList, number: u8) -> u32
    ensures { result ≡ input_of list number }
{
    if number == 0 {
        return list.count;
    }
    let code = errors::entry(list, usize::from(number - 1));
    u32::from(number) * 16777216 + u32::from(code)
}

// FEh: the kept value, or the value of now.
#[tactic(auto, unfolding(crate::specs::Reply::position_word))]
fn position_word(values: [u32; 39], g: Measurement) -> u32
    ensures { result ≡ position_word values g }
{
    if g.frozen {
        return signed::word(g.kept);
    }
    signed::word(position::view(values, g).shown)
}

// What a read only parameter shows.
fn shows(s: Shown, h: Head, value: u32) -> u32
    ensures { result ≡ shows_of s h value }
{
    let values = h.stored.values;
    let g = h.measurement;
    match s {
        Shown::Identification => 11,
        Shown::Version => 100,
        Shown::ErrorCount => h.faults.memory.count,
        Shown::ErrorAt(i) => u32::from(errors::entry(h.faults.memory, i)),
        Shown::InputErrors => input(h.faults.inputs, wire::word::first(value)),
        Shown::StatusWord => u32::from(status::status(h)),
        Shown::Differential => signed::word(status::difference(values, g, h.targets.second)),
        Shown::Pending => u32::from(h.faults.pending),
        Shown::Position => position_word(values, g),
    }
}

// The data of a read.
#[tactic(auto, unfolding(crate::specs::Reply::read_of))]
fn read(k: Kind, h: Head, value: u32) -> u32
    ensures { result ≡ read_of k h value }
{
    match k {
        Kind::Stored(i) => h.stored.values.get(i).copied().unwrap_or(0),
        Kind::SetPoint1 => h.targets.first,
        Kind::SetPoint2 => h.targets.second,
        Kind::ReadOnly(s) => shows(s, h, value),
        Kind::WriteOnly(_) | Kind::Unknown => 0,
    }
}

// An FFh write, by 03h: the set point, the current value, or the differential value after the write.
fn set_point_answer(h: Head, value: u32) -> u32
    ensures { result ≡ set_point_answer h value }
{
    let values = h.stored.values;
    match values[Setting::RESPONSE] {
        1 => signed::word(position::view(values, h.measurement).shown),
        2 => signed::word(status::difference(values, h.measurement, value)),
        _ => value,
    }
}

// The data of a write's answer: the value written, save for FFh.
#[tactic(auto, unfolding(crate::specs::Reply::answer_of))]
fn answer(address: u8, h: Head, value: u32) -> u32
    ensures { result ≡ answer_of address h value }
{
    if address == 0xFF {
        return set_point_answer(h, value);
    }
    value
}

// A reply copies command, node and parameter.
#[tactic(auto, unfolding(crate::specs::Reply::said))]
fn saying(t: Telegram, parameter: u8, word: u16, value: u32) -> Option<[u8; 10]>
    ensures { result ≡ said t parameter word value }
{
    Some(telegram::bytes(Telegram {
        command: t.command,
        node: t.node,
        parameter,
        word,
        value,
    }))
}

// Of an obeyed telegram: a read's data, a write's answer, and no answer to a broadcast, nor to a number that is offered by D2h.
#[tactic(auto, unfolding(crate::specs::Reply::value_reply, crate::specs::Reply::silence))]
fn value_reply(j: Judged, h: Head, word: u16) -> Option<[u8; 10]>
    ensures { result ≡ value_reply j h word }
{
    let t = j.telegram;
    if command::reads(j.command) {
        return saying(t, t.parameter, word, read(j.kind, h, t.value));
    }
    if command::writes(j.command) && t.parameter != 0xD2 {
        return saying(t, t.parameter, word, answer(t.parameter, h, t.value));
    }
    None
}

// The reply to a telegram, by the head before its effects and the head after them. An error reply has FDh as parameter.
#[tactic(auto, unfolding(crate::specs::Reply::reply_of, crate::specs::Reply::error_reply, crate::specs::Reply::silence))]
pub fn reply_to(j: Judged, before: Head, after: Head) -> Option<[u8; 10]>
    ensures { result ≡ reply_of j before after }
{
    let word = word::carried(j.deed, before, after);
    match j.verdict {
        Verdict::Silent => None,
        Verdict::Refused(fault) => saying(j.telegram, 0xFD, word, u32::from(fault.code())),
        Verdict::Obeyed => value_reply(j, before, word),
    }
}

// Auto-ID: what a head sends that adopts the number it was offered, a write's reply with this status word.
#[tactic(auto, unfolding(crate::specs::Reply::adoption_of))]
pub fn adoption(word: u16, number: u32) -> [u8; 10]
    ensures { result ≡ adoption_of word number }
{
    telegram::bytes(Telegram {
        command: 1,
        node: 31,
        parameter: 0xD2,
        word,
        value: number,
    })
}
