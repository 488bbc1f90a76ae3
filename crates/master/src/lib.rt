// The other end of the wire: command telegrams built of their fields, and replies read against what was asked.
#![tactic(auto)]

ghost use Rattle.std.specs.Prelude.{◌≡◌};
ghost use Rattle.master.specs.Master.{refusal_of, may_build, built_of, belongs_of, error_of, code_in, meaning_of, reading_of};

use wire::telegram::Telegram;
use wire::{check, telegram, word};

// Why a telegram is not built: its command is above 02h, or its node above 127.
#[derive(Clone, Copy)]
pub enum Refusal {
    Outside,
}

impl Refusal {
    pub const OUTSIDE: u32 = 10;

    // The document's number, by the constant, which no contract would hold if nothing used it.
    pub fn number(self) -> u32
        ensures { result ≡ refusal_of self }
    {
        match self {
            Refusal::Outside => Refusal::OUTSIDE,
        }
    }
}

// The ten bytes of a telegram, and all 0 where none is built. They are not in the answer's Ok: `Refuses.nothing` speaks of those of a refused one.
#[repr(C)]
#[derive(Clone, Copy)]
pub struct Built {
    pub answer: Result<(), Refusal>,
    pub ten: [u8; 10],
}

// What bytes say as the reply to a question: its value, its error code, or that they are no reply to what was asked. Three outcomes, so an enum of its own.
#[derive(Clone, Copy)]
pub enum Reading {
    Value(u32),
    Error(u16),
    Foreign,
}

fn may_build(question: Telegram) -> bool
    ensures { result ≡ may_build question }
{
    question.command <= 2 && question.node <= 127
}

// A command telegram of its fields.
#[tactic(auto, unfolding(crate::specs::Master::built_of))]
pub fn build(question: Telegram) -> Built
    ensures { result ≡ built_of question }
{
    if may_build(question) {
        Built {
            answer: Ok(()),
            ten: telegram::bytes(question),
        }
    } else {
        Built {
            answer: Err(Refusal::Outside),
            ten: [0; 10],
        }
    }
}

// Whether the fields of a reply are those of one to the question.
fn belongs(question: Telegram, reply: Telegram) -> bool
    ensures { result ≡ belongs_of question reply }
{
    question.command != 2
        && reply.command == question.command
        && reply.node == question.node
        && (reply.parameter == question.parameter || reply.parameter == 0xFD)
}

// Whether a reply that belongs to the question tells of an error: FDh does, save to a read of FDh itself.
fn is_error(question: Telegram, reply: Telegram) -> bool
    ensures { result ≡ error_of question reply }
{
    reply.parameter == 0xFD && (question.command != 0 || question.parameter != 0xFD)
}

// The error code of a reply: of its data only the low two bytes are looked at.
fn code(ten: [u8; 10]) -> u16
    ensures { result ≡ code_in ten }
{
    word::half(ten[7], ten[8])
}

// Ten bytes as the reply to the question.
#[tactic(auto, unfolding(crate::specs::Master::meaning_of))]
fn meaning(question: Telegram, ten: [u8; 10]) -> Reading
    ensures { result ≡ meaning_of question ten }
{
    let reply = telegram::fields(ten);
    if check::hit(ten) != 0 || !belongs(question, reply) {
        Reading::Foreign
    } else if is_error(question, reply) {
        Reading::Error(code(ten))
    } else {
        Reading::Value(reply.value)
    }
}

// Bytes, as many as there are, as the reply to the question.
#[tactic(auto, unfolding(crate::specs::Master::reading_of))]
pub fn read(question: Telegram, reply: &[u8]) -> Reading
    ensures { result ≡ reading_of question reply.now }
{
    match <[u8; 10]>::try_from(reply) {
        Ok(ten) => meaning(question, ten),
        Err(_) => Reading::Foreign,
    }
}
