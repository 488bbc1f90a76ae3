// A whole telegram, a second way: a head's answer to ten bytes at once, straight down document 01. Nothing of the crates judge, effects, reply or
// head is used.
#![tactic(auto)]

mod aims;
mod case;
mod does;
mod groups;
mod hears;
mod keeps;
mod reads;
mod says;
mod shows;
mod way;
mod writes;

ghost use Rattle.std.specs.Prelude.{◌≡◌};
ghost use Rattle.engine.specs.Way.{unasked, way};
ghost use Rattle.engine.specs.Answer.{refusal_of, told_of, answered_by, refused_with, answer_of};

use case::{BROADCAST, Case};
use state::parts::Head;
use state::wellformed;
use wire::telegram::Telegram;
use wire::{check, telegram};

// Why a telegram is not answered: the head handed in is one that cannot be.
#[derive(Clone, Copy)]
pub enum Refusal {
    Malformed = 20,
}

impl Refusal {
    // The document's number.
    pub fn number(self) -> u32
        ensures { result ≡ refusal_of self }
    {
        self as u32
    }
}

// What a telegram comes to: the head after it, and its reply, if there is one.
#[repr(C)]
#[derive(Clone, Copy)]
pub struct Told {
    pub head: Head,
    pub reply: Option<[u8; 10]>,
}

#[derive(Clone, Copy)]
pub enum Outcome {
    Silence,
    Reply,
    Refused(Refusal),
}

// The head after a telegram, whether it replies, and its reply. Bytes stand there of a silence too: `quiet` of the crate agreement has them 0.
#[repr(C)]
#[derive(Clone, Copy)]
pub struct Answered {
    pub head: Head,
    pub outcome: Outcome,
    pub reply: [u8; 10],
}

impl Told {
    fn into_answer(self) -> Answered
        ensures { result ≡ answered_by self }
    {
        match self.reply {
            Some(reply) => Answered {
                head: self.head,
                outcome: Outcome::Reply,
                reply,
            },
            None => Answered {
                head: self.head,
                outcome: Outcome::Silence,
                reply: [0; 10],
            },
        }
    }
}

// What the checks come to, for a telegram that asks this head.
fn asked(telegram: Telegram, before: Head, heard: Head, hit: u8) -> Told
    ensures { result ≡ way telegram before heard hit }
{
    let case = Case {
        telegram,
        before,
        heard,
    };
    case.way(hit)
}

// Whether nothing is asked of a head with this number in force: by a sound broadcast to a parameter that allows none, and by any telegram but a sound
// broadcast at another number, damaged or not.
#[tactic(auto, using(crate::proofs::Addressed::broadcast_is))]
fn is_unasked(telegram: Telegram, number: u32, hit: u8) -> bool
    ensures { result ≡ unasked telegram number hit }
{
    if hit == 0 && telegram.command == BROADCAST {
        !rows::access::broadcast(telegram.parameter)
    } else {
        telegram.node as u32 != number
    }
}

// Most telegrams ask nothing of this head, and are met with silence before their case is made.
#[tactic(auto, unfolding(crate::specs::Answer::told_of, crate::specs::Way::way))]
fn tell(before: Head, ten: [u8; 10], at: u32) -> Told
    ensures { result ≡ told_of before ten at }
{
    let hit = check::hit(ten);
    let telegram = telegram::fields(ten);
    let heard = hears::hearing(hit, at, before);
    if is_unasked(telegram, before.stored.number, hit) {
        says::silent(heard)
    } else {
        asked(telegram, before, heard, hit)
    }
}

fn refused(head: Head) -> Answered
    ensures { result ≡ refused_with head }
{
    Answered {
        head,
        outcome: Outcome::Refused(Refusal::Malformed),
        reply: [0; 10],
    }
}

// What a head answers to ten bytes at once, all of which have come when the last came.
#[tactic(auto, unfolding(crate::specs::Answer::answer_of))]
pub fn answer(h: Head, ten: [u8; 10], at: u32) -> Answered
    ensures { result ≡ answer_of h ten at }
{
    if wellformed::wellformed(h) {
        tell(h, ten, at).into_answer()
    } else {
        refused(h)
    }
}
