// What an ask asks, and what its bytes draw as the master reads it.
ghost use Rattle.std.specs.Prelude.{◌≡◌, take};
ghost use Rattle.simulate.specs.Ask.{question_of, told_of, code_digits_of};

use crate::answer::Answer;
use head::refusal::Refusal;
use master::Reading;
use wire::telegram::Telegram;
use wire::word;

// What a byte of an ask drew: nothing, one reply as the master reads it, or so many at once.
#[derive(Clone, Copy)]
pub(crate) enum Drawn {
    Nothing,
    Reply(Reading),
    Collision(usize),
}

// The telegram of these fields. Of a number that is too large for its field the low bytes count; a script has none such.
pub(crate) fn question(
    command: u32,
    node: u32,
    parameter: u32,
    control: u32,
    value: u32,
) -> Telegram
    ensures { result ≡ question_of command node parameter control value }
{
    Telegram {
        command: word::fourth(command),
        node: word::fourth(node),
        parameter: word::fourth(parameter),
        word: word::half(word::third(control), word::fourth(control)),
        value,
    }
}

// The reply at the start of the space, or as much as there is of it.
fn reply(space: &[u8]) -> &[u8]
    ensures { result.now ≡ take 10 space.now }
{
    &space[..space.len().min(10)]
}

// What a byte drew. One that is refused draws nothing.
#[tactic(auto, unfolding(crate::specs::Ask::told_of))]
pub(crate) fn told(question: Telegram, heard: Result<usize, Refusal>, space: &[u8]) -> Drawn
    ensures { result ≡ told_of question heard space.now }
{
    match heard {
        Ok(0) => Drawn::Nothing,
        Ok(1) => Drawn::Reply(master::read(question, reply(space))),
        Ok(n) => Drawn::Collision(n),
        Err(_) => Drawn::Nothing,
    }
}

// The four digits of an error code.
#[tactic(auto, unfolding(crate::specs::Ask::code_digits_of, hex_digits::specs::Digits::spelled_on))]
fn code_digits(code: u16) -> [u8; 4]
    ensures { result ≡ code_digits_of code }
{
    let mut text = [b' '; 4];
    hex_digits::spell(&[word::high(code), word::low(code)], &mut text);
    text
}

fn put_reading(rt: &impl Print, answer: &mut Answer, reading: Reading) {
    match reading {
        Reading::Value(n) => answer.put_number(rt, " value ", n as u64),
        Reading::Error(code) => {
            answer.put(rt, b" error ");
            answer.put(rt, &code_digits(code));
        }
        Reading::Foreign => answer.put(rt, b" foreign"),
    }
}

// The words for what a byte drew.
pub(crate) fn put_drawn(rt: &impl Print, answer: &mut Answer, drawn: Drawn) {
    match drawn {
        Drawn::Nothing => {}
        Drawn::Reply(reading) => put_reading(rt, answer, reading),
        Drawn::Collision(n) => answer.put_number(rt, " collision ", n as u64),
    }
}
