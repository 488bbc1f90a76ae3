// A command's arguments, read once for all commands: numbers, each up to its limit, and then perhaps one word more.
ghost use Rattle.std.specs.Prelude.{◌≡◌, ◌≤◌, length, pos};
ghost use Rattle.script.specs.Places.{words_at};
ghost use Rattle.script.specs.Arguments.{given_of, last_of, arguments_of};

use crate::words::Rest;
use text::numbers;

// What comes after the numbers: no word, a number of 32 bits with a sign, bytes, or bytes that may be left out.
#[derive(Clone, Copy)]
pub(crate) enum Last {
    Nothing,
    Signed,
    Bytes,
    PerhapsBytes,
}

// What a command takes: a number up to each of the limits, at most six, and what comes after them.
#[derive(Clone, Copy)]
pub(crate) struct Takes(pub &'static [u32], pub Last);

// What the words say, and 0 for what the command does not take. The bytes stay in the line: their digits start at the place `from`.
#[derive(Clone, Copy)]
pub(crate) struct Arguments {
    pub numbers: [u32; 6],
    pub value: i32,
    pub from: usize,
    pub count: usize,
}

// Numbers, and nothing after them.
fn numbers_alone(numbers: [u32; 6]) -> Arguments
    ensures { result ≡ given_of numbers (pos 0) 0 0 }
{
    Arguments {
        numbers,
        value: 0,
        from: 0,
        count: 0,
    }
}

fn nothing(rest: Rest, numbers: [u32; 6]) -> Option<Arguments>
    ensures { result ≡ last_of Last.Nothing numbers (words_at rest.entry.line.now rest.entry.from) }
{
    if rest.start() < rest.line.len() {
        return None;
    }
    Some(numbers_alone(numbers))
}

fn signed(rest: Rest, numbers: [u32; 6]) -> Option<Arguments>
    ensures { result ≡ last_of Last.Signed numbers (words_at rest.entry.line.now rest.entry.from) }
{
    let value = numbers::signed(rest.sole())?;
    Some(Arguments {
        value,
        ..numbers_alone(numbers)
    })
}

fn bytes(rest: Rest, numbers: [u32; 6]) -> Option<Arguments>
    ensures { result ≡ last_of Last.Bytes numbers (words_at rest.entry.line.now rest.entry.from) }
{
    let count = numbers::hex_bytes(rest.sole());
    if count == 0 {
        return None;
    }
    Some(Arguments {
        from: rest.start(),
        count,
        ..numbers_alone(numbers)
    })
}

fn perhaps_bytes(rest: Rest, numbers: [u32; 6]) -> Option<Arguments>
    ensures { result ≡ last_of Last.PerhapsBytes numbers (words_at rest.entry.line.now rest.entry.from) }
{
    if rest.start() < rest.line.len() {
        return bytes(rest, numbers);
    }
    Some(numbers_alone(numbers))
}

// What comes after the numbers.
fn ended(rest: Rest, numbers: [u32; 6], last: Last) -> Option<Arguments>
    ensures { result ≡ last_of last numbers (words_at rest.entry.line.now rest.entry.from) }
{
    match last {
        Last::Nothing => nothing(rest, numbers),
        Last::Signed => signed(rest, numbers),
        Last::Bytes => bytes(rest, numbers),
        Last::PerhapsBytes => perhaps_bytes(rest, numbers),
    }
}

// The words that are left, where they fit: the numbers, and what comes after them.
pub(crate) fn read(mut rest: Rest, takes: Takes) -> Option<Arguments>
    requires { length takes.0.now ≤ 6 }
    ensures { result ≡ arguments_of takes.0.now takes.1 (words_at rest.entry.line.now rest.entry.from) }
{
    let Takes(limits, last) = takes;
    let mut numbers = [0; 6];
    for (i, limit) in limits.iter().enumerate() {
        numbers[i] = numbers::decimal(rest.first(), *limit)?;
        rest = rest.after();
    }
    ended(rest, numbers, last)
}
