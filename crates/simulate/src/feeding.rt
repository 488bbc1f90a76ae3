// Bytes fed to a line one after another, those of a send and those of an ask, and the words for what they draw.
ghost use Rattle.std.specs.Prelude.{◌≡◌, length};
ghost use Rattle.simulate.specs.Feeding.{word_of, nth_of, fed_of, after_of};

use crate::answer::Answer;
use crate::ask;
use head::refusal::Refusal;
use line::calls;
use line::calls::Line;
use wire::telegram::Telegram;

// What bytes are fed for: a send, or an ask of this question, whose telegram they are.
#[derive(Clone, Copy)]
pub(crate) enum Purpose {
    Send,
    Ask(Telegram),
}

// The reply at the start of the space, after a blank.
#[tactic(auto, unfolding(crate::specs::Feeding::word_of))]
pub(crate) fn word(space: &[u8]) -> [u8; 21]
    ensures { result ≡ word_of space.now }
{
    let mut text = [b' '; 21];
    if space.len() < 10 {
        return text;
    }
    hex_digits::spell(&space[..10], &mut text[1..21]);
    text
}

// What the last byte of a stretch of a send drew, as it came.
fn put_replies(rt: &impl Print, answer: &mut Answer, n: usize, space: &[u8]) {
    match n {
        0 => {}
        1 => answer.put(rt, &word(space)),
        _ => answer.put_number(rt, " collision ", n as u64),
    }
}

// What a stretch is answered with. The first says whether the bytes are refused or fed; a refusal is that of all of them.
fn put_heard(
    rt: &impl Print,
    answer: &mut Answer,
    is_first: bool,
    purpose: Purpose,
    heard: Result<usize, Refusal>,
    space: &[u8],
) {
    match heard {
        Ok(n) => match purpose {
            Purpose::Send => {
                if is_first {
                    answer.put(rt, b"sent");
                }
                put_replies(rt, answer, n, space);
            }
            Purpose::Ask(question) => {
                if is_first {
                    answer.put(rt, b"asked");
                }
                ask::put_drawn(rt, answer, ask::told(question, heard, space));
            }
        },
        Err(why) => {
            if is_first {
                answer.put_number(rt, "refused ", why.number() as u64);
            }
        }
    }
}

// Where bytes go on after a stretch: at the next one. A refusal is that of all of them, so then past the last.
fn after(heard: Result<usize, Refusal>, next: usize, end: usize) -> usize
    ensures { result ≡ after_of heard next end }
{
    match heard {
        Ok(_) => next,
        Err(_) => end,
    }
}

// All these bytes, at one time and with the same space; the answer to them is put together. They are fed by stretches, since a call copies the whole
// line, and only a byte that draws a reply has something to be answered before the next.
pub(crate) fn feed_all(
    rt: &impl Print,
    line: Line,
    purpose: Purpose,
    bytes: &[u8],
    time: u32,
    space: &mut [u8],
    answer: &mut Answer,
) -> Line
    ensures { result ≡ fed_of (nth_of bytes.now) time (length space.old) line (length bytes.now) }
{
    let mut l = line;
    let mut i: usize = 0;
    // A stretch says where the bytes go on, so that no `for` counts the places.
    while i < bytes.len() {
        let s = calls::until_reply(l, bytes, i, time, space);
        l = s.line;
        put_heard(rt, answer, i == 0, purpose, s.heard, space);
        i = after(s.heard, s.next, bytes.len());
    }
    l
}
