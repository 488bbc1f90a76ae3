// A command on the desk: what it calls, and what is written for it.
ghost use Rattle.std.specs.Prelude.{◌≡◌, min, length};
ghost use Rattle.script.specs.Meaning.{byte_at_of};
ghost use Rattle.simulate.specs.Carried.{most_carried, brought_of};
ghost use Rattle.simulate.specs.Feeding.{nth_of};
ghost use Rattle.simulate.specs.Desk.{desk_of, hit_line_of, feed_of, asked_of, called_of, pressed_of, racked_of, spaced_of, obeyed_of};

use crate::answer::Answer;
use crate::feeding::Purpose;
use crate::{answer, ask, carried, feeding, racks, sheets};
use head::refusal::Refusal;
use line::calls;
use line::calls::{Called, Line};
use script::Command;
use std::io;
use wire::telegram::Telegram;

// The most space that a script can ask for.
const MOST_SPACE: usize = 1024;

// The line, and how much space its byte, key, save and rack calls lend.
#[derive(Clone, Copy)]
pub(crate) struct Desk {
    pub line: Line,
    pub space: usize,
}

fn write_answer(rt: &impl Print, a: Result<(), Refusal>) -> io::Result<()> {
    match a {
        Ok(()) => rt.println("ok"),
        Err(why) => answer::refuse(rt, why.number()),
    }
}

// The answer that shows an exclusive-or.
#[tactic(auto, unfolding(crate::specs::Desk::hit_line_of, hex_digits::specs::Digits::spelled_on))]
fn hit_line(x: u8) -> [u8; 7]
    ensures { result ≡ hit_line_of x }
{
    let mut text = [b'x', b'o', b'r', b' ', b' ', b' ', b'\n'];
    hex_digits::spell(&[x], &mut text[4..6]);
    text
}

fn write_hit(rt: &impl Print, hit: Result<u8, Refusal>) -> io::Result<()> {
    match hit {
        Ok(x) => rt.write_all(&hit_line(x)),
        Err(why) => answer::refuse(rt, why.number()),
    }
}

// What a key state drew: a head sends a reply only where it adopts the number that it was offered.
fn write_pressed(
    rt: &impl Print,
    heard: Result<usize, Refusal>,
    space: &[u8; MOST_SPACE],
) -> io::Result<()> {
    match heard {
        Ok(0) => rt.println("ok"),
        Ok(_) => {
            rt.print("ok")?;
            rt.write_all(&feeding::word(space))?;
            rt.println("")
        }
        Err(why) => answer::refuse(rt, why.number()),
    }
}

fn write_saved(rt: &impl Print, saved: Result<[u8; 555], Refusal>) -> io::Result<()> {
    match saved {
        Ok(text) => rt.write_all(&text),
        Err(why) => answer::refuse(rt, why.number()),
    }
}

impl Desk {
    // An empty line, and space for one reply.
    #[tactic(auto, unfolding(crate::specs::Desk::desk_of))]
    pub(crate) fn bare() -> Self
        ensures { result ≡ desk_of }
    {
        Desk {
            line: calls::empty(),
            space: 10,
        }
    }

    // Bytes, fed one after another and answered in one line of output.
    fn feed(&mut self, rt: &impl Print, purpose: Purpose, bytes: &[u8], time: u32) -> io::Result<()>
        ensures { self.new ≡ feed_of self.old (nth_of bytes.now) time (length bytes.now) }
    {
        let mut space = [0u8; MOST_SPACE];
        let size = self.space.min(MOST_SPACE);
        let mut answer = Answer::new();
        self.line = feeding::feed_all(
            rt,
            self.line,
            purpose,
            bytes,
            time,
            &mut space[..size],
            &mut answer,
        );
        answer.put(rt, b"\n");
        answer.flush(rt)
    }

    // A send of so many bytes, whose digits start at the place `from`. All are read before the first is fed, so that the line hears them by stretches;
    // a line of a script has no room for more than 2,048.
    fn send(
        &mut self,
        rt: &impl Print,
        text: &[u8],
        time: u32,
        from: usize,
        count: usize,
    ) -> io::Result<()>
        ensures { self.new ≡ feed_of self.old (byte_at_of text.now from) time (min count most_carried) }
    {
        let mut bytes = [0u8; carried::MOST];
        let n = carried::gather(&mut bytes, text, from, count);
        self.feed(rt, Purpose::Send, &bytes[..n], time)
    }

    // A question: the ten bytes of its telegram. Where the master builds none, none is fed.
    fn ask(&mut self, rt: &impl Print, time: u32, question: Telegram) -> io::Result<()>
        ensures { self.new ≡ asked_of self.old time question }
    {
        let built = master::build(question);
        match built.answer {
            Ok(()) => self.feed(rt, Purpose::Ask(question), &built.ten, time),
            Err(why) => answer::refuse(rt, why.number()),
        }
    }

    fn done(&mut self, rt: &impl Print, c: Called) -> io::Result<()>
        ensures { self.new ≡ called_of self.old c }
    {
        self.line = c.line;
        write_answer(rt, c.answer)
    }

    // A key state lends as much as a byte does. The reply, if there is one, is at the start of what was lent.
    fn press(&mut self, rt: &impl Print, head: usize, state: u32) -> io::Result<()>
        ensures { self.new ≡ pressed_of self.old head state }
    {
        let mut space = [0u8; MOST_SPACE];
        let lent = self.space.min(MOST_SPACE);
        let f = calls::keys(self.line, head, state, &mut space[..lent]);
        self.line = f.line;
        write_pressed(rt, f.heard, &space)
    }

    // A save lends as much as a byte does, and leaves the desk as it is.
    fn save(&self, rt: &impl Print, head: usize) -> io::Result<()> {
        let mut space = [0u8; MOST_SPACE];
        let lent = self.space.min(MOST_SPACE);
        write_saved(rt, sheets::save(self.line, head, &mut space[..lent]))
    }

    // A rack of these bytes lends as much as a byte does.
    #[tactic(auto, unfolding(crate::specs::Desk::racked_of))]
    fn rack(&mut self, rt: &impl Print, time: u32, place: usize, bytes: &[u8]) -> io::Result<()>
        ensures { self.new ≡ racked_of self.old time place bytes.now }
    {
        let mut space = [0u8; MOST_SPACE];
        let lent = self.space.min(MOST_SPACE);
        let mut words = [b' '; racks::WORDS];
        let r = racks::call(
            self.line,
            bytes,
            time,
            &mut space[..lent],
            place,
            &mut words,
        );
        self.line = r.line;
        racks::write(rt, r.answer, &words)
    }

    // A rack of so many bytes, whose digits start at the place `from`. A line of a script has no room for more than 2,048, which are no rack.
    fn rack_word(
        &mut self,
        rt: &impl Print,
        text: &[u8],
        time: u32,
        place: usize,
        from: usize,
        count: usize,
    ) -> io::Result<()>
        ensures { self.new ≡ racked_of self.old time place (brought_of text.now from count) }
    {
        let mut bytes = [0u8; carried::MOST];
        let n = carried::gather(&mut bytes, text, from, count);
        self.rack(rt, time, place, &bytes[..n])
    }

    fn lend(&mut self, rt: &impl Print, size: usize) -> io::Result<()>
        ensures { self.new ≡ spaced_of self.old size }
    {
        self.space = size;
        rt.println("ok")
    }

    // What a line of the script says, done and answered.
    #[tactic(auto, unfolding(crate::specs::Desk::obeyed_of))]
    pub(crate) fn obey(&mut self, rt: &impl Print, text: &[u8], number: u64) -> io::Result<()>
        ensures { self.new ≡ obeyed_of self.old text.now }
    {
        match script::meaning(text) {
            Command::Blank => Ok(()),
            Command::Malformed => println!(rt; "error at line {number}"),
            Command::Grow { node, serial } => self.done(rt, calls::grow(self.line, node, serial)),
            Command::Send { time, from, count } => self.send(rt, text, time, from, count),
            Command::Tick(time) => self.done(rt, calls::tick(self.line, time)),
            Command::Measure { head, value } => self.done(
                rt,
                calls::measure(self.line, head as usize, value),
            ),
            Command::Keys { head, state } => self.press(rt, head as usize, state),
            Command::Power(head) => self.done(rt, calls::power(self.line, head as usize)),
            Command::Space(size) => self.lend(rt, size),
            Command::Xor(head) => write_hit(rt, calls::last_hit(self.line, head as usize)),
            Command::Ask {
                time,
                command,
                node,
                parameter,
                word,
                data,
            } => self.ask(
                rt,
                time,
                ask::question(command, node, parameter, word, data),
            ),
            Command::Save(head) => self.save(rt, head as usize),
            Command::Load { head, from, count } => self.done(
                rt,
                sheets::load(self.line, head as usize, text, from, count),
            ),
            Command::Rack {
                time,
                place,
                from,
                count,
            } => self.rack_word(rt, text, time, place as usize, from, count),
            Command::Bring(head) => self.done(rt, calls::bring(self.line, head as usize)),
        }
    }
}
