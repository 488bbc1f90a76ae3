// What a line of a simulator script means, and a line of a list of telegrams.
#![tactic(auto)]

mod arguments;
pub mod telegrams;
mod words;

ghost use Rattle.std.specs.Prelude.{◌≡◌, ◌≤◌, length};
ghost use Rattle.text.specs.Text.{text};
ghost use Rattle.script.specs.Places.{words_at};
ghost use Rattle.script.specs.Meaning.{name_of, row_of, order_of, spoken_of, meaning_of, byte_at_of};

use arguments::{Arguments, Last, Takes};
use text::numbers;
use words::{Kind, Rest};

// The largest number of 32 bits.
const WHOLE: u32 = 4_294_967_295;

// The largest number of 8 bits, and of 16.
const BYTE: u32 = 255;

const HALF: u32 = 65_535;

// The most space that can be lent.
const LARGEST_SPACE: u32 = 1024;

// What a line means: nothing to do, none of the commands, or a command. The bytes of a `Send`, of a `Load` and of a `Rack` stay in the line: their
// digits start at the place `from`, and `byte_at` reads them.
#[derive(Clone, Copy)]
pub enum Command {
    Blank,
    Malformed,
    Grow {
        node: u32,
        serial: u32,
    },
    Send {
        time: u32,
        from: usize,
        count: usize,
    },
    Tick(u32),
    Measure {
        head: u32,
        value: i32,
    },
    Keys {
        head: u32,
        state: u32,
    },
    Power(u32),
    Space(usize),
    Xor(u32),
    Ask {
        time: u32,
        command: u32,
        node: u32,
        parameter: u32,
        word: u32,
        data: u32,
    },
    Save(u32),
    Load {
        head: u32,
        from: usize,
        count: usize,
    },
    Rack {
        time: u32,
        place: u32,
        from: usize,
        count: usize,
    },
    Bring(u32),
}

// The command words.
#[derive(Clone, Copy)]
enum Name {
    Head,
    Send,
    Tick,
    Measure,
    Keys,
    Power,
    Space,
    Xor,
    Ask,
    Save,
    Load,
    Rack,
    Bring,
}

// What a line without its newline means. One of more than 4,097 bytes is malformed whatever it holds, so that its first 4,098 bytes do for it.
#[tactic(auto, unfolding(crate::specs::Meaning::meaning_of))]
pub fn meaning(line: &[u8]) -> Command
    ensures { result ≡ meaning_of line.now }
{
    spoken(words::bare(line))
}

// Byte i of the hex word that starts at the place `from`; 0 where there are no two hex digits, as `byte_at_of` in the clause has it.
#[tactic(auto, unfolding(crate::specs::Meaning::byte_at_of))]
pub fn byte_at(line: &[u8], from: usize, i: usize) -> u8
    ensures { result ≡ byte_at_of line.now from i }
{
    if line.len() <= from {
        return 0;
    }
    let left = line.len() - from;
    if left / 2 <= i {
        return 0;
    }
    let at = from + 2 * i;
    numbers::pair(line[at], line[at + 1])
}

// What a line without newline and carriage return means.
#[tactic(auto, unfolding(crate::specs::Meaning::spoken_of, crate::specs::Meaning::command_of))]
fn spoken(line: &[u8]) -> Command
    ensures { result ≡ spoken_of line.now }
{
    match words::kind_of(line) {
        Kind::Long => Command::Malformed,
        Kind::Passed => Command::Blank,
        Kind::Spoken(_) => {
            let rest = Rest { line, from: 0 };
            match named(rest.first()) {
                Some(name) => order(name, rest.after()),
                None => Command::Malformed,
            }
        }
    }
}

// The command word that the word is. A `match` on the word leaves 49 goals for the words that are none, one for each way past the arms.
fn named(word: &[u8]) -> Option<Name>
    ensures { result ≡ name_of word.now }
{
    Name::ALL.iter().copied().find(|name| word == name.word())
}

// The command of that name with the words that are left.
fn order(name: Name, rest: Rest) -> Command
    ensures { result ≡ order_of name (words_at rest.entry.line.now rest.entry.from) }
{
    match arguments::read(rest, name.takes()) {
        Some(a) => name.made(a),
        None => Command::Malformed,
    }
}

impl Name {
    // Each of them once.
    const ALL: [Name; 13] = [
        Name::Head,
        Name::Send,
        Name::Tick,
        Name::Measure,
        Name::Keys,
        Name::Power,
        Name::Space,
        Name::Xor,
        Name::Ask,
        Name::Save,
        Name::Load,
        Name::Rack,
        Name::Bring,
    ];

    // How it is spelled.
    fn word(self) -> &'static [u8]
        ensures { result.now ≡ text (row_of self).word }
    {
        match self {
            Name::Head => b"head",
            Name::Send => b"send",
            Name::Tick => b"tick",
            Name::Measure => b"measure",
            Name::Keys => b"keys",
            Name::Power => b"power",
            Name::Space => b"space",
            Name::Xor => b"xor",
            Name::Ask => b"ask",
            Name::Save => b"save",
            Name::Load => b"load",
            Name::Rack => b"rack",
            Name::Bring => b"bring",
        }
    }

    // What the command takes.
    fn takes(self) -> Takes
        ensures limits { result.0.now ≡ (row_of self).limits }
        ensures last { result.1 ≡ (row_of self).last }
        ensures six { length result.0.now ≤ 6 }
    {
        match self {
            Name::Head => Takes(&[WHOLE, WHOLE], Last::Nothing),
            Name::Send => Takes(&[WHOLE], Last::Bytes),
            Name::Tick => Takes(&[WHOLE], Last::Nothing),
            Name::Measure => Takes(&[WHOLE], Last::Signed),
            Name::Keys => Takes(&[WHOLE, WHOLE], Last::Nothing),
            Name::Power => Takes(&[WHOLE], Last::Nothing),
            Name::Space => Takes(&[LARGEST_SPACE], Last::Nothing),
            Name::Xor => Takes(&[WHOLE], Last::Nothing),
            Name::Ask => Takes(&[WHOLE, BYTE, BYTE, BYTE, HALF, WHOLE], Last::Nothing),
            Name::Save => Takes(&[WHOLE], Last::Nothing),
            Name::Load => Takes(&[WHOLE], Last::PerhapsBytes),
            Name::Rack => Takes(&[WHOLE, WHOLE], Last::PerhapsBytes),
            Name::Bring => Takes(&[WHOLE], Last::Nothing),
        }
    }

    // The command that is made of what it takes.
    fn made(self, a: Arguments) -> Command
        ensures { result ≡ (row_of self).made a }
    {
        let Arguments {
            numbers,
            value,
            from,
            count,
        } = a;
        let [first, second, third, fourth, fifth, sixth] = numbers;
        match self {
            Name::Head => Command::Grow {
                node: first,
                serial: second,
            },
            Name::Send => Command::Send {
                time: first,
                from,
                count,
            },
            Name::Tick => Command::Tick(first),
            Name::Measure => Command::Measure { head: first, value },
            Name::Keys => Command::Keys {
                head: first,
                state: second,
            },
            Name::Power => Command::Power(first),
            Name::Space => Command::Space(first as usize),
            Name::Xor => Command::Xor(first),
            Name::Ask => Command::Ask {
                time: first,
                command: second,
                node: third,
                parameter: fourth,
                word: fifth,
                data: sixth,
            },
            Name::Save => Command::Save(first),
            Name::Load => Command::Load {
                head: first,
                from,
                count,
            },
            Name::Rack => Command::Rack {
                time: first,
                place: second,
                from,
                count,
            },
            Name::Bring => Command::Bring(first),
        }
    }
}
