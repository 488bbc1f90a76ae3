// A telegram: its fields out of ten bytes, and ten bytes out of its fields.
ghost use Rattle.std.specs.Prelude.{◌≡◌};
ghost use Rattle.wire.specs.Telegram.{fields_of, bytes_of};

use crate::word;

// `word` is the control word of a command and the status word of a reply; `value` is the data.
#[repr(C)]
#[derive(Clone, Copy)]
pub struct Telegram {
    pub command: u8,
    pub node: u8,
    pub parameter: u8,
    pub word: u16,
    pub value: u32,
}

// The fields of ten bytes.
#[tactic(auto, unfolding(crate::specs::Telegram::fields_of))]
pub fn fields(b: [u8; 10]) -> Telegram
    ensures { result ≡ fields_of b }
{
    let [command, node, parameter, c3, c4, d5, d6, d7, d8, _] = b;
    Telegram {
        command,
        node,
        parameter,
        word: word::half(c3, c4),
        value: word::whole(d5, d6, d7, d8),
    }
}

// Ten bytes of these fields, the check sum last.
#[tactic(auto, unfolding(crate::specs::Telegram::bytes_of))]
pub fn bytes(t: Telegram) -> [u8; 10]
    ensures { result ≡ bytes_of t }
{
    let [c3, c4] = t.word.to_be_bytes();
    let [d5, d6, d7, d8] = t.value.to_be_bytes();
    let x = t.command ^ t.node ^ t.parameter ^ c3 ^ c4 ^ d5 ^ d6 ^ d7 ^ d8;
    [t.command, t.node, t.parameter, c3, c4, d5, d6, d7, d8, x]
}
