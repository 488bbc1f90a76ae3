// Bytes as upper-case hex digits, as the programs print them.
#![tactic(auto)]

ghost use Rattle.std.specs.Prelude.{◌≡◌, ◌<◌};
ghost use Rattle.hex_digits.specs.Digits.{digit_of, spelled_on};

// A number below 16 as a digit.
fn digit(n: u8) -> u8
    requires { n < 16 }
    ensures { result ≡ digit_of n }
{
    if n < 10 { b'0' + n } else { b'A' + (n - 10) }
}

// The digits of the bytes at the start of the text. A text that is too short for them stays as it is.
#[tactic(auto, unfolding(crate::specs::Digits::spelled_on))]
pub fn spell(bytes: &[u8], text: &mut [u8])
    ensures { text.new ≡ spelled_on text.old bytes.now }
{
    if text.len() / 2 < bytes.len() {
        return;
    }
    for (i, b) in bytes.iter().enumerate() {
        text[2 * i] = digit(*b / 16);
        text[2 * i + 1] = digit(*b % 16);
    }
}
