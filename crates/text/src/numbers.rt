// A word's characters read as a number or as bytes.
ghost use Rattle.std.specs.Prelude.{◌≡◌, ◌<◌, IfSome};
ghost use Rattle.text.specs.Numbers.{number_of, signed_of, hex_of, pair_of, count_of};

// The word as decimal digits of a number up to the limit.
pub fn decimal(word: &[u8], limit: u32) -> Option<u32>
    ensures { result ≡ number_of limit word.now }
{
    if word.is_empty() {
        return None;
    }
    let most = u64::from(limit);
    let mut v: u64 = 0;
    for b in word {
        if !b.is_ascii_digit() {
            return None;
        }
        v = 10 * v + u64::from(*b - b'0');
        // What comes after can only make it larger, or no number.
        if most < v {
            return None;
        }
    }
    Some(v as u32)
}

// The word as decimal digits, with or without one minus sign, of a number of 32 bits with a sign.
pub fn signed(word: &[u8]) -> Option<i32>
    ensures { result ≡ signed_of word.now }
{
    match word.strip_prefix(b"-") {
        Some(digits) => {
            let n = decimal(digits, 2147483648)?;
            Some(-i64::from(n) as i32)
        }
        None => {
            let n = decimal(word, 2147483647)?;
            Some(n as i32)
        }
    }
}

// The value of a hex digit.
#[tactic(auto, unfolding(crate::specs::Numbers::hex_of))]
fn hex(b: u8) -> Option<u8>
    ensures value { result ≡ hex_of b }
    ensures below { IfSome result (λ d. d < 16) }
{
    match b {
        b'0'..=b'9' => Some(b - b'0'),
        b'A'..=b'F' => Some(10 + (b - b'A')),
        b'a'..=b'f' => Some(10 + (b - b'a')),
        _ => None,
    }
}

// The byte of two hex digits, and 0 where one is none: callers have `pair_of`, which says 0, from the clause.
#[tactic(auto, unfolding(crate::specs::Numbers::pair_of))]
pub fn pair(high: u8, low: u8) -> u8
    ensures { result ≡ pair_of high low }
{
    match (hex(high), hex(low)) {
        (Some(a), Some(b)) => 16 * a + b,
        _ => 0,
    }
}

// How many bytes the word stands for, and 0 where it is not two hex digits for each: callers have `count_of`, which says 0, from the clause.
pub fn hex_bytes(word: &[u8]) -> usize
    ensures { result ≡ count_of word.now }
{
    if word.len() % 2 == 0 && word.iter().all(|b| hex(*b).is_some()) {
        word.len() / 2
    } else {
        0
    }
}
