// Numbers with a sign: two's complement, size and distance, rounding, the differential value. Every function is defined for every input.
#![tactic(auto)]

ghost use Rattle.std.specs.Prelude.{◌≡◌, ◌≤◌, nat_abs, ◌-ℤ◌};
ghost use Rattle.signed.specs.Number.{minus, number_of, word_of, distance_of};
ghost use Rattle.signed.specs.Rounding.{divisor_of, nearest_of, rounded_of};
ghost use Rattle.signed.specs.Difference.{held_of, differential_of};
ghost use Rattle.signed.specs.Position.{absolute_of};

// The number that a word of 32 bits stands for.
#[tactic(auto, unfolding(crate::specs::Number::number_of))]
pub fn number(w: u32) -> i64
    ensures { result ≡ number_of w }
{
    w.cast_signed() as i64
}

// The word of 32 bits that stands for a number; of a number of more bits, its lowest 32.
#[tactic(auto, unfolding(crate::specs::Number::word_of))]
pub fn word(v: i64) -> u32
    ensures { result ≡ word_of v }
{
    (v.cast_unsigned() % 4294967296) as u32
}

// A number without its sign.
pub fn size(v: i64) -> u64
    ensures { result ≡ nat_abs v }
{
    v.unsigned_abs()
}

// How far two numbers are apart; nothing wraps where their signs differ.
#[tactic(auto, unfolding(crate::specs::Number::distance_of))]
pub fn distance(a: i64, b: i64) -> u64
    ensures { result ≡ distance_of a b }
{
    a.abs_diff(b)
}

// A size with a minus sign.
fn minus(n: u64) -> i64
    requires { n ≤ 9223372036854775808 }
    ensures { result ≡ minus n }
{
    if n == 0 { 0 } else { -1 - (n - 1) as i64 }
}

// What a display divisor divides by.
#[tactic(auto, unfolding(crate::specs::Rounding::divisor_of))]
pub fn divisor(k: u32) -> u64
    ensures { result ≡ divisor_of k }
{
    match k {
        0 => 1,
        1 => 10,
        2 => 100,
        _ => 1000,
    }
}

// A size by 10 to the power k, to the nearest, halves up.
#[tactic(auto, using(crate::proofs::Rounds::divisor_some))]
fn nearest(n: u64, k: u32) -> u64
    requires { n ≤ 9223372036854775808 }
    ensures { result ≡ nearest_of n (divisor_of k) }
{
    let d = divisor(k);
    (n + d / 2) / d
}

// A number by 10 to the power k, to the nearest, halves away from zero.
#[tactic(auto, unfolding(crate::specs::Rounding::rounded_of))]
pub fn rounded(p: i64, k: u32) -> i64
    ensures { result ≡ rounded_of p k }
{
    let n = nearest(size(p), k);
    if p < 0 { minus(n) } else { n as i64 }
}

// a - b, held to what a head can show.
#[tactic(auto, unfolding(crate::specs::Difference::held_of))]
pub fn difference(a: i64, b: i64) -> i64
    ensures { result ≡ held_of (a -ℤ b) }
{
    a.saturating_sub(b).clamp(-5242880, 5242880)
}

// The differential value of the actual value a and the set point s.
#[tactic(auto, unfolding(crate::specs::Difference::differential_of))]
pub fn differential(a: i64, s: i64, reversed: bool) -> i64
    ensures { result ≡ differential_of a s reversed }
{
    if reversed {
        difference(s, a)
    } else {
        difference(a, s)
    }
}

// The position: what was measured since the zero, with the adopted calibration value and the offset, both words of two's complement.
#[tactic(auto, unfolding(crate::specs::Position::absolute_of))]
pub fn absolute(m: i32, zero: i32, adopted: u32, offset: u32) -> i64
    ensures { result ≡ absolute_of m zero adopted offset }
{
    m as i64 - zero as i64 + number(adopted) + number(offset)
}
