// Lines of a text.
ghost use Rattle.std.specs.Prelude.{◌≡◌, length, drop};
ghost use Rattle.text.specs.Lines.{bare_of, front_of, taken_of, filled_of};

// What was taken of a piece of text: how much of the line is kept then, where the piece goes on, and whether the line has ended: `at` is told of a
// line that has not ended too, so that it is no `Option` (`taken_of`).
#[derive(Clone, Copy)]
pub struct Taken {
    pub kept: usize,
    pub at: usize,
    pub ended: bool,
}

// How long the line is without one carriage return at its end.
#[tactic(auto, unfolding(crate::specs::Lines::bare_of))]
pub fn bare_length(line: &[u8]) -> usize
    ensures { result ≡ length (bare_of line.now) }
{
    match line {
        [bare @ .., b'\r'] => bare.len(),
        _ => line.len(),
    }
}

// The bytes of a piece from a place on, up to and with the next newline, taken into the line of which some is kept. What has no room is dropped.
pub fn take_in(line: &mut [u8], kept: usize, piece: &[u8], from: usize) -> Taken
    ensures value { result ≡ taken_of (length line.old) kept piece.now from }
    ensures line_after { line.new ≡ filled_of line.old kept (front_of (drop from piece.now)) }
{
    let rest = piece.get(from..).unwrap_or(&[]);
    let mut k = kept;
    for (i, b) in rest.iter().enumerate() {
        if *b == b'\n' {
            return Taken {
                kept: k,
                at: from + i + 1,
                ended: true,
            };
        }
        if k < line.len() {
            line[k] = *b;
            k += 1;
        }
    }
    Taken {
        kept: k,
        at: from + rest.len(),
        ended: false,
    }
}
