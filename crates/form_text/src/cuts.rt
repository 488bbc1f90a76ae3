// What is cut from a line, and what parts its fields.
ghost use Rattle.std.specs.Prelude.{◌≡◌};
ghost use Rattle.form_text.specs.Cuts.{unmarked_of, trimmed_start_of, trimmed_end_of, trimmed_of, is_separator};

// The line without a byte order mark at its start, if it is the form's top line.
#[tactic(auto, unfolding(crate::specs::Cuts::unmarked_of))]
pub(crate) fn unmarked(line: &[u8], top: bool) -> &[u8]
    ensures { result.now ≡ unmarked_of line.now top }
{
    match line {
        [0xef, 0xbb, 0xbf, unmarked @ ..] if top => unmarked,
        _ => line,
    }
}

// Without the spaces at the start.
#[tactic(auto, using(crate::proofs::Dropped::start_nothing))]
fn trimmed_start(line: &[u8]) -> &[u8]
    ensures { result.now ≡ trimmed_start_of line.now }
{
    match line.iter().position(|c| *c != b' ') {
        Some(first) => &line[first..],
        None => &[],
    }
}

// Without the spaces at the end.
#[tactic(auto, using(crate::proofs::Dropped::end_nothing))]
fn trimmed_end(line: &[u8]) -> &[u8]
    ensures { result.now ≡ trimmed_end_of line.now }
{
    match line.iter().rposition(|c| *c != b' ') {
        Some(last) => &line[..=last],
        None => &[],
    }
}

// Without the spaces at both ends.
#[tactic(auto, unfolding(crate::specs::Cuts::trimmed_of))]
pub(crate) fn trimmed(line: &[u8]) -> &[u8]
    ensures { result.now ≡ trimmed_of line.now }
{
    trimmed_end(trimmed_start(line))
}

// A comma, a semicolon or a tab.
pub(crate) fn separator(b: u8) -> bool
    ensures { result ≡ is_separator b }
{
    matches!(b, b',' | b';' | b'\t')
}
