// A line's words, by the places where they start and end.
ghost use Rattle.std.specs.Prelude.{◌≡◌};
ghost use Rattle.text.specs.Lines.{bare_of};
ghost use Rattle.script.specs.Words.{is_gap};
ghost use Rattle.script.specs.Kinds.{kind_of};
ghost use Rattle.script.specs.Places.{start_of, end_of, words_at, first_of, after_of, sole_of};

use text::lines;

// How long a line may be.
const LONGEST: usize = 4096;

// The kinds of lines: too long, whatever stands in it; passed over; or one that goes by its words, of which the first starts at the place.
#[derive(Clone, Copy)]
pub(crate) enum Kind {
    Long,
    Passed,
    Spoken(usize),
}

// The line without one carriage return at its end.
pub(crate) fn bare(line: &[u8]) -> &[u8]
    ensures { result.now ≡ bare_of line.now }
{
    let n = lines::bare_length(line);
    &line[..n]
}

// A blank or a tab.
fn gap(b: u8) -> bool
    ensures { result ≡ is_gap b }
{
    matches!(b, b' ' | b'\t')
}

// What is left of a line from a place on.
#[derive(Clone, Copy)]
pub(crate) struct Rest<'a> {
    pub line: &'a [u8],
    pub from: usize,
}

impl<'a> Rest<'a> {
    // Past the gaps at its start.
    pub(crate) fn start(self) -> usize
        ensures { result ≡ start_of self.entry.line.now self.entry.from }
    {
        let rest = self.line.get(self.from..).unwrap_or(&[]);
        self.from + rest.iter().position(|b| !gap(*b)).unwrap_or(rest.len())
    }

    // Past the word at its start.
    fn end(self) -> usize
        ensures { result ≡ end_of self.entry.line.now self.entry.from }
    {
        let rest = self.line.get(self.from..).unwrap_or(&[]);
        self.from + rest.iter().position(|b| gap(*b)).unwrap_or(rest.len())
    }

    // What is left past its first word.
    #[tactic(auto, unfolding(crate::specs::Places::after_of))]
    pub(crate) fn after(self) -> Rest<'a>
        ensures line { result.line ≡ self.entry.line }
        ensures from { result.from ≡ after_of self.entry.line.now self.entry.from }
    {
        let word = Rest {
            from: self.start(),
            ..self
        };
        Rest {
            from: word.end(),
            ..self
        }
    }

    // Its first word, or no characters where there is none: these say no number, so that who reads them needs no further case.
    pub(crate) fn first(self) -> &'a [u8]
        ensures { result.now ≡ first_of (words_at self.entry.line.now self.entry.from) }
    {
        let s = self.start();
        if self.line.len() <= s {
            return &[];
        }
        let e = Rest { from: s, ..self }.end();
        &self.line[s..e]
    }

    // Its only word, or no characters where there is none or more than one.
    pub(crate) fn sole(self) -> &'a [u8]
        ensures { result.now ≡ sole_of (words_at self.entry.line.now self.entry.from) }
    {
        let next = self.after();
        if next.start() < self.line.len() {
            return &[];
        }
        self.first()
    }
}

// Which kind a line without newline and carriage return is. The length is looked at before any word.
#[tactic(auto, unfolding(crate::specs::Kinds::kind_of))]
pub(crate) fn kind_of(line: &[u8]) -> Kind
    ensures { result ≡ kind_of line.now }
{
    if LONGEST < line.len() {
        return Kind::Long;
    }
    let at = Rest { line, from: 0 }.start();
    if line.len() <= at {
        return Kind::Passed;
    }
    if line[at] == b'#' {
        return Kind::Passed;
    }
    Kind::Spoken(at)
}
