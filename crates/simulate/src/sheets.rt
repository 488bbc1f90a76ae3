// Sheets in a script: the bytes that a load brings, and the line that shows what a save laid.
ghost use Rattle.std.specs.Prelude.{◌≡◌, length};
ghost use Rattle.line.specs.Calls.{load_of, save_of, save_space_of};
ghost use Rattle.simulate.specs.Carried.{brought_of};
ghost use Rattle.simulate.specs.Sheets.{saved_line_of, shown_of};

use crate::carried;
use head::refusal::Refusal;
use line::calls;
use line::calls::{Called, Line};

// A load of so many bytes, whose digits start at the place `from`. A line of a script has no room for more than 2,048.
pub(crate) fn load(l: Line, head: usize, text: &[u8], from: usize, count: usize) -> Called
    ensures { result ≡ load_of l head (brought_of text.now from count) }
{
    let mut sheet = [0u8; carried::MOST];
    let n = carried::gather(&mut sheet, text, from, count);
    calls::load(l, head, &sheet[..n])
}

// The line that shows the sheet at the start of the space; blanks for digits where the space is too short for a sheet.
#[tactic(auto, unfolding(crate::specs::Sheets::saved_line_of))]
fn saved_line(space: &[u8]) -> [u8; 555]
    ensures { result ≡ saved_line_of space.now }
{
    let mut text = [b' '; 555];
    text[..5].copy_from_slice(b"saved");
    text[554] = b'\n';
    if space.len() < 274 {
        return text;
    }
    hex_digits::spell(&space[..274], &mut text[6..554]);
    text
}

// A save into the lent space: the line to write.
pub(crate) fn save(l: Line, head: usize, space: &mut [u8]) -> Result<[u8; 555], Refusal>
    ensures { result ≡ shown_of (save_of l head (length space.old)) (saved_line_of (save_space_of l head space.old)) }
{
    calls::save(l, head, space)?;
    Ok(saved_line(space))
}
