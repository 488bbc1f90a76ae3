// The bytes of a sheet: one byte n, n rows of address and place of the body, n bodies of four bytes.
ghost use Rattle.std.specs.Prelude.{◌≡◌};
ghost use Rattle.sheet.specs.Each.{each};
ghost use Rattle.sheet.specs.Format.{byte_of, count_of, address_of, body_of, value_of, rises, row_right, well_formed_of};

// No sheet has more rows than there are stored parameters.
pub(crate) const MOST: u8 = 39;

// Byte k of the sheet; past its end, 0.
pub(crate) fn byte_at(sheet: &[u8], k: usize) -> u8
    ensures { result ≡ byte_of sheet.now k }
{
    sheet.get(k).copied().unwrap_or(0)
}

// The number of rows.
pub(crate) fn count(sheet: &[u8]) -> u8
    ensures { result ≡ count_of sheet.now }
{
    byte_at(sheet, 0)
}

// The parameter address of row i.
pub(crate) fn address_at(sheet: &[u8], i: u8) -> u8
    ensures { result ≡ address_of sheet.now i }
{
    byte_at(sheet, 1 + 3 * (i as usize))
}

// Where row i says that its body stands.
pub(crate) fn body_at(sheet: &[u8], i: u8) -> u16
    ensures { result ≡ body_of sheet.now i }
{
    let k = 3 * (i as usize);
    wire::word::half(byte_at(sheet, 2 + k), byte_at(sheet, 3 + k))
}

// The value in the body of row i.
#[tactic(auto, unfolding(crate::specs::Format::value_of))]
pub(crate) fn value_at(sheet: &[u8], i: u8) -> u32
    ensures { result ≡ value_of sheet.now i }
{
    let p = body_at(sheet, i) as usize;
    wire::word::whole(
        byte_at(sheet, p),
        byte_at(sheet, p + 1),
        byte_at(sheet, p + 2),
        byte_at(sheet, p + 3),
    )
}

// The address of row i is above that of the row before it.
#[tactic(auto, unfolding(crate::specs::Format::rises))]
fn is_rising(sheet: &[u8], i: u8) -> bool
    ensures { result ≡ rises sheet.now i }
{
    i == 0 || address_at(sheet, i - 1) < address_at(sheet, i)
}

// Row i of n stands as it must.
#[tactic(auto, unfolding(crate::specs::Format::row_right))]
fn row_right(sheet: &[u8], n: u8, i: u8) -> bool
    ensures { result ≡ row_right sheet.now n i }
{
    let p = body_at(sheet, i) as usize;
    p == 1 + 3 * (n as usize) + 4 * (i as usize) && is_rising(sheet, i)
}

// All n rows do.
fn rows_right(sheet: &[u8], n: u8) -> bool
    ensures { result ≡ each (row_right sheet.now n) n }
{
    (0..n).all(|i| row_right(sheet, n, i))
}

// Whether the bytes are a sheet.
#[tactic(auto, unfolding(crate::specs::Format::well_formed_of))]
pub fn well_formed(sheet: &[u8]) -> bool
    ensures { result ≡ well_formed_of sheet.now }
{
    let n = count(sheet);
    // the sheet ends after the last body
    n <= MOST && sheet.len() == 1 + 3 * (n as usize) + 4 * (n as usize) && rows_right(sheet, n)
}
