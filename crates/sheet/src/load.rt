// A sheet checked, and loaded into the 39 stored values.
ghost use Rattle.std.specs.Prelude.{◌≡◌};
ghost use Rattle.sheet.specs.Each.{each};
ghost use Rattle.sheet.specs.Loading.{meant_at, known_of, fitting_of, check_of, stored_rows, load_of};

use crate::format;
use crate::refusal::Refusal;
use rows::range::Range;
use rows::{range, table};

// 35h, which switched incremental measurement before that was retired.
const INCREMENTAL: u8 = 0x35;

// The value that row i writes: 35h at 1, as the sheets of older heads may have it, is a write of 0.
#[tactic(auto, unfolding(crate::specs::Loading::meant_of))]
fn meant(sheet: &[u8], i: u8) -> u32
    ensures { result ≡ meant_at sheet.now i }
{
    let value = format::value_at(sheet, i);
    if format::address_at(sheet, i) == INCREMENTAL && value == 1 {
        0
    } else {
        value
    }
}

// The address of row i is among the 39.
#[tactic(auto, unfolding(crate::specs::Loading::known_of))]
fn known(sheet: &[u8], i: u8) -> bool
    ensures { result ≡ known_of sheet.now i }
{
    table::place_of(format::address_at(sheet, i)).is_some()
}

// What row i writes lies in the row of its address.
#[tactic(auto, unfolding(crate::specs::Loading::fitting_of))]
fn fitting(sheet: &[u8], i: u8) -> bool
    ensures { result ≡ fitting_of sheet.now i }
{
    matches!(
        range::range_of(format::address_at(sheet, i), meant(sheet, i)),
        Range::Right
    )
}

// Of the first n rows.
fn all_known(sheet: &[u8], n: u8) -> bool
    ensures { result ≡ each (known_of sheet.now) n }
{
    (0..n).all(|i| known(sheet, i))
}

fn all_fitting(sheet: &[u8], n: u8) -> bool
    ensures { result ≡ each (fitting_of sheet.now) n }
{
    (0..n).all(|i| fitting(sheet, i))
}

// Whether the sheet may be loaded: 11, 12 and 13, in this order.
#[tactic(auto, unfolding(crate::specs::Loading::check_of))]
pub fn check(sheet: &[u8]) -> Result<(), Refusal>
    ensures { result ≡ check_of sheet.now }
{
    if !format::well_formed(sheet) {
        return Err(Refusal::Malformed);
    }
    let n = format::count(sheet);
    if !all_known(sheet, n) {
        return Err(Refusal::NotStored);
    }
    if !all_fitting(sheet, n) {
        return Err(Refusal::OutOfRow);
    }
    Ok(())
}

// An accepted write of each of the first n rows.
#[tactic(auto, unfolding(crate::specs::Loading::store_of), using(rows::proofs::Laws::place_below))]
fn store_rows(values: [u32; 39], sheet: &[u8], n: u8) -> [u32; 39]
    ensures { result ≡ stored_rows values sheet.now n }
{
    let mut v = values;
    for i in 0..n {
        if let Some(p) = table::place_of(format::address_at(sheet, i)) {
            v[p] = meant(sheet, i);
        }
    }
    v
}

#[derive(Clone, Copy)]
pub struct Loaded {
    pub values: [u32; 39],
    pub answer: Result<(), Refusal>,
}

// The sheet loaded, all or nothing.
#[tactic(auto, unfolding(crate::specs::Loading::load_of))]
pub fn load(values: [u32; 39], sheet: &[u8]) -> Loaded
    ensures { result ≡ load_of values sheet.now }
{
    let answer = check(sheet);
    let values = match answer {
        Ok(()) => store_rows(values, sheet, format::count(sheet)),
        Err(_) => values,
    };
    Loaded { values, answer }
}
