// A sheet of all 39 rows, written from the stored values.
ghost use Rattle.std.specs.Prelude.{◌≡◌, ◌<◌, length, get_or, [], ◌∷◌};
ghost use Rattle.sheet.specs.Spelled.{bodies_of};
ghost use Rattle.sheet.specs.Writing.{front, sheet_of, write_of, written_on};

use crate::format;
use crate::refusal::Refusal;
use rows::table;
use wire::word;

// The count and the contents of 39 rows, and the whole sheet with their bodies.
const FRONT: usize = 118;

const WHOLE: usize = 274;

// Byte k of the count and the contents.
#[tactic(auto, using(crate::proofs::Bytes::front_at))]
fn front_byte(k: usize) -> u8
    requires { k < 118 }
    ensures { result ≡ get_or front k 0 }
{
    if k == 0 {
        return format::MOST;
    }
    let i = (k - 1) / 3;
    let p = (FRONT + 4 * i) as u16;
    match (k - 1) % 3 {
        0 => table::row_of(i).0,
        1 => word::high(p),
        _ => word::low(p),
    }
}

// Byte m of a body.
fn body_byte(w: u32, m: usize) -> u8
    requires { m < 4 }
    ensures { result ≡ get_or (bodies_of (w ∷ [])) m 0 }
{
    match m {
        0 => word::first(w),
        1 => word::second(w),
        2 => word::third(w),
        _ => word::fourth(w),
    }
}

// Byte k of the sheet of these values.
#[tactic(auto, using(crate::proofs::Bytes::sheet_front, crate::proofs::Bytes::sheet_at))]
fn sheet_byte(values: [u32; 39], k: usize) -> u8
    requires { k < 274 }
    ensures { result ≡ get_or (sheet_of values) k 0 }
{
    if k < FRONT {
        return front_byte(k);
    }
    let j = (k - FRONT) / 4;
    body_byte(values[j], (k - FRONT) % 4)
}

// The sheet laid at the start of the space, which is left as it is if it is too short.
#[tactic(auto, unfolding(crate::specs::Writing::write_of, crate::specs::Writing::written_on))]
pub fn write(values: [u32; 39], space: &mut [u8]) -> Result<(), Refusal>
    ensures value { result ≡ write_of (length space.old) }
    ensures space_after { space.new ≡ written_on values space.old }
{
    if space.len() < WHOLE {
        return Err(Refusal::Short);
    }
    for k in 0..WHOLE {
        space[k] = sheet_byte(values, k);
    }
    Ok(())
}
