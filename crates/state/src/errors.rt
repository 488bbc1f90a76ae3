// A list of the last ten errors, the oldest first.
ghost use Rattle.std.specs.Prelude.{◌≡◌};
ghost use Rattle.state.specs.Errors.{empty_list, remembered_of, entry_of};

use crate::parts::ErrorList;

#[tactic(auto, unfolding(crate::specs::Errors::empty_list))]
pub fn empty_list() -> ErrorList
    ensures { result ≡ empty_list }
{
    ErrorList {
        codes: [0u16; 10],
        count: 0,
    }
}

// The list with a code at its end; a full list drops its oldest.
#[tactic(auto, unfolding(crate::specs::Errors::remembered_of))]
pub fn remembered(list: ErrorList, code: u16) -> ErrorList
    ensures { result ≡ remembered_of list code }
{
    let mut l = list;
    if l.count < 10 {
        l.codes[l.count as usize] = code;
        l.count += 1;
    } else if l.count == 10 {
        l.codes.rotate_left(1);
        l.codes[9] = code;
    }
    l
}

// The code at a place, 0 for the oldest; an empty place reads 0, whatever it holds.
#[tactic(auto, unfolding(crate::specs::Errors::entry_of))]
pub fn entry(list: ErrorList, i: usize) -> u16
    ensures { result ≡ entry_of list i }
{
    if i < list.count as usize {
        list.codes.get(i).copied().unwrap_or(0)
    } else {
        0
    }
}
