// The map of used node numbers: any two words are one.
ghost use Rattle.std.specs.Prelude.{◌≡◌, ◌≤◌};
ghost use Rattle.free_number.specs.Lowest.{lowest_of, count_of};
ghost use Rattle.free_number.specs.Used.{whole, of_whole, used, flipped, empty_of, make_of, add_of, remove_of};

use crate::answer::Refusal;
use head::calls;

// The highest number.
const LAST: u32 = 127;

// All bits that stand for a number: the 128th stands for none.
const NUMBERS: u128 = 0x7fff_ffff_ffff_ffff_ffff_ffff_ffff_ffff;

// Number n is used where bit n - 1, counted through both words, is set.
#[repr(C)]
#[derive(Clone, Copy)]
pub struct Map {
    pub low: u64,
    pub high: u64,
}

// The map after a call, and what is answered to the call. A refused call has its map too, as it was: `Makes` (specs/Demand) asks that.
#[derive(Clone, Copy)]
pub struct Change {
    pub map: Map,
    pub answer: Result<(), Refusal>,
}

impl Map {
    // Both words as one number.
    #[tactic(auto, unfolding(crate::specs::Used::whole))]
    fn whole(self) -> u128
        ensures { result ≡ whole self }
    {
        u128::from(self.high) << 64 | u128::from(self.low)
    }

    // The words of such a number.
    #[tactic(auto, unfolding(crate::specs::Used::of_whole))]
    fn of_whole(whole: u128) -> Map
        ensures { result ≡ of_whole whole }
    {
        Map {
            low: (whole & 0xffff_ffff_ffff_ffff) as u64,
            high: (whole >> 64) as u64,
        }
    }

    #[tactic(auto, unfolding(crate::specs::Used::used, crate::specs::Used::bit))]
    fn is_used(self, node: u32) -> bool
        requires { (1 ≤ node) × (node ≤ 127) }
        ensures { result ≡ used self node }
    {
        (self.whole() >> (node - 1)) % 2 == 1
    }

    // The bit of a number turned over: a number that is not used is added, one that is used is removed.
    #[tactic(auto, unfolding(crate::specs::Used::flipped))]
    fn flipped(self, node: u32) -> Map
        requires { (1 ≤ node) × (node ≤ 127) }
        ensures { result ≡ flipped self node }
    {
        Map::of_whole(self.whole() ^ (1 << (node - 1)))
    }
}

// No number is used.
pub fn empty() -> Map
    ensures { result ≡ empty_of }
{
    Map { low: 0, high: 0 }
}

// A number is to be used, or not to be: refused where it is none that a head can have, then where it is so already.
#[tactic(auto, using(head::proofs::Nodes::node_within))]
fn make(map: Map, node: u32, used: bool, already: Refusal) -> Change
    ensures { result ≡ make_of map node used already }
{
    if !calls::node_fits(node) {
        Change {
            map,
            answer: Err(Refusal::Outside),
        }
    } else if map.is_used(node) == used {
        Change {
            map,
            answer: Err(already),
        }
    } else {
        Change {
            map: map.flipped(node),
            answer: Ok(()),
        }
    }
}

// One number more.
#[tactic(auto, unfolding(crate::specs::Used::add_of))]
pub fn add(map: Map, node: u32) -> Change
    ensures { result ≡ add_of map node }
{
    make(map, node, true, Refusal::Taken)
}

// One number less.
#[tactic(auto, unfolding(crate::specs::Used::remove_of))]
pub fn remove(map: Map, node: u32) -> Change
    ensures { result ≡ remove_of map node }
{
    make(map, node, false, Refusal::Unused)
}

// The lowest number from 1 to 127 that is not used, if one is: the trailing zeros of the complemented map word end at its lowest clear bit.
pub fn lowest_free(map: Map) -> Option<u32>
    ensures { result ≡ lowest_of (used map) }
{
    let lowest = (!map.whole()).trailing_zeros() + 1;
    if lowest <= LAST { Some(lowest) } else { None }
}

// How many numbers are used: how many heads there are.
pub fn count(map: Map) -> u32
    ensures { result ≡ count_of (used map) }
{
    (map.whole() & NUMBERS).count_ones()
}
