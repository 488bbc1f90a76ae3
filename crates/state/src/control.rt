// The control word of a telegram.
ghost use Rattle.std.specs.Prelude.{◌≡◌, Bool};
ghost use Rattle.state.specs.Bits.{bit_set};

// Whether bit n of a control word is set; past bit 15, none is.
#[tactic(auto, using(crate::proofs::Bits::none_past))]
pub fn bit(word: u16, n: u32) -> bool
    ensures { result ≡ bit_set word n }
{
    n < 16 && (word >> n) % 2 == 1
}
