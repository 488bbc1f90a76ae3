// A line of text put together in lent room, piece by piece.
ghost use Rattle.std.specs.Prelude.{◌≡◌};
ghost use Rattle.text.specs.Laid.{laid_of, kept_of};

// A piece laid at a place, where there is room for it; how much is kept then.
#[tactic(auto, unfolding(crate::specs::Laid::kept_of, crate::specs::Laid::laid_of))]
pub fn lay(out: &mut [u8], from: usize, piece: &[u8]) -> usize
    ensures value { result ≡ kept_of out.old from piece.now }
    ensures out_after { out.new ≡ laid_of out.old from piece.now }
{
    if from <= out.len() && piece.len() <= out.len() - from {
        let end = from + piece.len();
        out[from..end].copy_from_slice(piece);
        return end;
    }
    from
}
