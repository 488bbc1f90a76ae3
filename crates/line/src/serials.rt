// Serial numbers, gathered from the heads of a line.
ghost use Rattle.std.specs.Prelude.{◌≡◌, ◌||◌, false, eqb};
ghost use Rattle.std.specs.List.{fold};

// Whether one stands among these. All are compared, with no way out on the way, so that several are compared at a time.
pub(crate) fn stands(serials: &[u32], serial: u32) -> bool
    ensures { result ≡ fold (λ found s. found || eqb serial s) false serials.now }
{
    serials
        .iter()
        .fold(false, |found, s| found | (serial == *s))
}
