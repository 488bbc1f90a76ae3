// The check sum: the exclusive-or of bytes.
ghost use Rattle.std.specs.Prelude.{◌≡◌};
ghost use Rattle.wire.specs.Check.{xor_all, hit_of};

// The exclusive-or of all bytes of a slice.
fn exclusive_or(b: &[u8]) -> u8
    ensures { result ≡ xor_all b.now }
{
    b.iter().fold(0, |x, byte| x ^ byte)
}

// The check of ten bytes: the exclusive-or of them all shows which bits were hit, and 0 means sound. Whoever asks whether a telegram is
// undamaged asks here.
#[tactic(auto, unfolding(crate::specs::Check::hit_of))]
pub fn hit(ten: [u8; 10]) -> u8
    ensures { result ≡ hit_of ten }
{
    exclusive_or(&ten)
}
