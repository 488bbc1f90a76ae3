// The status word that a reply carries, by what the telegram did.
ghost use Rattle.std.specs.Prelude.{◌≡◌, Bool};
ghost use Rattle.reply.specs.Word.{keeps_old, carried_of};

use judge::deed::Deed;
use state::parts::Head;
use state::status;

// Whether it is the word of before: FBh and FFh writes, the reading of FAh, A0h 9.
#[tactic(auto, unfolding(crate::specs::Word::keeps_old))]
fn keeps_old(d: Deed) -> bool
    ensures { result ≡ keeps_old d }
{
    matches!(
        d,
        Deed::Restart | Deed::Aim1(_, _) | Deed::Aim2(_, _) | Deed::ClearStatic
    )
}

#[tactic(auto, unfolding(crate::specs::Word::carried_of))]
pub(crate) fn carried(d: Deed, before: Head, after: Head) -> u16
    ensures { result ≡ carried_of d before after }
{
    if keeps_old(d) {
        return status::status(before);
    }
    status::status(after)
}
