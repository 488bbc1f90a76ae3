// Ten bytes judged: what they say, the verdict on them, and what they do.
ghost use Rattle.std.specs.Prelude.{◌≡◌};
ghost use Rattle.judge.specs.Judged.{judged_of};

use crate::command::Command;
use crate::deed::Deed;
use crate::verdict::{Standing, Verdict};
use crate::{command, deed, verdict};
use rows::kind::Kind;
use wire::telegram::Telegram;

#[repr(C)]
#[derive(Clone, Copy)]
pub struct Judged {
    pub telegram: Telegram,
    pub hit: u8,
    pub command: Command,
    pub kind: Kind,
    pub verdict: Verdict,
    pub deed: Deed,
}

#[tactic(auto, unfolding(crate::specs::Judged::judged_of))]
pub fn judge(ten: [u8; 10], s: Standing) -> Judged
    ensures { result ≡ judged_of ten s }
{
    let telegram = wire::telegram::fields(ten);
    let hit = wire::check::hit(ten);
    let command = command::command_of(telegram.command);
    let kind = rows::kind::kind_of(telegram.parameter);
    let verdict = verdict::verdict_of(hit, telegram, s);
    let deed = deed::deed_of(verdict, command, kind, telegram);
    Judged {
        telegram,
        hit,
        command,
        kind,
        verdict,
        deed,
    }
}
