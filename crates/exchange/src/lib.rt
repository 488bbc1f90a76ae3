// A question of the master and the answer of a head: what is sent is read back as it was meant (specs/, proofs/). The functions here do nothing: that
// they are proved says that whatever question, head or line a program can hand in is held by its types, as the promises ask (specs/Typed; demands/specs/Sheets).
#![tactic(auto)]

ghost use Rattle.std.specs.Prelude.{◌<◌, ◌≡◌, length};
ghost use Rattle.wire.specs.Telegram.{Fits};
ghost use Rattle.line.specs.Calls.{head_at};
ghost use Rattle.demands.specs.Sheets as settings;
ghost use Rattle.exchange.specs.Typed.{TypedValues, TypedTargets, TypedList, TypedFaults, TypedEar, Typed};

use line::calls::Line;
use state::parts::{Ear, ErrorList, Faults, Head, Stored, Targets};
use wire::telegram::Telegram;

fn question_typed(q: Telegram)
    ensures { Fits q }
{}

fn values_typed(s: Stored)
    ensures { TypedValues s }
{}

fn targets_typed(t: Targets)
    ensures { TypedTargets t }
{}

fn list_typed(l: ErrorList)
    ensures { TypedList l }
{}

fn pending_typed(pending: u16)
    ensures { pending < 65536 }
{}

fn faults_typed(f: Faults)
    ensures { TypedFaults f }
{
    list_typed(f.memory);
    list_typed(f.inputs);
    pending_typed(f.pending);
}

fn ear_typed(e: Ear)
    ensures { TypedEar e }
{}

fn typed(h: Head)
    ensures { Typed h }
{
    values_typed(h.stored);
    targets_typed(h.targets);
    faults_typed(h.faults);
    ear_typed(h.ear);
}

// A head's settings are 39 words of 32 bits, as the promises about sheets ask.
fn places_typed(s: Stored)
    ensures { length s.values ≡ 39 }
{}

fn settings_typed(h: Head)
    ensures { settings.Typed h }
{
    places_typed(h.stored);
    values_typed(h.stored);
}

fn line_typed(l: Line)
    ensures { length l.heads ≡ 32 }
{}

fn head_typed(l: Line, k: usize)
    ensures { k < 32 → Typed (head_at l k) }
{
    if k < 32 {
        typed(l.heads[k]);
    }
}
