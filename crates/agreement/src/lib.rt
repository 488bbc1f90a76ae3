// The engine and the byte-fed head agree in reply and in state (specs/, proofs/). The functions here do nothing: that they are proved says that whatever ten bytes and
// head a program can hand in are held by their types, as the promise asks.
#![tactic(auto)]

ghost use Rattle.std.specs.Prelude.{◌≡◌, length};
ghost use Rattle.agreement.specs.Agreement.{TenBytes};

use state::parts::Ear;

fn ten_typed(ten: [u8; 10])
    ensures { TenBytes ten }
{}

fn ear_typed(e: Ear)
    ensures { length e.bytes ≡ 10 }
{}
