// A write or a broadcast that passed the checks: a write is answered, a broadcast never.
ghost use Rattle.std.specs.Prelude.{◌≡◌};
ghost use Rattle.engine.specs.Way.{doing, doing_old, system, write};

use crate::case::{Case, WRITE};
use crate::{Told, aims, does, groups, keeps, says, shows};
use state::parts::Head;

impl Case {
    // Answered with the value written, and the status word after.
    fn done(&self, after: Head) -> Told
        ensures { result ≡ doing self.now.telegram after }
    {
        if self.telegram.command == WRITE {
            self.answer(self.telegram.value, after)
        } else {
            says::silent(after)
        }
    }

    // With the status word of before.
    fn done_old(&self, value: u32, after: Head) -> Told
        ensures { result ≡ doing_old self.now.telegram self.now.before value after }
    {
        if self.telegram.command == WRITE {
            self.answer_old(value, after)
        } else {
            says::silent(after)
        }
    }

    // A0h: 7 calibrates, 8 empties the error memory, 9 replies and restarts, 1, 2 and 5 reset.
    #[tactic(auto, unfolding(crate::specs::Way::system))]
    fn system(&self) -> Told
        ensures { result ≡ system self.now.telegram self.now.before self.now.heard }
    {
        let n = self.heard;
        match self.telegram.value {
            7 => self.done(does::calibrate(n)),
            8 => self.done(does::forget(n)),
            9 => self.done_old(9, does::restart(n)),
            command => self.done(keeps::reset(command, n)),
        }
    }

    #[tactic(auto, unfolding(crate::specs::Way::write, crate::specs::Does::store))]
    pub(crate) fn write(&self) -> Told
        ensures { result ≡ write self.now.telegram self.now.before self.now.heard }
    {
        let t = self.telegram;
        let n = self.heard;
        if let Some(i) = groups::place_of(t.parameter) {
            return self.done(keeps::store(i, t.value, n));
        }
        match t.parameter {
            0xA0 => self.system(),
            0xA7 => self.done(does::calibrate(n)),
            0xA8 => self.done(does::unlock(t.value == 1, n)),
            0xAA => self.done(does::freeze(n)),
            // An offer is remembered without a reply.
            0xD2 => says::silent(does::offer(t.value, n)),
            0xFB => self.done_old(t.value, aims::aim_first(t.value, t.word, n)),
            0xFF => self.done_old(
                shows::response(t, self.before),
                aims::aim_second(t.value, t.word, n),
            ),
            _ => self.done(n),
        }
    }
}
