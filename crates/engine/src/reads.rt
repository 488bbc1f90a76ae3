// A read that passed the checks: its data are those of the head before, whatever it does to the head that has heard it.
ghost use Rattle.std.specs.Prelude.{◌≡◌};
ghost use Rattle.engine.specs.Way.{read};

use crate::case::Case;
use crate::{Told, does, groups, shows};
use state::status;

impl Case {
    #[tactic(auto, unfolding(crate::specs::Way::read), using(crate::proofs::Shown::status_is))]
    pub(crate) fn read(&self) -> Told
        ensures { result ≡ read self.now.telegram self.now.before self.now.heard }
    {
        let parameter = self.telegram.parameter;
        let h = self.before;
        let n = self.heard;
        if let Some(i) = groups::place_of(parameter) {
            return self.answer(shows::stored(h.stored.values, i), n);
        }
        match parameter {
            0x65 => self.answer(11, n),
            0x67 => self.answer(100, n),
            0x80 => self.answer(h.faults.memory.count, n),
            0x81..=0x8A => self.answer(shows::error_at(parameter, h), n),
            0x96 => self.answer(shows::input_error(self.telegram, h), n),
            0xFA => self.answer_old(status::status(h) as u32, does::clear(n)),
            0xFB => self.answer(h.targets.first, n),
            0xFC => self.answer(shows::differential(h, h.targets.second), n),
            0xFD => self.answer(h.faults.pending as u32, n),
            0xFE => self.answer(shows::position(h), does::release(n)),
            0xFF => self.answer(h.targets.second, n),
            _ => self.answer(0, n),
        }
    }
}
