// A telegram's way through the head: the checks in order, and what passes them all is obeyed.
ghost use Rattle.std.specs.Prelude.{◌≡◌, ◌||◌};
ghost use Rattle.engine.specs.declared.Told.{Told};
ghost use Rattle.engine.specs.Way.{writes, casts, obeyed, locked, outside, ranged, numbered, check1, check2, check3, check4, check5, check6, check7, decided_or, mine, way};

use crate::case::{BROADCAST, Case, READ, WRITE};
use crate::{Told, does, groups, says};
use rows::range::Range;
use state::parts::Setting;
use wire::fault::Fault;
use wire::word;

impl Case {
    #[tactic(auto, unfolding(crate::specs::Way::way))]
    pub(crate) fn way(&self, hit: u8) -> Told
        ensures { result ≡ way self.now.telegram self.now.before self.now.heard hit }
    {
        match self.checked(hit) {
            Ok(()) => self.obey(),
            Err(decided) => decided,
        }
    }

    // In this order: the first that applies decides.
    fn checked(&self, hit: u8) -> Result<(), Told>
        ensures { (next : Told)
            → check1 self.now.telegram self.now.before self.now.heard hit
            (check2 self.now.telegram self.now.before self.now.heard
            (check3 self.now.telegram self.now.before self.now.heard
            (check4 self.now.telegram self.now.before self.now.heard
            (check5 self.now.telegram self.now.before self.now.heard
            (check6 self.now.telegram self.now.before self.now.heard
            (check7 self.now.telegram self.now.before self.now.heard next))))))
            ≡ decided_or result next }
    {
        self.sum_check(hit)?;
        self.node_check()?;
        self.command_check()?;
        self.parameter_check()?;
        self.access_check()?;
        self.lock_check()?;
        self.value_check()
    }

    // 1. Damaged: answered only at the number in force.
    fn sum_check(&self, hit: u8) -> Result<(), Told>
        ensures { (next : Told) → check1 self.now.telegram self.now.before self.now.heard hit next ≡ decided_or result next }
    {
        if hit == 0 {
            return Ok(());
        }
        if self.is_mine() {
            return Err(self.refuse(Fault::CheckSum));
        }
        Err(says::silent(self.heard))
    }

    // 2. Not a broadcast, and for another head.
    fn node_check(&self) -> Result<(), Told>
        ensures { (next : Told) → check2 self.now.telegram self.now.before self.now.heard next ≡ decided_or result next }
    {
        if self.telegram.command != BROADCAST && !self.is_mine() {
            return Err(says::silent(self.heard));
        }
        Ok(())
    }

    // 3. Command above 02h.
    fn command_check(&self) -> Result<(), Told>
        ensures { (next : Told) → check3 self.now.telegram self.now.before self.now.heard next ≡ decided_or result next }
    {
        if BROADCAST < self.telegram.command {
            return Err(self.refuse(Fault::NoAccess));
        }
        Ok(())
    }

    // 4. Unknown parameter.
    fn parameter_check(&self) -> Result<(), Told>
        ensures { (next : Told) → check4 self.now.telegram self.now.before self.now.heard next ≡ decided_or result next }
    {
        if groups::is_known(self.telegram.parameter) {
            return Ok(());
        }
        Err(self.refuse(Fault::UnknownParameter))
    }

    // 5. Write to read only, read of write only, broadcast where none is allowed.
    #[tactic(auto, using(crate::proofs::Addressed::broadcast_is))]
    fn access_check(&self) -> Result<(), Told>
        ensures { (next : Told) → check5 self.now.telegram self.now.before self.now.heard next ≡ decided_or result next }
    {
        let parameter = self.telegram.parameter;
        match self.telegram.command {
            WRITE if groups::is_read_only(parameter) => Err(self.refuse(Fault::WriteRefused)),
            READ if groups::is_write_only(parameter) => Err(self.refuse(Fault::ReadRefused)),
            BROADCAST if !rows::access::broadcast(parameter) => Err(says::silent(self.heard)),
            _ => Ok(()),
        }
    }

    // 6. Locked; or a number is offered where the number in force is not 31.
    fn lock_check(&self) -> Result<(), Told>
        ensures { (next : Told) → check6 self.now.telegram self.now.before self.now.heard next ≡ decided_or result next }
    {
        let parameter = self.telegram.parameter;
        if self.changes() && self.is_locked() && groups::is_covered(parameter) {
            return Err(self.refuse(Fault::Locked));
        }
        if self.changes() && parameter == 0xD2 && self.before.stored.number != 31 {
            return Err(self.refuse(Fault::DeviceState));
        }
        Ok(())
    }

    // 7. A value that is written; and of 96h the number that is asked for.
    fn value_check(&self) -> Result<(), Told>
        ensures { (next : Told) → check7 self.now.telegram self.now.before self.now.heard next ≡ decided_or result next }
    {
        if self.changes() {
            self.range_check()?;
        }
        self.number_check()
    }

    // How the value lies to its limits.
    fn range_check(&self) -> Result<(), Told>
        ensures { (next : Told) → ranged self.now.telegram self.now.before self.now.heard next ≡ decided_or result next }
    {
        match groups::range_of(self.telegram.parameter, self.telegram.value) {
            Range::Right => Ok(()),
            Range::Low => Err(self.outside(Fault::Below)),
            Range::High => Err(self.outside(Fault::Above)),
            Range::Between => Err(self.refuse(Fault::Unlisted)),
        }
    }

    // Below low or above high: a value of D2h there drops the offer.
    fn outside(&self, fault: Fault) -> Told
        ensures { result ≡ outside self.now.telegram fault self.now.heard }
    {
        match (self.telegram.command, self.telegram.parameter) {
            (BROADCAST, _) => says::silent(self.heard),
            (_, 0xD2) => self.complain(fault, does::offer(0, self.heard)),
            _ => self.complain(fault, self.heard),
        }
    }

    // For 96h a number above the count.
    fn number_check(&self) -> Result<(), Told>
        ensures { (next : Told) → numbered self.now.telegram self.now.before self.now.heard next ≡ decided_or result next }
    {
        let number = word::first(self.telegram.value);
        if self.telegram.parameter == 0x96 && self.before.faults.inputs.count < number as u32 {
            return Err(self.refuse(Fault::Above));
        }
        Ok(())
    }

    #[tactic(auto, unfolding(crate::specs::Way::obeyed))]
    fn obey(&self) -> Told
        ensures { result ≡ obeyed self.now.telegram self.now.before self.now.heard }
    {
        if self.telegram.command == READ {
            self.read()
        } else {
            self.write()
        }
    }

    // For the number in force.
    fn is_mine(&self) -> bool
        ensures { result ≡ mine self.now.telegram self.now.before }
    {
        self.telegram.node as u32 == self.before.stored.number
    }

    // A write or a broadcast.
    fn changes(&self) -> bool
        ensures { result ≡ (writes self.now.telegram || casts self.now.telegram) }
    {
        matches!(self.telegram.command, WRITE | BROADCAST)
    }

    // 0Eh is 1 and the interlock closed.
    #[tactic(auto, unfolding(crate::specs::Addresses::place, crate::specs::Addresses::the39))]
    fn is_locked(&self) -> bool
        ensures { result ≡ locked self.now.before }
    {
        let stored = self.before.stored;
        stored.values[Setting::INTERLOCK] == 1 && !stored.unlocked
    }
}
