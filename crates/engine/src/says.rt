// Silence, replies and error replies. A reply copies command and node, and has a status word in the control word's place.
ghost use Rattle.std.specs.Prelude.{◌≡◌};
ghost use Rattle.engine.specs.Way.{silent, reply, complain, refuse};

use crate::Told;
use crate::case::{BROADCAST, Case};
use state::parts::Head;
use state::{errors, status};
use wire::fault::Fault;
use wire::telegram;
use wire::telegram::Telegram;

#[tactic(auto, unfolding(crate::specs::Way::silent))]
pub(crate) fn silent(after: Head) -> Told
    ensures { result ≡ silent after }
{
    Told {
        head: after,
        reply: None,
    }
}

impl Case {
    // With the status word of the head that is shown.
    #[tactic(auto, unfolding(crate::specs::Way::reply), using(crate::proofs::Shown::status_is))]
    fn reply(&self, parameter: u8, shown: Head, value: u32, after: Head) -> Told
        ensures { result ≡ reply self.now.telegram parameter shown value after }
    {
        let bytes = telegram::bytes(Telegram {
            parameter,
            word: status::status(shown),
            value,
            ..self.telegram
        });
        Told {
            head: after,
            reply: Some(bytes),
        }
    }

    // With the status word after.
    pub(crate) fn answer(&self, value: u32, after: Head) -> Told
        ensures { result ≡ reply self.now.telegram self.now.telegram.parameter after value after }
    {
        self.reply(self.telegram.parameter, after, value, after)
    }

    // With the status word before.
    pub(crate) fn answer_old(&self, value: u32, after: Head) -> Told
        ensures { result ≡ reply self.now.telegram self.now.telegram.parameter self.now.before value after }
    {
        self.reply(self.telegram.parameter, self.before, value, after)
    }

    // An error reply has FDh as parameter and enters the input list.
    #[tactic(auto, unfolding(crate::specs::Way::complain))]
    pub(crate) fn complain(&self, fault: Fault, mut head: Head) -> Told
        ensures { result ≡ complain self.now.telegram fault head }
    {
        let code = fault.code();
        head.faults.inputs = errors::remembered(head.faults.inputs, code);
        self.reply(0xFD, head, code as u32, head)
    }

    // A refused broadcast is silent.
    pub(crate) fn refuse(&self, fault: Fault) -> Told
        ensures { result ≡ refuse self.now.telegram fault self.now.heard }
    {
        if self.telegram.command == BROADCAST {
            silent(self.heard)
        } else {
            self.complain(fault, self.heard)
        }
    }
}
