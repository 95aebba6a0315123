//! The replies to calls and interrupts: the world after them, and the number of entries that its view needs.

use crate::parts::MachineParts;
use hart_trace::Reply;
use monitor_core::{Answer, World};

impl MachineParts {
    ghost use Rattle.std.specs.Prelude.{◌≡◌, ◌<◌};
    ghost use Rattle.monitor_core.specs.Answers.{world_number};
    ghost use Rattle.hart_sim.specs.Parts.{state_in};
    ghost use Rattle.hart_sim.specs.Replies.{RepliesWith};
    ghost use Rattle.hart_trace.specs.declared.reply.Reply.TheVariants as replies;

    /// Returns the number of the world on a hart.
    fn world_number(&self, hart: u8) -> u64
        requires { hart < 4 }
        ensures { result ≡ world_number ((state_in self.now).worlds hart) }
    {
        match self.core.world(hart) {
            World::Host => 0,
            World::Enclave(id) => id,
        }
    }

    /// Returns the reply to a call with this answer.
    #[inline(always)]
    pub(crate) fn reply_to_call(&self, hart: u8, answer: Answer) -> Reply
        requires { hart < 4 }
        ensures { RepliesWith (replies.Call answer.status answer.value) (state_in self.now) hart
            result }
    {
        let world = self.world_number(hart);
        let used = self.core.used(hart);
        Reply::Call {
            status: answer.status,
            value: answer.value,
            world,
            used,
        }
    }

    /// Returns the reply to an interrupt.
    pub(crate) fn reply_to_interrupt(&self, hart: u8) -> Reply
        requires { hart < 4 }
        ensures { RepliesWith replies.Irq (state_in self.now) hart result }
    {
        let world = self.world_number(hart);
        let used = self.core.used(hart);
        Reply::Irq { world, used }
    }
}
