//! Calls to the monitor and interrupts, with their effects on memory and on the hart's bank.

ghost use Rattle.std.specs.Prelude.{◌≡◌, ◌+◌, ◌^◌, ◌≤◌, IfSome};
ghost use Rattle.monitor_core.specs.States.{MonitorState};
ghost use Rattle.hart_sim.specs.Changes.{zeroing};
ghost use Rattle.hart_sim.specs.Parts.{shown};

use crate::Memory;
use crate::call_registers::put_words;
use crate::hart_registers::{follow, put_call};
use crate::parts::MachineParts;
use arrayvec::ArrayVec;
use hart_trace::Reply;
use monitor_core::{Answer, MeasuresPages, PageRange, SetChanges};

/// Zeroes pages, if any.
fn zero(memory: &mut Memory, pages: Option<PageRange>)
    requires { IfSome pages (λ range. range.first + range.count ≤ 2 ^ 44) }
    ensures { (core : MonitorState) → shown core memory.new
        ≡ zeroing (shown core memory.old) pages }
{
    if let Some(range) = pages {
        memory.forget(range.first, range.count);
    }
}

impl MachineParts {
    ghost use Rattle.std.specs.Prelude.{◌≡◌, ◌<◌, false, Option};
    ghost use Rattle.sbi_decode.specs.Calls.{call_of};
    ghost use Rattle.monitor_core.specs.Changes.{with_running};
    ghost use Rattle.monitor_core.specs.States.{MonitorState};
    ghost use Rattle.monitor_core.specs.Steps.{DoesCall};
    ghost use Rattle.pmp_encoding.specs.declared.pages.PageRange.{PageRange};
    ghost use Rattle.hart_trace.specs.declared.event.Event.{Event};
    ghost use Rattle.hart_sim.specs.Banks.{AreBanksRight};
    ghost use Rattle.hart_sim.specs.Changes.{calling, zeroing};
    ghost use Rattle.hart_sim.specs.Frames.{IsOn, KeepsFrame};
    ghost use Rattle.hart_sim.specs.Parts.{state_in, bank_in};
    ghost use Rattle.hart_sim.specs.States.{core_of, with_core};
    ghost use Rattle.hart_sim.specs.Steps.{Serves, DoesEvent, Step};
    ghost use Rattle.hart_sim.specs.Memory.{measured_in};

    /// Serves a call with these words, and returns the answer to its caller.
    fn serve(&mut self, hart: u8, words: &[u64]) -> Answer
        requires on { IsOn self.old hart }
        requires few { hart < 4 }
        requires awake { (state_in self.old).marked hart ≡ false }
        ensures frame { KeepsFrame self.old self.new hart }
        ensures served { let s = state_in self.old in let file = calling s hart words.now in
            (pages : Option PageRange) × (core : MonitorState)
            × DoesCall (call_of file) (measured_in s.bytes)
            (with_running (core_of s) hart file) hart result pages core
            × (state_in self.new ≡ zeroing (with_core s core) pages) }
    {
        let mut asked = *self.harts[hart as usize].registers();
        put_words(&mut asked, words);
        put_call(&mut self.harts[hart as usize], words);
        let mut changes = SetChanges::none();
        let served = self.core.serve(
            hart,
            &asked,
            &MeasuresPages {
                pages: &self.memory,
            },
            &mut changes,
        );
        zero(&mut self.memory, served.zero);
        let here = &mut self.harts[hart as usize];
        follow(here, &mut self.contexts, &self.core, &changes, served.load);
        served.answer
    }

    /// Performs a call with these words. The reply is built where it is read: a returned reply would be copied in
    /// larger pieces than it was written in, which stalls the processor.
    #[inline(always)]
    pub(crate) fn ecall(&mut self, hart: u8, words: &[u64]) -> Reply
        requires on { IsOn self.old hart }
        requires few { hart < 4 }
        requires awake { (state_in self.old).marked hart ≡ false }
        ensures frame { KeepsFrame self.old self.new hart }
        ensures step { let s = state_in self.old in let file = calling s hart words.now in
            Serves (DoesCall (call_of file) (measured_in s.bytes)
            (with_running (core_of s) hart file) hart) s hart result (state_in self.new) }
    {
        let answer = self.serve(hart, words);
        self.reply_to_call(hart, answer)
    }

    /// Performs a call on a hart, which first loads the host's entries if it is marked. The words are borrowed.
    #[inline(always)]
    pub(crate) fn call(&mut self, hart: u8, words: &ArrayVec<u64, 8>) -> Reply
        requires on { IsOn self.old hart }
        requires few { hart < 4 }
        ensures frame { KeepsFrame self.old self.new hart }
        ensures step { AreBanksRight (state_in self.old) (bank_in self.old)
            → Step (state_in self.old) hart (Event.Ecall words.now) result (state_in self.new) }
    {
        self.wake(hart);
        self.ecall(hart, words.as_slice())
    }

    /// Performs the timer's interrupt.
    pub(crate) fn interrupt(&mut self, hart: u8) -> Reply
        requires on { IsOn self.old hart }
        requires few { hart < 4 }
        requires awake { (state_in self.old).marked hart ≡ false }
        ensures frame { KeepsFrame self.old self.new hart }
        ensures step { DoesEvent Event.Irq (state_in self.old) hart result (state_in self.new) }
    {
        let mut changes = SetChanges::none();
        let load = self.core.interrupt(hart, &mut changes);
        let here = &mut self.harts[hart as usize];
        follow(here, &mut self.contexts, &self.core, &changes, load);
        self.reply_to_interrupt(hart)
    }
}
