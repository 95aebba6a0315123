//! The switch from one world to another.

ghost use Rattle.std.specs.Prelude.{◌≤◌, length};
ghost use Rattle.pmp_encoding.specs.Limits.{limit_number};
ghost use Rattle.pmp_encoding.specs.Banks.{HasList, IsBankOf};
ghost use Rattle.sbi_decode.specs.Runners.{IsWorld};
ghost use Rattle.context_switch.specs.Harts.{bank_of};
ghost use Rattle.context_switch.specs.Switch.{Switches};

use crate::contexts::Contexts;
use crate::hart::Hart;
use pmp_encoding::Entry;
use sbi_decode::World;

/// Switches the hart to the world `to`, the host or an enclave with an id from 1 to 64: saves the hart's registers as
/// those of the current world, loads those of the new one, and loads the entries, at most as many as the hart's bank
/// can hold. It always succeeds.
pub fn switch(hart: &mut Hart, contexts: &mut Contexts, to: World, entries: &[Entry])
    requires world { IsWorld to }
    requires entries { length entries.now ≤ limit_number (bank_of hart.old).limit }
    ensures switches { Switches hart.old hart.new contexts.old contexts.new to }
    ensures list { HasList (bank_of hart.new) entries.now }
    ensures bank { IsBankOf (bank_of hart.new) (bank_of hart.old).limit entries.now }
{
    contexts.set(hart.number(), hart.world, hart.registers);
    hart.registers = *contexts.saved(hart.number(), to);
    hart.world = to;
    hart.bank.load(entries);
}
