//! Applies the monitor's changes to the registers on a hart and to the saved ones.

ghost use Rattle.std.specs.Prelude.{◌≡◌, ◌≤◌, ◌<◌, ◌∷◌, []};
ghost use Rattle.pmp_encoding.specs.Limits.{limit_number};
ghost use Rattle.sbi_decode.specs.Registers.{with_x};
ghost use Rattle.sbi_decode.specs.Runners.{IsWorld, Runner, runner_of};
ghost use Rattle.context_switch.specs.Harts.{bank_of, number_of, registers_of, with_registers, world_of};
ghost use Rattle.monitor_core.specs.Changes.{is_same};
ghost use Rattle.monitor_core.specs.Cores.{core_kept};
ghost use Rattle.monitor_core.specs.SetChanges.{AreOfSets, change};
ghost use Rattle.hart_sim.specs.Changes.{call_places, with_words};
ghost use Rattle.hart_sim.specs.Parts.{registers_in};
ghost use Rattle.hart_sim.specs.Follows.{Follows};

use crate::call_registers::put_words;
use context_switch::{Contexts, Hart, switch};
use monitor_core::{ChangeKind, Core, SetChange, SetChanges, World};
use sbi_decode::Registers;

/// Sets a register of the world on a hart.
#[inline(always)]
pub(crate) fn set_register(here: &mut Hart, n: u8, value: u64)
    requires { n < 32 }
    ensures { here.new ≡ with_registers here.old (with_x (registers_of here.old) n value) }
{
    here.registers_mut().set(n as usize, value);
}

/// Writes the words of a call to the registers of the world on a hart; missing words leave their registers unchanged.
pub(crate) fn put_call(here: &mut Hart, words: &[u64])
    ensures { here.new ≡ with_registers here.old (with_words (registers_of here.old)
        call_places words.now) }
{
    put_words(here.registers_mut(), words);
}

/// Applies one change of a register set: on the hart if the set is in use there, otherwise to the saved set.
fn change(here: &mut Hart, contexts: &mut Contexts, told: &SetChange)
    requires { told.now.enclave ≤ 64 }
    ensures sets { (who : Runner) → registers_in (here.new ∷ []) contexts.new who
        ≡ change (number_of here.old) told.now (registers_in (here.old ∷ []) contexts.old) who }
    ensures number { number_of here.new ≡ number_of here.old }
    ensures world { world_of here.new ≡ world_of here.old }
    ensures bank { bank_of here.new ≡ bank_of here.old }
{
    if told.kind == ChangeKind::Nothing {
        return;
    }
    let world = told.world();
    if runs(here, here.number(), world) {
        told.apply(here.registers_mut());
        return;
    }
    let mut set = contexts.get(here.number(), world);
    told.apply(&mut set);
    contexts.set(here.number(), world, set);
}

/// Applies the monitor's changes of register sets after an event on a hart, and loads the entries of the hart's world
/// if requested.
pub(crate) fn follow(
    here: &mut Hart,
    contexts: &mut Contexts,
    core: &Core,
    changes: &SetChanges,
    load: bool,
)
    requires sets { AreOfSets changes.now }
    requires limited { limit_number (bank_of here.old).limit
        ≡ limit_number (core_kept core.now).table.layout.limit }
    ensures { Follows core.now changes.now load here.old here.new contexts.old contexts.new }
{
    change(here, contexts, &changes.first);
    change(here, contexts, &changes.second);
    if !load {
        change(here, contexts, &changes.third);
        return;
    }
    let number = here.number();
    switch(here, contexts, core.world(number), core.entries(number));
    change(here, contexts, &changes.third);
}

/// Returns whether a hart runs this enclave, or the host of the hart with this number.
fn runs(here: &Hart, number: u8, world: World) -> bool
    ensures { result ≡ is_same (runner_of number world)
        (runner_of (number_of here.now) (world_of here.now)) }
{
    match world {
        World::Host => match here.world() {
            World::Host => number == here.number(),
            World::Enclave(_) => false,
        },
        World::Enclave(id) => match here.world() {
            World::Host => false,
            World::Enclave(other) => id == other,
        },
    }
}

/// Borrows the registers of the host on a hart, or of an enclave: those of the hart that runs it, otherwise the saved
/// ones.
pub(crate) fn registers_of<'a>(
    harts: &'a [Hart],
    contexts: &'a Contexts,
    number: u8,
    world: World,
) -> &'a Registers
    requires hart { number < 4 }
    requires world { IsWorld world }
    ensures { result.now ≡ registers_in harts.now contexts.now (runner_of number world) }
{
    let [first, rest @ ..] = harts else {
        return contexts.saved(number, world);
    };
    if runs(first, number, world) {
        return first.registers();
    }
    registers_of(rest, contexts, number, world)
}
