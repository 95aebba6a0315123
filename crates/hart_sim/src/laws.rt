//! Laws of the machine: the headline, and other laws of every run.

ghost use Rattle.std.specs.Prelude.{◌≡◌, ℕ, List, Option};
ghost use Rattle.pmp_encoding.specs.declared.bank.Bank.{Bank};
ghost use Rattle.enclave_table.specs.Tables.{IsTable};
ghost use Rattle.hart_trace.specs.declared.event.Event.{Event};
ghost use Rattle.hart_trace.specs.declared.reply.Reply.{Reply};
ghost use Rattle.platforms.specs.Platform.{PlatformLayout};
ghost use Rattle.hart_sim.specs.declared.machine.Machine.{Machine};
ghost use Rattle.hart_sim.specs.After.{After};
ghost use Rattle.hart_sim.specs.States.{MachineState};
ghost use Rattle.hart_sim.specs.Steps.{Step};
ghost use Rattle.hart_sim.specs.Headline.{Headline};
ghost use Rattle.hart_sim.specs.Loaded.{Loaded, StaysRight};
ghost use Rattle.hart_sim.specs.Machines.{bank_on, state_of};
ghost use Rattle.hart_sim.specs.Privacy.{IsPrivate, KeepsPrivate};
ghost use Rattle.hart_sim.specs.Promises.{Promises};
ghost use Rattle.hart_sim.specs.Reports.{IsReported};
ghost use Rattle.hart_sim.specs.Wants.{CreatesByNeed, DestroysByNeed};
ghost use Rattle.hart_sim.specs.Worlds.{RunsKeepWorlds};

/// The headline's claim about loaded entries, without the machine: if each event is a step of the small machine that
/// leaves the right entries on its own hart and changes no other bank, the entries are right on every hart that is not
/// marked. Boot establishes such a machine, and each step preserves it.
pub fn loaded_law()
    ensures small { (platform : PlatformLayout) (events : List (ℕ × Event))
        (replies : List Reply) (s : MachineState) (banks : ℕ → Option Bank)
        → Loaded platform events replies s banks
        → StaysRight platform events replies s banks }
    ensures machine { (platform : PlatformLayout) (events : List (ℕ × Event))
        (replies : List Reply) (machine : Machine)
        → After platform events replies machine
        → Loaded platform events replies (state_of machine) (bank_on machine) }
{}

/// The headline, for a machine after boot and any list of events: the replies are a run of the small machine; on each
/// hart that is not marked the loaded list means the view of its world, and no shorter list does; each event was judged
/// and answered correctly; and the worlds and the table are sound.
pub fn headline_law()
    ensures { (platform : PlatformLayout) (events : List (ℕ × Event))
        (replies : List Reply)
        (machine : Machine)
        → After platform events replies machine
        → Headline platform events replies machine }
{}

/// The promises of each step from a sound table: accesses are answered by the view, private bytes are kept, accesses to
/// them by other worlds are denied, destroyed pages are zero, `NoEntries` is returned only if entries are too few, and
/// the table is sound afterwards.
pub fn step_law()
    ensures { (old : MachineState) (hart : ℕ) (event : Event) (reply : Reply) (new : MachineState)
        → IsTable old.table
        → Step old hart event reply new → Promises old hart event reply new }
{}

/// The effect of the interpreted lines is a run of their events; the text contains its replies; each bank is the one
/// that the hart's own last event left; and if the machine is one after boot and some events, it is afterwards one
/// after these and the new events.
pub fn report_law()
    ensures { IsReported }
{}

/// If an enclave runs in two states that it cannot tell apart, its accesses and register settings may be answered alike
/// in both, and it still cannot tell the resulting states apart; nothing else changes in them.
pub fn privacy_law()
    ensures { IsPrivate }
{}

/// A step preserves each byte of a page that is private to an enclave before and after it, except for completed stores
/// by the enclave that its view allowed.
pub fn private_bytes_law()
    ensures { (old : MachineState) (hart : ℕ) (event : Event) (reply : Reply) (new : MachineState)
        → IsTable old.table
        → Step old hart event reply new → KeepsPrivate old hart event reply new }
{}

/// A step preserves the platform.
pub fn platform_law()
    ensures { (old : MachineState) (hart : ℕ) (event : Event) (reply : Reply) (new : MachineState)
        → Step old hart event reply new → new.table.layout ≡ old.table.layout }
{}

/// A creation that passes its other checks fails with `NoEntries` only if the host's view after it, or the new
/// enclave's, would need more entries than a hart has. If one would, it fails with `NoEntries` or `NoMemory`.
pub fn creation_law()
    ensures { CreatesByNeed }
{}

/// A destruction that passes its other checks fails with `NoEntries` only if the host's view after it would need more
/// entries than a hart has. If it would, the call fails with `NoEntries` or `NoMemory`.
pub fn destruction_law()
    ensures { DestroysByNeed }
{}

/// After every run from the opening state, each hart is in the host's world or in that of a Running enclave, each
/// Running enclave runs on exactly one hart, and a marked hart is in the host's world.
pub fn worlds_law()
    ensures { RunsKeepWorlds }
{}
