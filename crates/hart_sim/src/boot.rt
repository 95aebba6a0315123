//! The machine at boot.

use crate::Memory;
use crate::parts::MachineParts;
use context_switch::{Contexts, Hart};
use monitor_core::{BootFault, Core, Platform};
use std::alloc::Global;

impl MachineParts {
    ghost use Rattle.std.specs.Prelude.{◌≡◌, IfOk, IfErr};
    ghost use Rattle.enclave_table.specs.Boot.{IsBootFault, opening_table};
    ghost use Rattle.enclave_table.specs.Fewest.{FitsIn};
    ghost use Rattle.platforms.specs.Platform.{IsLayout};
    ghost use Rattle.enclave_table.specs.Views.{host_view};
    ghost use Rattle.hart_sim.specs.Banks.{AreBanksRight};
    ghost use Rattle.hart_sim.specs.Parts.{FitTogether, state_in, bank_in};
    ghost use Rattle.hart_sim.specs.States.{opening_state};

    /// Boots the machine of a platform: no enclave, nothing written, and the host's entries on each hart.
    pub(crate) fn boot(alloc: Global, platform: Platform) -> Result<MachineParts, BootFault>
        ensures state { IfOk result (λ p. state_in p ≡ opening_state platform) }
        ensures rules { IfOk result (λ _. IsLayout platform) }
        ensures fit { IfOk result (λ p. FitTogether p) }
        ensures banks { IfOk result (λ p. AreBanksRight (state_in p) (bank_in p)) }
        ensures fits { IfOk result (λ _. FitsIn platform.limit
            (host_view (opening_table platform))) }
        ensures fault { IfErr result (λ fault. IsBootFault platform fault) }
    {
        let core = match Core::boot(alloc, platform) {
            Ok(core) => core,
            Err(fault) => return Err(fault),
        };
        let entries = core.entries(0);
        let limit = core.table().limit();
        let harts = [
            Hart::new(0, entries, limit),
            Hart::new(1, entries, limit),
            Hart::new(2, entries, limit),
            Hart::new(3, entries, limit),
        ];
        Ok(MachineParts {
            alloc,
            core,
            memory: Memory::new(alloc),
            harts,
            contexts: Contexts::new(),
        })
    }
}
