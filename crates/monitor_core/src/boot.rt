//! The core at boot.

use crate::parts::MonitorParts;
use enclave_table::{Table, World};
use platforms::{BootFault, Platform};
use std::alloc::Global;

impl MonitorParts {
    ghost use Rattle.std.specs.Prelude.{◌≡◌, IfOk, IfErr};
    ghost use Rattle.enclave_table.specs.Boot.{IsBootFault, opening_table};
    ghost use Rattle.enclave_table.specs.Fewest.{FitsIn};
    ghost use Rattle.enclave_table.specs.Views.{host_view};
    ghost use Rattle.monitor_core.specs.Parts.{HoldsTogether, bare};
    ghost use Rattle.monitor_core.specs.States.{opening_monitor};

    /// Returns the parts of a platform at boot: no enclave, each hart in the host's world, no hart marked.
    pub(crate) fn boot(alloc: Global, platform: Platform) -> Result<MonitorParts, BootFault>
        ensures state { IfOk result (λ p. bare p ≡ opening_monitor platform) }
        ensures whole { IfOk result (λ p. HoldsTogether p.table p.worlds p.marked) }
        ensures fits { IfOk result (λ _. FitsIn platform.limit
            (host_view (opening_table platform))) }
        ensures fault { IfErr result (λ fault. IsBootFault platform fault) }
    {
        let _harts = platform.harts();
        let table = match Table::boot(alloc, platform) {
            Ok(table) => table,
            Err(fault) => return Err(fault),
        };
        Ok(MonitorParts {
            table,
            worlds: [World::Host; 4],
            marked: [false; 4],
        })
    }
}
