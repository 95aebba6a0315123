//! The entries of the view of a world.

use crate::parts::MonitorParts;
use enclave_table::World;
use pmp_encoding::Entry;

impl MonitorParts {
    ghost use Rattle.std.specs.Prelude.{◌≡◌, ◌<◌, IfNone, IfSome};
    ghost use Rattle.enclave_table.specs.Fewest.{IsListOf};
    ghost use Rattle.enclave_table.specs.Views.{current_view};
    ghost use Rattle.monitor_core.specs.Cores.{list_of};
    ghost use Rattle.monitor_core.specs.Parts.{HoldsTogether, world_in};
    ghost use Rattle.monitor_core.specs.Worlds.{IsNoWorld};

    /// Returns the fewest entries that mean the view of a world: the host's, or that of a live enclave.
    pub(crate) fn entries_of(&self, world: World) -> Option<&[Entry]>
        ensures none { IfNone result (IsNoWorld self.now.table.table world) }
        ensures value { IfSome result (λ entries. entries.now ≡ list_of self.now.table world) }
        ensures list { IfSome result (λ entries. IsListOf self.now.table.table.layout.limit
            (current_view self.now.table.table world) entries.now) }
    {
        match world {
            World::Host => Some(self.table.host_entries()),
            World::Enclave(id) => self.table.enclave_entries(id),
        }
    }

    /// Returns the fewest entries that mean the view of the world on a hart.
    pub(crate) fn entries(&self, hart: u8) -> &[Entry]
        requires hart { hart < 4 }
        requires whole { HoldsTogether self.now.table self.now.worlds self.now.marked }
        ensures value { result.now ≡ list_of self.now.table (world_in self.now.worlds hart) }
        ensures list { IsListOf self.now.table.table.layout.limit
            (current_view self.now.table.table (world_in self.now.worlds hart)) result.now }
    {
        let Some(entries) = self.entries_of(self.world(hart)) else {
            unreachable!();
        };
        entries
    }
}
