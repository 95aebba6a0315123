//! The destruction of an enclave.

ghost use Rattle.std.specs.Prelude.{◌≡◌, ◌<◌, ◌-◌, IfOk, IfErr, OnErr, None};
ghost use Rattle.enclave_table.specs.Tables.{IsCurrent};
ghost use Rattle.enclave_table.specs.Destroy.{Destroys};
ghost use Rattle.enclave_table.specs.Refusals.{RefusesBy};
ghost use Rattle.enclave_table.specs.Checks.{host_checks, MayDestroy};
ghost use Rattle.enclave_table.specs.Fewest.{NeedsMore};
ghost use Rattle.enclave_table.specs.Views.{host_view};
ghost use Rattle.enclave_table.specs.Enclaves.{with_enclave};

use crate::entry_list::EntryList;
use crate::refusal::Refusal;
use crate::table::Table;
use pmp_encoding::{PageRange, Perm};
use sbi_decode::World;

impl Table {
    /// Destroys an enclave. Returns its private pages, which the caller must zero.
    pub fn destroy(&mut self, world: World, id: u64) -> Result<PageRange, Refusal>
        requires { IsCurrent self.old.table world }
        ensures done { IfOk result (λ range.
            Destroys self.old.table world id range self.new.table) }
        ensures refused { IfErr result (λ refusal.
            RefusesBy (host_checks MayDestroy self.old.table world id)
            (NeedsMore self.old.table.layout.limit
            (host_view (with_enclave self.old.table id None))) refusal) }
        ensures kept { OnErr result (self.new ≡ self.old) }
    {
        self.cite_invariant();
        let enclave = self.checked_destroy(world, id)?;
        let range = enclave.parts.private_pages();
        let host = self.host_with(range, Perm::ReadWriteExecute)?;
        let list = EntryList::empty(self.alloc());
        self.place(id, None, host, list);
        Ok(range)
    }
}
