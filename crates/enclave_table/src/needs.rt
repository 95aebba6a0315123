//! The number of entries that the views need after a creation or a destruction.

ghost use Rattle.std.specs.Prelude.{IfOk, IfSome, IfNone, None};
ghost use Rattle.pmp_match.specs.Meaning.{Needs};
ghost use Rattle.enclave_table.specs.Checks.{create_checks, host_checks, MayDestroy};
ghost use Rattle.enclave_table.specs.Enclaves.{with_enclave};
ghost use Rattle.enclave_table.specs.Needs.{NeedsWithCreated};
ghost use Rattle.platforms.specs.CheckLists.{AllPass};
ghost use Rattle.measurement.specs.Requests.{parts_of};
ghost use Rattle.enclave_table.specs.Views.{host_view, enclave_view};

use crate::planned::enclave_plan;
use crate::table::Table;
use measurement::Create;
use permission_map::Memory;
use pmp_encoding::Perm;
use sbi_decode::World;

/// The number of entries that the views need after a creation.
#[derive(Clone, Copy, PartialEq, Eq)]
pub struct CreateNeeds {
    /// The number for the host's view without the pages of the new enclave.
    pub host: u32,
    /// The number for the enclave's own view.
    pub own: u32,
}

impl Table {
    /// Returns the number of entries that the views would need after a creation, even if a hart has fewer, or `None` if
    /// another check fails. Changes nothing.
    pub fn needed_by_create(
        &self,
        world: World,
        asked: Create,
    ) -> Result<Option<CreateNeeds>, Memory>
        ensures passes { IfOk result (λ answer. IfSome answer (λ _.
            AllPass (create_checks self.now.table world (parts_of asked)))) }
        ensures none { IfOk result (λ answer. IfNone answer
            (AllPass (create_checks self.now.table world (parts_of asked)) → ⊥)) }
        ensures host { IfOk result (λ answer. IfSome answer (λ needs.
            NeedsWithCreated self.now.table asked needs.host)) }
        ensures own { IfOk result (λ answer. IfSome answer (λ needs.
            Needs (enclave_view (parts_of asked)) needs.own)) }
    {
        self.cite_invariant();
        let parts = asked.normalized();
        let Ok(_id) = self.checked_create(world, &parts) else {
            return Ok(None);
        };
        let host = self.host_plan(parts.private_pages(), Perm::NoAccess)?;
        let own = enclave_plan(self.alloc(), &parts)?;
        Ok(Some(CreateNeeds {
            host: host.plan.needed(),
            own: own.needed(),
        }))
    }

    /// Returns the number of entries that the host's view would need after a destruction, even if a hart has fewer, or
    /// `None` if another check fails. Changes nothing.
    pub fn needed_by_destroy(&self, world: World, id: u64) -> Result<Option<u32>, Memory>
        ensures passes { IfOk result (λ answer. IfSome answer (λ _.
            AllPass (host_checks MayDestroy self.now.table world id))) }
        ensures none { IfOk result (λ answer. IfNone answer
            (AllPass (host_checks MayDestroy self.now.table world id) → ⊥)) }
        ensures host { IfOk result (λ answer. IfSome answer
            (Needs (host_view (with_enclave self.now.table id None)))) }
    {
        self.cite_invariant();
        let Ok(enclave) = self.checked_destroy(world, id) else {
            return Ok(None);
        };
        let host = self.host_plan(enclave.parts.private_pages(), Perm::ReadWriteExecute)?;
        Ok(Some(host.plan.needed()))
    }
}
