//! The checks of each call in order.

ghost use Rattle.std.specs.Prelude.{◌≡◌, ℕ, ◌<◌, ◌≤◌, ◌↔◌, IsTrue, IfOk, IfErr, true, false};
ghost use Rattle.enclave_table.specs.Enclaves.{Live, IsNextId};
ghost use Rattle.platforms.specs.Platform.{is_ram};
ghost use Rattle.measurement.specs.Requests.{ArePartsApart, HasCounts, HasPlaces, is_part};
ghost use Rattle.platforms.specs.CheckLists.{AllPass, FailsFirst};
ghost use Rattle.enclave_table.specs.Checks.{IsClear, create_checks, host_checks, MayDestroy};
ghost use Rattle.enclave_table.specs.Tables.{IsSound};
ghost use Rattle.enclave_table.specs.declared.enclave.Enclave.{Enclave};

use crate::enclave::{Enclave, Stage};
use crate::refusal::Refusal;
use crate::table::Table;
use measurement::Create;
use sbi_decode::World;

impl Table {
    /// Returns whether each page of the enclave is memory.
    fn is_in_ram(&self, parts: &Create) -> bool
        requires { HasCounts parts.now }
        ensures { IsTrue result
            ↔ ((page : ℕ) → is_part parts.now page ≡ true
            → is_ram self.now.table.layout page ≡ true) }
    {
        let platform = self.platform();
        platform.has_memory(parts.private_pages()) && platform.has_memory(parts.shared_pages())
    }

    /// Returns whether no page belongs to another enclave.
    fn is_clear_of_enclaves(&self, parts: &Create) -> bool
        requires { HasCounts parts.now }
        ensures { IsTrue result
            ↔ ((id : ℕ) (e : Enclave) → Live self.now.table id e
            → ArePartsApart parts.now e.parts) }
    {
        self.cite_invariant();
        for id in 1..65 {
            let Some(enclave) = self.find(id) else {
                continue;
            };
            if !parts.is_apart_from(&enclave.parts) {
                return false;
            }
        }
        true
    }

    /// Returns whether each page belongs to the host, and no page is both private and shared.
    fn is_clear(&self, parts: &Create) -> bool
        requires { HasCounts parts.now }
        ensures { IsTrue result ↔ IsClear self.now.table parts.now }
    {
        parts.is_clear_of(self.platform().monitor_pages())
            && self.is_clear_of_enclaves(parts)
            && parts.is_apart()
    }

    /// Returns the id for a new enclave with these parts, or the refusal of the first check that fails.
    pub(crate) fn checked_create(&self, world: World, parts: &Create) -> Result<u64, Refusal>
        ensures passes { IfOk result (λ id.
            AllPass (create_checks self.now.table world parts.now)) }
        ensures counts { IfOk result (λ _. HasCounts parts.now) }
        ensures places { IfOk result (λ _. HasPlaces parts.now) }
        ensures next { IfOk result (λ id. IsNextId self.now.table id) }
        ensures fails { IfErr result (λ refusal.
            FailsFirst (create_checks self.now.table world parts.now) refusal) }
    {
        if world != World::Host {
            return Err(Refusal::NotHost);
        }
        if !parts.has_counts() {
            return Err(Refusal::BadCount);
        }
        if !parts.has_places() {
            return Err(Refusal::BadAddress);
        }
        if !parts.has_entry() {
            return Err(Refusal::BadEntry);
        }
        if !self.is_in_ram(parts) {
            return Err(Refusal::NotRam);
        }
        if !self.is_clear(parts) {
            return Err(Refusal::Overlap);
        }
        let Some(id) = self.next_id() else {
            return Err(Refusal::TableFull);
        };
        Ok(id)
    }

    /// Returns the enclave with this id if it may be destroyed, or the refusal of the first check that fails.
    pub(crate) fn checked_destroy(&self, world: World, id: u64) -> Result<Enclave, Refusal>
        ensures passes { IfOk result (λ _.
            AllPass (host_checks MayDestroy self.now.table world id)) }
        ensures live { IfOk result (λ e. Live self.now.table id e) }
        ensures sound { IfOk result (λ e. IsSound self.now.table e.parts) }
        ensures above { IfOk result (λ _. 1 ≤ id) }
        ensures below { IfOk result (λ _. id ≤ 64) }
        ensures fails { IfErr result (λ refusal.
            FailsFirst (host_checks MayDestroy self.now.table world id) refusal) }
    {
        if world != World::Host {
            return Err(Refusal::NotHost);
        }
        let Some(enclave) = self.find(id) else {
            return Err(Refusal::BadId);
        };
        if enclave.state == Stage::Running {
            return Err(Refusal::BadState);
        }
        Ok(enclave)
    }
}
