//! A map: a permission for each page of the space.

ghost use Rattle.std.specs.Prelude.{◌≡◌, ◌≤◌, ◌<◌, ◌+◌, ◌%◌, ◌^◌, ◌↔◌, ℕ, List, [], length, Err, OnOk, OnErr, IfOk, IfSome, IfNone, MatchOption};
ghost use Rattle.pmp_encoding.specs.declared.perm.Perm.{Perm};
ghost use Rattle.pmp_encoding.specs.declared.perm.Perm.TheVariants.{NoAccess};
ghost use Rattle.pmp_encoding.specs.Views.{IsUniform};
ghost use Rattle.permission_map.specs.declared.runs.Run.{Run};
ghost use Rattle.permission_map.specs.declared.fault.MapFault as MapFault;
ghost use Rattle.permission_map.specs.Runs.{AreRuns, view_of_runs};
ghost use Rattle.permission_map.specs.Overwrite.{SetsRange};
ghost use Rattle.permission_map.specs.Search.{IsNext};

use crate::fault::MapFault;
use crate::overwrite::overwrite;
use crate::runs::Run;
use crate::search::next;
use pmp_encoding::{Perm, SPACE_PAGES, pages_of};
use std::alloc::{AllocError, Global};
use std::marker::Model;

/// An allocation failed.
pub type Memory = AllocError;

/// A permission for each page of the space. Contracts see it as its maximal runs of a permission other than none, of
/// which it has at most 4096.
#[derive(Drop)]
pub struct PermissionMap {
    runs: Vec<Run>,
}

impl Model for PermissionMap {
    ghost use Rattle.std.specs.Prelude.{◌≤◌, List, length};
    ghost use Rattle.permission_map.specs.declared.runs.Run.{Run};

    ghost Value = { List Run };

    ghost use Rattle.permission_map.specs.Runs.{AreRuns};

    ghost view = { λ m. m.runs.items };

    ghost invariant = { λ m. AreRuns m.runs.items × (length m.runs.items ≤ 4096) };
}

impl PermissionMap {
    /// Returns the map that allows nothing on any page.
    pub fn new(alloc: Global) -> PermissionMap
        ensures runs { result ≡ [] }
        ensures none { (page : ℕ) → view_of_runs result page ≡ NoAccess }
    {
        PermissionMap {
            runs: Vec::new(alloc),
        }
    }

    /// Returns the map with these runs.
    pub(crate) fn of_runs(runs: Vec<Run>) -> PermissionMap
        requires runs { AreRuns runs.items }
        requires most { length runs.items ≤ 4096 }
        ensures { result ≡ runs.items }
    {
        PermissionMap { runs }
    }

    /// Returns the maximal runs of a permission other than none, by ascending page: at most 4096.
    pub fn ranges(&self) -> &[Run]
        ensures value { result.now ≡ self.now }
        ensures runs { AreRuns self.now }
        ensures most { length self.now ≤ 4096 }
    {
        self.runs.as_slice()
    }

    /// Returns the run that contains the page, otherwise the first run after it, or `None` if no page from this one on
    /// has a permission.
    pub fn next_run(&self, page: u64) -> Option<Run>
        ensures { MatchOption result ((q : ℕ) → page ≤ q
            → view_of_runs self.now q ≡ NoAccess)
            (λ run. IsNext self.now page run) }
    {
        next(&self.runs, page)
    }

    /// Returns the permission of a page, by its number below `2 ^ 44`.
    pub fn get(&self, page: u64) -> Perm
        requires { page < 2 ^ 44 }
        ensures { result ≡ view_of_runs self.now page }
    {
        match self.next_run(page) {
            Some(run) if run.first <= page => run.perm,
            _ => Perm::NoAccess,
        }
    }

    /// Returns the permission of all pages of a block, or `None` if they have different ones. The block is the `2 ^
    /// log2` pages from `first` on, aligned to its size and inside the space.
    pub fn uniform(&self, first: u64, log2: u32) -> Option<Perm>
        requires aligned { first % 2 ^ log2 ≡ 0 }
        requires inside { first + 2 ^ log2 ≤ 2 ^ 44 }
        ensures some { IfSome result (IsUniform (view_of_runs self.now) log2 first) }
        ensures none { IfNone result ((perm : Perm)
            → ¬ IsUniform (view_of_runs self.now) log2 first perm) }
    {
        let end = first + pages_of(log2);
        let Some(run) = self.next_run(first) else {
            return Some(Perm::NoAccess);
        };
        if run.first >= end {
            return Some(Perm::NoAccess);
        }
        if run.first > first || run.first + run.count < end {
            return None;
        }
        Some(run.perm)
    }

    /// Copies the map. Fails only if an allocation fails, which a map without runs does not need.
    pub fn try_clone(&self) -> Result<PermissionMap, Memory>
        ensures copy { IfOk result (λ copy. copy ≡ self.now) }
        ensures memory { OnErr result (0 < length self.now) }
    {
        if self.runs.is_empty() {
            return Ok(PermissionMap::new(*self.runs.allocator()));
        }
        let runs = Vec::from_slice(*self.runs.allocator(), &self.runs)?;
        Ok(PermissionMap { runs })
    }

    /// Sets the permission of the `count` pages from `first` on, and of no other page. On an error, described at
    /// [`MapFault`], the map is unchanged. An empty range changes nothing.
    pub fn set_range(&mut self, first: u64, count: u64, perm: Perm) -> Result<(), MapFault>
        ensures { SetsRange self.old first count perm self.new result }
    {
        if first > SPACE_PAGES || count > SPACE_PAGES - first {
            return Err(MapFault::PastEnd);
        }
        overwrite(&mut self.runs, first, count, perm)
    }
}
