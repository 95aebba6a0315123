//! The blocks of a map, for which no tree is built.

ghost use Rattle.std.specs.Prelude.{◌≡◌, ◌*◌, ◌≤◌, length, count_by, nat_lt, nat_le, ◌-◌};
ghost use Rattle.permission_map.specs.Runs.{AreRuns, view_of_runs};
ghost use Rattle.prefix_tree.specs.Joined.{one_perm};
ghost use Rattle.prefix_tree.specs.Slices.{AreBlockRuns};
ghost use Rattle.prefix_tree.specs.Counts.{runs_in, splits};
ghost use Rattle.prefix_tree.specs.Trees.{Fits};
ghost use Rattle.prefix_tree.specs.TreeOf.{tree_at, tree_of};

use crate::chains::{Chain, edges_of, part_around};
use crate::halving::Halving;
use permission_map::{PermissionMap, Run};
use pmp_encoding::{Perm, pages_of};
use std::marker::Model;

/// A block of the pages of a map, with the runs that have a page in it. Contracts see it as the canonical tree of its
/// view.
#[derive(Drop)]
pub struct MapBlock<'a> {
    runs: &'a [Run],
    first: u64,
    height: u32,
}

impl<'a> Model for MapBlock<'a> {
    ghost use Rattle.prefix_tree.specs.Trees.{PermTree};
    ghost use Rattle.prefix_tree.specs.Coding.{tree_code};

    ghost Value = { PermTree };

    ghost coded = { tree_code };

    ghost use Rattle.permission_map.specs.Runs.{view_of_runs};
    ghost use Rattle.prefix_tree.specs.Slices.{AreBlockRuns};
    ghost use Rattle.prefix_tree.specs.TreeOf.{tree_at};

    ghost view = { λ b. tree_at (view_of_runs b.runs.now) b.height b.first };

    ghost invariant = { λ b. AreBlockRuns b.runs.now b.first b.height };
}

/// Maximum number of runs that are counted one by one, which needs no branch on a run. More runs are searched by
/// bisection: counting one by one would visit all of them again at each height.
const FEW: usize = 8;

/// Counts the runs that begin before the page.
fn begun_before(runs: &[Run], page: u64) -> usize
    requires { AreRuns runs.now }
    ensures count { result ≡ count_by (λ run. nat_lt run.first page) runs.now }
    ensures inside { result ≤ length runs.now }
{
    if runs.len() > FEW {
        return runs.partition_point(|run| run.first < page);
    }
    runs.iter().filter(|run| run.first < page).count()
}

/// Counts the runs that end before the page: those that begin before it, except the last if it continues to the page.
fn ended_before(runs: &[Run], begun: usize, page: u64) -> usize
    requires runs { AreRuns runs.now }
    requires inside { begun ≤ length runs.now }
    requires begun { begun ≡ count_by (λ run. nat_lt run.first page) runs.now }
    ensures { result ≡ count_by (λ run. nat_le run.count (page - run.first)) runs.now }
{
    if begun == 0 {
        return 0;
    }
    let last = runs[begun - 1];
    if page.saturating_sub(last.first) < last.count {
        return begun - 1;
    }
    begun
}

/// Returns the permission of the 2^height pages from `first` on, given the runs that meet them, if the pages are
/// uniform.
fn uniform_perm(runs: &[Run], first: u64, height: u32) -> Option<Perm>
    requires { AreBlockRuns runs.now first height }
    ensures { result ≡ one_perm (tree_at (view_of_runs runs.now) height first) }
{
    let [run, ..] = runs else {
        return Some(Perm::NoAccess);
    };
    let end = first + pages_of(height);
    if run.first <= first && end - run.first <= run.count {
        return Some(run.perm);
    }
    None
}

impl<'a> MapBlock<'a> {
    /// Returns the whole space of a map. It has at most 88 split blocks for each run of the map: 44 on the path down to
    /// either end of the run.
    pub fn of(map: &'a PermissionMap) -> MapBlock<'a>
        ensures tree { result ≡ tree_of (view_of_runs map.now) }
        ensures fits { Fits 44 result }
        ensures runs { runs_in result ≡ length map.now }
        ensures most { length map.now ≤ 4096 }
        ensures splits { splits result ≤ 88 * length map.now }
    {
        MapBlock {
            runs: map.ranges(),
            first: 0,
            height: 44,
        }
    }
}

impl<'a> Halving for MapBlock<'a> {
    ghost shape = { λ b. b };

    fn one_perm(&self) -> Option<Perm> {
        uniform_perm(self.runs, self.first, self.height)
    }

    fn chain(&self) -> Option<(Chain, MapBlock<'a>)> {
        let [run] = self.runs else {
            return None;
        };
        let edges = edges_of(run, self.first, self.height);
        let part = part_around(self.first, self.height, edges);
        if part.levels == 0 {
            return None;
        }
        let chain = Chain {
            levels: part.levels,
            place: part.place,
            before: edges.before,
            behind: edges.behind,
        };
        let smallest = MapBlock {
            runs: self.runs,
            first: part.first,
            height: self.height - part.levels,
        };
        Some((chain, smallest))
    }

    fn halves(&self) -> (MapBlock<'a>, MapBlock<'a>) {
        let height = self.height - 1;
        let middle = self.first + pages_of(height);
        let begun = begun_before(self.runs, middle);
        let lower = MapBlock {
            runs: &self.runs[..begun],
            first: self.first,
            height,
        };
        let upper = MapBlock {
            runs: &self.runs[ended_before(self.runs, begun, middle)..],
            first: middle,
            height,
        };
        (lower, upper)
    }
}
