//! A map that is built range by range.

ghost use Rattle.std.specs.Prelude.{◌≡◌, ◌≤◌, ◌<◌, ◌+◌, ◌++◌, ◌^◌, ◌↔◌, List, [], length, Err, OnOk, OnErr, IfOk, option_to_list, vec_capacity};
ghost use Rattle.permission_map.specs.declared.runs.Run.{Run};
ghost use Rattle.permission_map.specs.declared.fault.MapFault as MapFault;
ghost use Rattle.permission_map.specs.Overwrite.{AreOverwritten, Becomes, SetsRange};
ghost use Rattle.permission_map.specs.Points.{IsBuilt, Rise, page_of, run_to, runs_of, turns};

use crate::changes::{MOST_IDLE, Setting, change};
use crate::fault::MapFault;
use crate::map::{Memory, PermissionMap};
use crate::overwrite::MOST_RUNS;
use crate::points::{Point, before, begun_at, begun_between, perm_after, stop, turn, up_to};
use crate::runs::Run;
use pmp_encoding::{Perm, SPACE_PAGES};
use std::alloc::{AllocError, Global};
use std::marker::Model;

/// Maximum number of points: two for each run and one more, the idle points, and two that are inserted before others
/// are removed.
const MOST_POINTS: usize = 2 * MOST_RUNS + MOST_IDLE + 3;

/// Number of points to allocate. At more than 128 KiB, the C library returns the block to the system when the map is
/// finished; a smaller block would stay in the process while a plan is made.
const ROOM: usize = 16 * 1024 + 1;

/// Builds a map from many ranges set one after another, such as the lines of a map file. Contracts see it as the runs
/// of the [`PermissionMap`] that it becomes. It stores the pages at which the permission changes: a range replaces the
/// few points inside it by at most two, or rewrites them in place. Space for all points is allocated with the first
/// run.
#[derive(Drop)]
pub struct MapBuilder {
    alloc: Global,
    points: Vec<Point>,
    runs: usize,
}

impl Model for MapBuilder {
    ghost use Rattle.std.specs.Prelude.{List, vec_capacity};
    ghost use Rattle.permission_map.specs.declared.runs.Run.{Run};
    ghost use Rattle.permission_map.specs.Points.{IsBuilt, runs_of, turns};

    ghost Value = { List Run };

    ghost view = { λ b. runs_of (turns b.points.items) };

    ghost invariant = { λ b. IsBuilt b.points.items b.runs (vec_capacity b.points) };
}

/// Returns the run from a point up to a page, unless it allows nothing.
fn run_at(point: Point, end: u64) -> Option<Run>
    requires { page_of point ≤ end }
    ensures { option_to_list result ≡ run_to end point }
{
    if !point.allows() {
        return None;
    }
    let first = point.page();
    Some(Run {
        first,
        count: end - first,
        perm: point.perm(),
    })
}

/// Appends the run from a point up to a page, unless it allows nothing.
fn push_run(point: Point, end: u64, runs: &mut Vec<Run>) -> Result<(), AllocError>
    requires { page_of point ≤ end }
    ensures { OnOk result (runs.new.items ≡ runs.old.items ++ run_to end point) }
{
    if let Some(run) = run_at(point, end) {
        runs.push(run)?;
    }
    Ok(())
}

/// Appends the runs between the points at which the permission changes.
fn push_runs(points: &[Point], runs: &mut Vec<Run>) -> Result<(), AllocError>
    requires { Rise points.now }
    ensures { OnOk result (runs.new.items ≡ runs.old.items ++ runs_of (turns points.now)) }
{
    let mut turn = Point::new(0, Perm::NoAccess);
    let mut rest = points;
    'points: while let Some((point, behind)) = rest.split_first() {
        if point.perm() != turn.perm() {
            push_run(turn, point.page(), runs)?;
            turn = *point;
        }
        rest = behind;
    }
    push_run(turn, SPACE_PAGES, runs)
}

/// Allocates space for the maximum number of points, if there is no run yet.
fn make_room(points: &mut Vec<Point>, runs: usize) -> Result<(), AllocError>
    requires { 0 < runs → 12291 ≤ vec_capacity points.old }
    ensures items { points.new.items ≡ points.old.items }
    ensures room { OnOk result (12291 ≤ vec_capacity points.new) }
    ensures first { OnErr result (runs ≡ 0) }
{
    if runs == 0 && points.capacity() < MOST_POINTS {
        points.reserve(ROOM)?;
    }
    Ok(())
}

/// Sets the permission of the `count` pages from `first` on, or fails and leaves the points unchanged. `runs` counts
/// the runs.
fn overwrite(
    points: &mut Vec<Point>,
    runs: &mut usize,
    first: u64,
    count: u64,
    perm: Perm,
) -> Result<(), MapFault>
    requires built { IsBuilt points.old.items runs.old (vec_capacity points.old) }
    requires inside { first + count ≤ 2 ^ 44 }
    ensures built { IsBuilt points.new.items runs.new (vec_capacity points.new) }
    ensures wanted { (wanted : List Run) × AreOverwritten
        (runs_of (turns points.old.items)) first count perm wanted
        × Becomes (runs_of (turns points.old.items)) (runs_of (turns points.new.items)) wanted
        result }
    ensures first { result ≡ Err MapFault.Memory → runs.old ≡ 0 }
{
    if count == 0 {
        return Ok(());
    }
    let end = first + count;
    let row = points.as_slice();
    let from = before(row, first);
    let to = up_to(row, from, end);
    let start = turn(perm_after(row, from), first, perm);
    let stop = stop(perm, end, perm_after(row, to));
    let gone = begun_between(row, from, to);
    let wanted = *runs - gone + begun_at(&start) + begun_at(&stop);
    if wanted > MOST_RUNS {
        return Err(MapFault::TooManyRanges);
    }
    if *runs + wanted == 0 {
        return Ok(());
    }
    let Ok(()) = make_room(points, *runs) else {
        return Err(MapFault::Memory);
    };
    change(points, from, to, Setting { first, end, perm }, start, stop);
    *runs = wanted;
    Ok(())
}

impl MapBuilder {
    /// Returns the map that allows nothing on any page.
    pub fn new(alloc: Global) -> MapBuilder
        ensures { result ≡ [] }
    {
        MapBuilder {
            alloc,
            points: Vec::new(alloc),
            runs: 0,
        }
    }

    /// Sets the permission of the `count` pages from `first` on, as [`PermissionMap::set_range`] does. Only the first
    /// run allocates.
    pub fn set_range(&mut self, first: u64, count: u64, perm: Perm) -> Result<(), MapFault>
        ensures sets { SetsRange self.old first count perm self.new result }
        ensures first { result ≡ Err MapFault.Memory → self.old ≡ [] }
    {
        if first > SPACE_PAGES || count > SPACE_PAGES - first {
            return Err(MapFault::PastEnd);
        }
        overwrite(&mut self.points, &mut self.runs, first, count, perm)
    }

    /// Converts the builder into a map. Fails only if an allocation fails, which a map without runs does not need.
    pub fn finish(self) -> Result<PermissionMap, Memory>
        ensures map { IfOk result (λ map. map ≡ self) }
        ensures memory { OnErr result (0 < length self) }
    {
        if self.runs == 0 {
            return Ok(PermissionMap::new(self.alloc));
        }
        let mut runs = Vec::with_capacity(self.alloc, self.runs)?;
        push_runs(&self.points, &mut runs)?;
        Ok(PermissionMap::of_runs(runs))
    }
}
