//! Writes a range into the points of a map.

ghost use Rattle.std.specs.Prelude.{◌≡◌, ◌≤◌, ◌<◌, ◌+◌, ◌-◌, ◌^◌, ◌++◌, ◌∷◌, Some, length, map, take, drop, option_to_list, vec_len, vec_capacity};
ghost use Rattle.pmp_encoding.specs.declared.perm.Perm.TheVariants.{NoAccess};
ghost use Rattle.permission_map.specs.Points.{IsChanged, IsCut, IsStop, IsTurn, Rise, standing, turns, with_perm};

use crate::points::{Point, perm_after};
use pmp_encoding::{Perm, SPACE_PAGES};

/// Maximum number of idle points, at which the permission does not change.
pub(crate) const MOST_IDLE: usize = 4096;

/// Maximum number of points in a range that are rewritten in place. If there are more, most are removed.
const MOST_WRITTEN: usize = 8;

/// Writes a point at index `at`: over the point there if `at` is before `end`, otherwise by insertion. Returns the new
/// index of the point that was at `end`.
fn put(points: &mut Vec<Point>, at: usize, end: usize, point: Point) -> usize
    requires order { at ≤ end }
    requires inside { end ≤ vec_len points.old }
    requires room { vec_len points.old < vec_capacity points.old }
    ensures front { take (at + 1) points.new.items ≡ take at points.old.items
        ++ option_to_list (Some point) }
    ensures back { drop result points.new.items ≡ drop end points.old.items }
    ensures order { at + 1 ≤ result }
    ensures inside { result ≤ vec_len points.new }
    ensures at_most { vec_len points.new ≤ vec_len points.old + 1 }
    ensures longer { vec_len points.new + end ≡ vec_len points.old + result }
    ensures room { vec_capacity points.old ≤ vec_capacity points.new }
{
    if at < end {
        points[at] = point;
        return end;
    }
    let Ok(()) = points.insert(at, point) else {
        unreachable!();
    };
    end + 1
}

/// Inserts two points at an index. The points from there on move once for both, because such moves dominate the time
/// for maps whose lines are unordered.
fn put_two(points: &mut Vec<Point>, at: usize, start: Point, stop: Point)
    requires inside { at ≤ vec_len points.old }
    requires room { vec_len points.old + 2 ≤ vec_capacity points.old }
    ensures items { points.new.items ≡ take at points.old.items ++
        (start ∷ stop ∷ drop at points.old.items) }
    ensures room { vec_capacity points.old ≤ vec_capacity points.new }
{
    let len = points.len();
    let Ok(()) = points.push(start) else {
        unreachable!();
    };
    let Ok(()) = points.push(stop) else {
        unreachable!();
    };
    points.copy_within(at..len, at + 2);
    points[at] = start;
    points[at + 1] = stop;
}

/// Replaces the points `from..to` by at most two. It is not inlined, so that the placement of its loops does not depend
/// on its callers.
#[inline(never)]
fn replace(
    points: &mut Vec<Point>,
    from: usize,
    to: usize,
    start: Option<Point>,
    stop: Option<Point>,
)
    requires order { from ≤ to }
    requires inside { to ≤ vec_len points.old }
    requires room { vec_len points.old + 2 ≤ vec_capacity points.old }
    ensures items { points.new.items ≡ take from points.old.items ++
        (option_to_list start ++ (option_to_list stop ++ drop to points.old.items)) }
    ensures room { vec_capacity points.old ≤ vec_capacity points.new }
{
    if from == to {
        if let (Some(start), Some(stop)) = (start, stop) {
            put_two(points, from, start, stop);
            return;
        }
    }
    let mut at = from;
    let mut end = to;
    if let Some(start) = start {
        end = put(points, at, end, start);
        at += 1;
    }
    if let Some(stop) = stop {
        end = put(points, at, end, stop);
        at += 1;
    }
    drop(points.drain(at..end));
}

/// Gives the points `from..to` the permission, each at its page.
fn repeat(points: &mut Vec<Point>, from: usize, to: usize, perm: Perm)
    requires order { from ≤ to }
    requires inside { to ≤ vec_len points.old }
    ensures items { points.new.items ≡ take from points.old.items ++
        (map (with_perm perm) (take (to - from) (drop from points.old.items))
        ++ drop to points.old.items) }
    ensures len { vec_len points.new ≡ vec_len points.old }
    ensures room { vec_capacity points.old ≤ vec_capacity points.new }
{
    let mut at = from;
    while at < to {
        points[at] = points[at].with_perm(perm);
        at += 1;
    }
}

/// Writes a range over the points inside it, of which there are at least two: the first becomes its start and the last
/// its stop. No point moves, and the points between them become idle. `perm` is passed as well, to avoid reading it
/// back from `start`.
fn write_over(
    points: &mut Vec<Point>,
    from: usize,
    to: usize,
    start: Point,
    perm: Perm,
    stop: Point,
)
    requires order { from + 2 ≤ to }
    requires inside { to ≤ vec_len points.old }
    ensures items { points.new.items ≡ take from points.old.items ++
        (start ∷ (map (with_perm perm)
        (take (to - 1 - (from + 1)) (drop (from + 1) points.old.items))
        ++ stop ∷ drop to points.old.items)) }
    ensures len { vec_len points.new ≡ vec_len points.old }
    ensures room { vec_capacity points.old ≤ vec_capacity points.new }
{
    repeat(points, from + 1, to - 1, perm);
    points[from] = start;
    points[to - 1] = stop;
}

/// The pages of a range and their new permission.
#[derive(Clone, Copy)]
pub(crate) struct Setting {
    pub(crate) first: u64,
    pub(crate) end: u64,
    pub(crate) perm: Perm,
}

/// Sets a range that lies after the first `from` points and before those after the first `to`. If it contains only a
/// few points, they are rewritten in place, some as idle points, so that lines that repeatedly override one another
/// move no points. Otherwise at most two points replace them.
pub(crate) fn change(
    points: &mut Vec<Point>,
    from: usize,
    to: usize,
    range: Setting,
    start: Option<Point>,
    stop: Option<Point>,
)
    requires rise { Rise points.old.items }
    requires order { from ≤ to }
    requires inside { to ≤ vec_len points.old }
    requires some { range.first < range.end }
    requires small { range.end ≤ 2 ^ 44 }
    requires cut { IsCut points.old.items range.first range.end from to }
    requires turn { IsTurn (standing NoAccess (take from points.old.items))
        range.first range.perm start }
    requires ends { IsStop range.perm range.end
        (standing NoAccess (take to points.old.items)) stop }
    requires idle { vec_len points.old ≤ length (turns points.old.items) + 4096 }
    requires room { vec_len points.old + 2 ≤ vec_capacity points.old }
    ensures rise { Rise points.new.items }
    ensures changed { IsChanged points.old.items points.new.items from to
        range.first range.end range.perm }
    ensures idle { vec_len points.new ≤ length (turns points.new.items) + 4096 }
    ensures room { vec_capacity points.old ≤ vec_capacity points.new }
{
    let few = points.len() <= MOST_IDLE && to <= from + MOST_WRITTEN;
    if few && from + 2 <= to && range.end < SPACE_PAGES {
        let after = perm_after(points, to);
        let start = Point::new(range.first, range.perm);
        let stop = Point::new(range.end, after);
        write_over(points, from, to, start, range.perm, stop);
    } else {
        replace(points, from, to, start, stop);
    }
}
