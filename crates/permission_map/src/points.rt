//! Pages at which the permission may change, a branch-free search for them, and the runs that they begin.

ghost use Rattle.std.specs.Prelude.{◌≡◌, ◌≤◌, ◌<◌, ◌+◌, ◌-◌, ◌^◌, All, length, take, drop, slice_index_or, count_by, option_to_list};
ghost use Rattle.permission_map.specs.declared.points.Point.{Point};
ghost use Rattle.pmp_encoding.specs.declared.perm.Perm.TheVariants.{NoAccess};
ghost use Rattle.permission_map.specs.Points.{IsStop, IsTurn, Rise, allows, page_of, perm_of, standing, turn_at, turns, turns_after, with_perm};

use pmp_encoding::{Perm, SPACE_PAGES};

/// The permission for each value of the three bits. It is a table because the compiler turns a `match` into a jump that
/// is often mispredicted.
static PERMS: [Perm; 8] = [
    Perm::NoAccess,
    Perm::Read,
    Perm::ReadWriteExecute,
    Perm::ReadWrite,
    Perm::Execute,
    Perm::ReadExecute,
    Perm::ReadWriteExecute,
    Perm::ReadWriteExecute,
];

/// A page at which the permission may change, with the permission from there on. Both are stored in one number, so that
/// moving points becomes one `memmove`.
#[derive(Clone, Copy)]
pub(crate) struct Point {
    number: u64,
}

impl Point {
    pub(crate) fn new(page: u64, perm: Perm) -> Point
        requires { page < 2 ^ 44 }
        ensures page { page_of result ≡ page }
        ensures perm { perm_of result ≡ perm }
    {
        Point {
            number: page * 8 + u64::from(perm.bits()),
        }
    }

    pub(crate) fn page(self) -> u64
        ensures { result ≡ page_of self }
    {
        self.number / 8
    }

    pub(crate) fn perm(self) -> Perm
        ensures { result ≡ perm_of self }
    {
        PERMS[(self.number % 8) as usize]
    }

    /// Returns the point at the same page with this permission.
    pub(crate) fn with_perm(self, perm: Perm) -> Point
        ensures { result ≡ with_perm perm self }
    {
        Point {
            number: self.number / 8 * 8 + u64::from(perm.bits()),
        }
    }

    /// Returns whether its permission allows anything.
    pub(crate) fn allows(self) -> bool
        ensures { result ≡ allows self }
    {
        self.number % 8 != 0
    }
}

/// Returns 1 if there are at least `count` points and the `count`-th comes before the page, otherwise 0. It has no
/// branch, because a search would mispredict it half of the time.
#[inline(always)]
fn past(points: &[Point], count: usize, page: u64) -> usize
    requires some { 0 < length points.now }
    requires count { 0 < count }
    ensures before { (d : Point) → count ≤ length points.now
        → page_of (slice_index_or points.now (count - 1) d) < page → result ≡ 1 }
    ensures behind { (d : Point)
        → (count ≤ length points.now → page ≤ page_of (slice_index_or points.now (count - 1) d))
        → result ≡ 0 }
    ensures bit { result ≤ 1 }
{
    let last = count.min(points.len()) - 1;
    usize::from((count <= points.len()) & (points[last].page() < page))
}

/// Returns the step of a search for a bit.
#[inline(always)]
fn step_of(bits: u32) -> usize
    requires { bits ≤ 44 }
    ensures { result ≡ 2 ^ bits }
{
    1 << bits
}

/// Counts the points before the page, if there is at least one point and there are fewer than 2^bits. With a constant
/// `bits` each step is a constant; the compiler would make a branch of a variable step.
#[inline(always)]
fn before_within(points: &[Point], page: u64, bits: u32) -> usize
    requires points { Rise points.now }
    requires some { 0 < length points.now }
    requires few { length points.now < 2 ^ bits }
    requires most { bits ≤ 45 }
    ensures bound { result ≤ length points.now }
    ensures front { All (λ p. page_of p < page) (take result points.now) }
    ensures rest { All (λ p. page ≤ page_of p) (drop result points.now) }
{
    let mut low = 0;
    let mut left = bits;
    while left > 0 {
        left -= 1;
        let step = step_of(left);
        low += step * past(points, low + step, page);
    }
    low
}

/// Counts the points before the page by a search.
#[inline(never)]
fn search_before(points: &[Point], page: u64) -> usize
    requires points { Rise points.now }
    requires inside { page ≤ 2 ^ 44 }
    ensures bound { result ≤ length points.now }
    ensures front { All (λ p. page_of p < page) (take result points.now) }
    ensures rest { All (λ p. page ≤ page_of p) (drop result points.now) }
{
    match points.len() {
        0 => 0,
        1..=15 => before_within(points, page, 4),
        16..=255 => before_within(points, page, 8),
        256..=16383 => before_within(points, page, 14),
        _ => before_within(points, page, 45),
    }
}

/// Counts the points before the page. The last points are tested first, because most maps list ranges by ascending
/// address.
pub(crate) fn before(points: &[Point], page: u64) -> usize
    requires points { Rise points.now }
    requires inside { page ≤ 2 ^ 44 }
    ensures bound { result ≤ length points.now }
    ensures front { All (λ p. page_of p < page) (take result points.now) }
    ensures rest { All (λ p. page ≤ page_of p) (drop result points.now) }
{
    let Some((last, others)) = points.split_last() else {
        return 0;
    };
    if last.page() < page {
        return points.len();
    }
    match others.split_last() {
        Some((point, _)) if point.page() < page => others.len(),
        _ => search_before(points, page),
    }
}

/// Counts the points before the page or at it; the first `from` points are known to be. The points after them are
/// passed one by one, because the range then rewrites or removes nearly all of them.
pub(crate) fn up_to(points: &[Point], from: usize, page: u64) -> usize
    requires points { Rise points.now }
    requires inside { from ≤ length points.now }
    requires before { All (λ p. page_of p ≤ page) (take from points.now) }
    ensures order { from ≤ result }
    ensures bound { result ≤ length points.now }
    ensures front { All (λ p. page_of p ≤ page) (take result points.now) }
    ensures rest { All (λ p. page < page_of p) (drop result points.now) }
{
    let mut to = from;
    while to < points.len() {
        if points[to].page() > page {
            return to;
        }
        to += 1;
    }
    to
}

/// Returns the permission after the first `count` points.
pub(crate) fn perm_after(points: &[Point], count: usize) -> Perm
    requires { count ≤ length points.now }
    ensures { result ≡ standing NoAccess (take count points.now) }
{
    if count == 0 {
        return Perm::NoAccess;
    }
    points[count - 1].perm()
}

/// Returns the point at which `before` changes to `perm`, or `None` if they are the same.
pub(crate) fn turn(before: Perm, page: u64, perm: Perm) -> Option<Point>
    requires { page < 2 ^ 44 }
    ensures { IsTurn before page perm result }
{
    if perm == before {
        return None;
    }
    Some(Point::new(page, perm))
}

/// Returns the point at the end of a range, where `perm` changes to `after`, or `None` at the end of the space.
pub(crate) fn stop(perm: Perm, end: u64, after: Perm) -> Option<Point>
    requires { end ≤ 2 ^ 44 }
    ensures { IsStop perm end after result }
{
    if end == SPACE_PAGES {
        return None;
    }
    turn(perm, end, after)
}

/// Counts the runs that these points begin, if `before` holds before them.
fn begun_in(points: &[Point], before: Perm) -> usize
    ensures { result ≡ count_by allows (turns_after before points.now) }
{
    let mut begun = 0;
    let mut standing = before;
    let mut rest = points;
    'points: while let Some((point, behind)) = rest.split_first() {
        begun += begun_by(*point, standing);
        standing = point.perm();
        rest = behind;
    }
    begun
}

/// Returns 1 if a run begins at the point, otherwise 0.
#[inline(always)]
fn begun_by(point: Point, before: Perm) -> usize
    ensures value { result ≡ count_by allows (turn_at before point) }
    ensures bit { result ≤ 1 }
{
    usize::from(point.allows() & (point.perm() != before))
}

/// Counts the runs that the points `from..to` begin.
pub(crate) fn begun_between(points: &[Point], from: usize, to: usize) -> usize
    requires order { from ≤ to }
    requires inside { to ≤ length points.now }
    ensures { count_by allows (turns (take from points.now)) + (result
        + count_by allows (turns_after (standing NoAccess (take to points.now))
        (drop to points.now)))
        ≡ count_by allows (turns points.now) }
{
    begun_in(&points[from..to], perm_after(points, from))
}

/// Counts the runs that the point begins, if there is a point.
pub(crate) fn begun_at(point: &Option<Point>) -> usize
    ensures { result ≡ count_by allows (option_to_list point.now) }
{
    match point {
        Some(point) => usize::from(point.allows()),
        None => 0,
    }
}
