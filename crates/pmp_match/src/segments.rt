//! A bank's list as segments of the space, which is faster for many accesses.

ghost use Rattle.std.specs.Prelude.{◌≡◌, ◌+◌, ◌≤◌, ◌<◌, ◌||◌, if◌then◌else◌, true, Ok, Err, IfSome, All, List};
ghost use Rattle.std.specs.List.Sorted.{IsSorted};
ghost use Rattle.std.specs.Ordering.{nat_cmp};
ghost use Rattle.pmp_encoding.specs.declared.region.Entry.{Entry};
ghost use Rattle.pmp_encoding.specs.Banks.{HasList};
ghost use Rattle.pmp_match.specs.Kinds.{holds};
ghost use Rattle.pmp_match.specs.Decision.{is_machine};
ghost use Rattle.pmp_match.specs.Judgement.{Judges, access_fault};
ghost use Rattle.pmp_match.specs.Segments.{IsWithin, Decides, IsSegmentOf};

use crate::access::Access;
use crate::cause::Cause;
use crate::judgement::{holds, is_aligned, is_machine, judge};
use pmp_encoding::{Bank, Extent, Perm, SPACE_SIZE};

/// Maximum number of segments. The edges of 64 extents may leave one more, whose accesses are decided by the list
/// itself.
const SEGMENTS: usize = 128;

/// Number of edges: two for each of 64 extents, and the two ends of the space.
const EDGES: usize = 130;

/// Addresses from `base` up to but excluding `end` that the list treats alike: either the first extent with any of them
/// contains them all and has this permission, or no extent contains any of them.
#[derive(Clone, Copy)]
struct Segment {
    base: u64,
    end: u64,
    perm: Perm,
}

/// The outcomes of an aligned access within a segment: first those of denied accesses, by kind, then those of allowed
/// ones. A table avoids a branch that would be mispredicted at every denied access.
static OUTCOMES: [Result<(), Cause>; 6] = [
    Err(Cause::FetchFault),
    Err(Cause::LoadFault),
    Err(Cause::StoreFault),
    Ok(()),
    Ok(()),
    Ok(()),
];

/// Fills the unused places after the segments of a bank.
const NOWHERE: Segment = Segment {
    base: SPACE_SIZE,
    end: SPACE_SIZE,
    perm: Perm::NoAccess,
};

/// Returns the permission that decides every access between `base` and `end`, if a single one does.
fn deciding_perm(extents: &[Extent], base: u64, end: u64) -> Option<Perm>
    ensures { IfSome result (λ perm. Decides extents.now base end perm) }
{
    for extent in extents {
        if extent.base < end && base < extent.end {
            if base < extent.base || extent.end < end {
                return None;
            }
            return Some(extent.perm);
        }
    }
    Some(Perm::NoAccess)
}

/// Returns the ends of the extents and of the space, sorted.
fn edges_of(extents: &[Extent]) -> [u64; EDGES]
    ensures { IsSorted nat_cmp result }
{
    let mut edges = [SPACE_SIZE; EDGES];
    edges[0] = 0;
    let count = extents.len().min(64);
    for i in 0..count {
        edges[2 * i + 1] = extents[i].base;
        edges[2 * i + 2] = extents[i].end;
    }
    edges.sort_unstable();
    edges
}

impl Segment {
    /// Returns the segment between two edges, if a single permission decides every access within it.
    fn between(bank: &Bank, base: u64, end: u64) -> Option<Segment>
        ensures { IfSome result (λ segment. IsSegmentOf bank.now segment) }
    {
        if base >= end || end > SPACE_SIZE {
            return None;
        }
        let perm = deciding_perm(bank.extents(), base, end)?;
        Some(Segment { base, end, perm })
    }

    /// Returns whether the segment contains each byte of the access.
    #[inline(always)]
    fn has(&self, access: &Access) -> bool
        ensures { result ≡ true → IsWithin self.now.base self.now.end access.now }
    {
        self.base <= access.address
            && access.address <= self.end
            && u64::from(access.size) <= self.end - access.address
    }

    /// Judges an aligned access within the segment.
    #[inline(always)]
    fn judge(&self, access: &Access) -> Result<(), Cause>
        ensures { result ≡
            (if is_machine access.now.mode || holds self.now.perm access.now.kind then Ok tt
            else Err (access_fault access.now.kind)) }
    {
        let allowed = is_machine(access.mode) | holds(self.perm, access.kind);
        OUTCOMES[3 * usize::from(allowed) + access.kind as usize]
    }
}

/// The list of a bank, cut into segments that it treats alike.
#[derive(Drop)]
pub struct Segments<'a> {
    bank: &'a Bank,
    segments: [Segment; SEGMENTS],
    used: usize,
    ghost right: { All (IsSegmentOf bank.now) segments },
}

impl<'a> Segments<'a> {
    ghost use Rattle.pmp_match.specs.SegmentedBank.{bank_of};

    /// Cuts the bank's list into segments. Does not allocate.
    pub fn of(bank: &'a Bank) -> Segments<'a>
        ensures { bank_of result ≡ bank.now }
    {
        let edges = edges_of(bank.extents());
        let mut segments = [NOWHERE; SEGMENTS];
        let mut used = 0;
        for i in 1..EDGES {
            if let Some(segment) = Segment::between(bank, edges[i - 1], edges[i]) {
                if used < SEGMENTS {
                    segments[used] = segment;
                    used += 1;
                }
            }
        }
        Segments {
            bank,
            segments,
            used,
        }
    }

    /// Returns how far a search advances past a segment: `step` if the segment begins at or below the address,
    /// otherwise 0. The comparison is not a branch, because it would be mispredicted half of the time.
    #[inline(always)]
    fn step_past(&self, i: usize, address: u64, step: usize) -> usize
        requires { i < 128 }
        ensures { result ≤ step }
    {
        step * usize::from(self.segments[i].base <= address)
    }

    /// Returns the position of the last of `count` segments from `first` on that begins at or below the address, or
    /// `first`. Each step depends on the previous one, so it tests three segments that do not depend on one another.
    #[inline(always)]
    fn last_begun(&self, address: u64, first: usize, count: usize) -> usize
        requires some { 0 < count }
        requires inside { first + count ≤ 128 }
        ensures { result < 128 }
    {
        let mut at = first;
        let mut step = count / 4;
        while step > 0 {
            let near = self.step_past(at + step, address, step);
            let middle = self.step_past(at + 2 * step, address, step);
            let far = self.step_past(at + 3 * step, address, step);
            at += near + middle + far;
            step /= 4;
        }
        at
    }

    /// Returns the segment that contains the address, or any segment if none does. Short lists take fewer steps.
    #[inline(always)]
    fn near(&self, address: u64) -> Segment
        ensures { IsSegmentOf (bank_of self.now) result }
    {
        let at = match self.used {
            0..=16 => self.last_begun(address, 0, 16),
            17..=64 => self.last_begun(address, 0, 64),
            _ => {
                let first = self.step_past(64, address, 64);
                self.last_begun(address, first, 64)
            }
        };
        self.segments[at]
    }

    /// Judges the access as [`judge`](crate::judge) does. Does not allocate.
    #[inline(always)]
    pub fn judge(&self, access: &Access) -> Result<(), Cause>
        ensures by_its_list { (entries : List Entry) × HasList (bank_of self.now) entries
            × Judges entries access.now result }
        ensures by_no_other { (entries : List Entry) → HasList (bank_of self.now) entries
            → Judges entries access.now result }
    {
        let segment = self.near(access.address);
        if segment.has(access) && is_aligned(access) {
            return segment.judge(access);
        }
        judge(self.bank, access)
    }
}
