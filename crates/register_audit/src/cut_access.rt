//! Accesses of eight bytes that an entry cuts.

ghost use Rattle.std.specs.Prelude.{◌≡◌, ℕ, ◌+◌, ◌^◌, ◌<◌, ◌≤◌, ◌⊎◌, ◌↔◌, All, IfNone, IfSome, IsTrue, MatchOption, Some, length, slice_get};
ghost use Rattle.permission_map.specs.Runs.{view_of_runs};
ghost use Rattle.pmp_encoding.specs.declared.extent.Extent.{Extent};
ghost use Rattle.pmp_match.specs.RegisterDecision.{IsWords, Meets};
ghost use Rattle.register_audit.specs.Findings.{IsCut, IsFirstCut, IsFirstOf, IsLowestCut, IsUncut, load_of_eight};
ghost use Rattle.pmp_match.specs.Kinds.{holds};
ghost use Rattle.pmp_match.specs.declared.access.Kind.TheVariants.{Load};

use permission_map::PermissionMap;
use pmp_encoding::{PAGE_SIZE, Perm};
use pmp_match::Extent;

/// Eight bytes that an entry cuts.
#[derive(Clone, Copy)]
pub(crate) struct Cut {
    pub(crate) entry: usize,
    pub(crate) at: u64,
}

fn can_read(perm: Perm) -> bool
    ensures { result ≡ holds perm Load }
{
    !matches!(perm, Perm::NoAccess | Perm::Execute)
}

/// Returns whether the extent contains some of the eight bytes.
fn has_some(extent: &Extent, at: u64) -> bool
    requires words { IsWords extent.now }
    requires at { at < 2 ^ 56 }
    ensures { IsTrue result ↔ Meets extent.now (load_of_eight at) }
{
    extent.base < at + 8 && at < extent.end
}

/// Returns whether the extents contain none of the eight bytes.
fn all_miss(extents: &[Extent], at: u64) -> bool
    requires words { All IsWords extents.now }
    requires at { at < 2 ^ 56 }
    ensures { IsTrue result ↔ All (λ x. ¬ Meets x (load_of_eight at)) extents.now }
{
    for extent in extents {
        if has_some(extent, at) {
            return false;
        }
    }
    true
}

/// Returns whether entry i is the first that contains some of the eight bytes.
fn is_first(extents: &[Extent], i: usize, at: u64) -> bool
    requires words { All IsWords extents.now }
    requires i { i < length extents.now }
    requires at { at < 2 ^ 56 }
    ensures { (x : Extent) → slice_get extents.now i ≡ Some x
        → IsTrue result ↔ IsFirstOf extents.now i at x }
{
    all_miss(&extents[..i], at) && has_some(&extents[i], at)
}

/// Returns the eight aligned bytes with an end of entry i in their middle, if the entry cuts them.
fn cut_at(map: &PermissionMap, extents: &[Extent], i: usize, end: u64) -> Option<u64>
    requires words { All IsWords extents.now }
    requires i { i < length extents.now }
    requires end { (x : Extent) → slice_get extents.now i ≡ Some x
        → (end ≡ x.base) ⊎ (end ≡ x.end) }
    requires inside { end ≤ 2 ^ 56 }
    ensures some { IfSome result (λ at. (at + 4 ≡ end)
        × IsCut (view_of_runs map.now) extents.now i at) }
    ensures none { IfNone result ((at : ℕ) → at + 4 ≡ end
        → ¬ IsCut (view_of_runs map.now) extents.now i at) }
{
    if end % 8 == 0 {
        return None;
    }
    let at = end - 4;
    if !can_read(map.get(at / PAGE_SIZE)) {
        return None;
    }
    if is_first(extents, i, at) {
        Some(at)
    } else {
        None
    }
}

/// Returns the lowest eight bytes that entry i cuts.
fn cut_by(map: &PermissionMap, extents: &[Extent], i: usize) -> Option<u64>
    requires words { All IsWords extents.now }
    requires i { i < length extents.now }
    ensures { MatchOption result (IsUncut (view_of_runs map.now) extents.now i)
        (IsLowestCut (view_of_runs map.now) extents.now i) }
{
    if let Some(low) = cut_at(map, extents, i, extents[i].base) {
        return Some(low);
    }
    let Some(high) = cut_at(map, extents, i, extents[i].end) else {
        return None;
    };
    Some(high)
}

/// Returns the first entry that cuts an access allowed by the map, and the lowest such access.
pub(crate) fn first_cut(map: &PermissionMap, extents: &[Extent]) -> Option<Cut>
    requires { All IsWords extents.now }
    ensures { MatchOption result ((i : ℕ) → IsUncut (view_of_runs map.now) extents.now i)
        (λ cut. IsFirstCut (view_of_runs map.now) extents.now cut.entry cut.at) }
{
    for i in 0..extents.len() {
        if let Some(at) = cut_by(map, extents, i) {
            return Some(Cut { entry: i, at });
        }
    }
    None
}
