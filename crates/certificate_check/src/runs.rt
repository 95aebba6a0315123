//! The runs of a map, visited in page order.

ghost use Rattle.std.specs.Prelude.{◌≡◌, ◌≢◌, ℕ, ◌+◌, ◌<◌, ◌≤◌, ◌^◌, IfSome, IfNone, length};
ghost use Rattle.permission_map.specs.Runs.{view_of_runs};
ghost use Rattle.certificate_check.specs.Later.{AreLaterRuns, StartsBehind, AgreeFrom};

use crate::piece::Piece;
use permission_map::{PermissionMap, Run};
use pmp_encoding::{Perm, SPACE_PAGES};
use std::marker::Model;

/// Skips the runs that end at or before the page.
pub(crate) fn runs_from<'a>(runs: &'a [Run], page: u64) -> &'a [Run]
    requires { AreLaterRuns runs.now }
    ensures later { AreLaterRuns result.now }
    ensures same { (at : ℕ) → page ≤ at → view_of_runs result.now at
        ≡ view_of_runs runs.now at }
    ensures behind { StartsBehind page result.now }
{
    let mut rest = runs;
    while let [run, later @ ..] = rest {
        if page < run.first + run.count {
            break;
        }
        rest = later;
    }
    rest
}

/// Returns the piece of the runs from the page on.
pub(crate) fn piece_of_runs(runs: &[Run], page: u64) -> Piece
    requires page { page < 2 ^ 44 }
    requires later { AreLaterRuns runs.now }
    requires behind { StartsBehind page runs.now }
    ensures some { page < result.end }
    ensures inside { result.end ≤ 2 ^ 44 }
    ensures value { (at : ℕ) → page ≤ at → at < result.end
        → view_of_runs runs.now at ≡ result.perm }
    ensures whole { result.end < 2 ^ 44 → view_of_runs runs.now result.end ≢ result.perm }
{
    match runs {
        [] => Piece {
            end: SPACE_PAGES,
            perm: Perm::NoAccess,
        },
        [run, ..] => {
            if page < run.first {
                Piece {
                    end: run.first,
                    perm: Perm::NoAccess,
                }
            } else {
                Piece {
                    end: run.first + run.count,
                    perm: run.perm,
                }
            }
        }
    }
}

/// The remaining runs of a map, whose pages are visited in order.
#[derive(Drop)]
pub(crate) struct RunsAhead<'a> {
    runs: &'a [Run],
}

impl<'a> Model for RunsAhead<'a> {
    ghost use Rattle.std.specs.Prelude.{List};
    ghost use Rattle.permission_map.specs.declared.runs.Run.{Run};
    ghost use Rattle.certificate_check.specs.Later.{AreLaterRuns};

    ghost Value = { List Run };

    ghost view = { λ r. r.runs.now };

    ghost invariant = { λ r. AreLaterRuns r.runs.now };
}

impl<'a> RunsAhead<'a> {
    /// Returns all of the map's runs.
    pub(crate) fn of(map: &'a PermissionMap) -> RunsAhead<'a>
        ensures value { result ≡ map.now }
        ensures most { length result ≤ 4096 }
    {
        RunsAhead { runs: map.ranges() }
    }

    /// Returns the permission of all pages from `first` up to but excluding `end`, or `None` if they have different
    /// ones. Drops the runs that end at or before `first`.
    #[inline(always)]
    pub(crate) fn uniform(&mut self, first: u64, end: u64) -> Option<Perm>
        requires some { first < end }
        requires inside { end ≤ 2 ^ 44 }
        ensures same { AgreeFrom first (view_of_runs self.new) (view_of_runs self.old) }
        ensures some { IfSome result (λ perm.
            (at : ℕ) → first ≤ at → at < end → view_of_runs self.old at ≡ perm) }
        ensures none { IfNone result ((at : ℕ) × (first ≤ at) × (at < end)
            × (view_of_runs self.old at ≢ view_of_runs self.old first)) }
    {
        let runs = runs_from(self.runs, first);
        let piece = piece_of_runs(runs, first);
        *self = RunsAhead { runs };
        if piece.end < end {
            return None;
        }
        Some(piece.perm)
    }
}
