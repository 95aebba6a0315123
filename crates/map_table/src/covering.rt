//! The extent of a list that covers a byte.

ghost use Rattle.std.specs.Prelude.{◌≡◌, ◌≢◌, ℕ, ◌^◌, ◌<◌, ◌≤◌, All};
ghost use Rattle.pmp_match.specs.RegisterBytes.{perm_at};
ghost use Rattle.pmp_match.specs.RegisterDecision.{IsWords};
ghost use Rattle.map_table.specs.Stretches.{decider};

use crate::extent_tree::ExtentTree;
use pmp_encoding::{Perm, SPACE_SIZE};

/// The first extent that contains each byte from some byte up to `end`, and its permission.
#[derive(Clone, Copy)]
pub(crate) struct Covering {
    pub(crate) end: u64,
    pub(crate) entry: Option<usize>,
    pub(crate) given: Perm,
}

/// Returns the extent that covers the bytes from a byte on, and how far it does: to the end of the first extent that
/// contains the byte, or to the start of an extent before it.
pub(crate) fn covering_from(extents: &ExtentTree, at: u64) -> Covering
    requires at { at < 2 ^ 56 }
    requires words { All IsWords extents.now }
    ensures some { at < result.end }
    ensures inside { result.end ≤ 2 ^ 56 }
    ensures decided { (byte : ℕ) → at ≤ byte → byte < result.end
        → decider extents.now byte ≡ result.entry }
    ensures given { (byte : ℕ) → at ≤ byte → byte < result.end
        → perm_at extents.now byte ≡ result.given }
    ensures changes { result.end < 2 ^ 56 → decider extents.now result.end ≢ result.entry }
{
    let Some(i) = extents.next_meeting(0, at, at + 1) else {
        let end = extents.next_cut(extents.extents().len(), at, SPACE_SIZE);
        return Covering {
            end,
            entry: None,
            given: Perm::NoAccess,
        };
    };
    let extent = extents.extents()[i];
    let end = extents.next_cut(i, at, extent.end);
    Covering {
        end,
        entry: Some(i),
        given: extent.perm,
    }
}
