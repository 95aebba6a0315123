//! Counts the harts of a tree.

ghost use Rattle.std.specs.Prelude.{◌≡◌, ◌≤◌, length};
ghost use Rattle.device_tree.specs.Meaning.{said_of};
ghost use Rattle.board_texts.specs.Monitors.{harts_of, is_hart};
ghost use Rattle.board_texts.specs.Platforms.{harts_used};

use device_tree::{Found, Kind};

fn is_hart(kind: Kind) -> bool
    ensures { result ≡ is_hart kind }
{
    match kind {
        Kind::Hart => true,
        _ => false,
    }
}

/// Counts the harts that the tree has in use.
pub(crate) fn harts_of<'a>(found: &[Found<'a>]) -> u64
    ensures value { result ≡ harts_of (said_of found.now) }
{
    let mut harts = 0;
    for one in found {
        if is_hart(one.kind) {
            harts += 1;
        }
    }
    harts
}

/// Returns the number of harts in the platform, at most four.
pub(crate) fn harts_used<'a>(found: &[Found<'a>]) -> u8
    ensures { result ≡ harts_used (said_of found.now) }
{
    harts_of(found).min(4) as u8
}
