//! Measures how much of a platform a board has.

ghost use Rattle.std.specs.Prelude.{◌≡◌, ◌↔◌, ◌<◌, ◌≤◌, ◌+◌, ◌*◌, ◌^◌, ℕ, IsTrue, IfSome, IfNone, MatchOption, drop};
ghost use Rattle.host_tree.specs.Boards.{AreThere, HartsThere, Has, IsHart};

use device_tree::Extent;

/// Returns the number of bytes from an address to the end of a range that contains it, if one does.
fn left_at(memory: &[Extent], address: u128) -> Option<u64>
    ensures { MatchOption result (Has memory.now address → ⊥) (λ left. (0 < left)
        × ((at : ℕ) → address ≤ at → at < address + left → Has memory.now at)) }
{
    for range in memory {
        let base = u128::from(range.base);
        if base <= address && address - base < u128::from(range.size) {
            return Some(range.size - (address - base) as u64);
        }
    }
    None
}

/// Returns how many of the `size` bytes from `base` on the memory contains without a gap: all of them, or whole pages.
pub fn memory_there(memory: &[Extent], base: u64, size: u64) -> u64
    ensures { AreThere memory.now base size result }
{
    let mut there = 0;
    'parts: while there < size {
        match left_at(memory, u128::from(base) + u128::from(there)) {
            Some(left) => there += left.min(size - there),
            None => return there / 4096 * 4096,
        }
    }
    there
}

/// Returns whether one of these harts has that number.
fn is_hart(harts: &[Extent], hart: u64) -> bool
    ensures { IsTrue result ↔ IsHart harts.now hart }
{
    for one in harts {
        if one.base == hart {
            return true;
        }
    }
    false
}

/// Returns how many of `most` harts a board has from hart 0 on without a gap. It has at least hart 0, which boots.
pub fn harts_there(harts: &[Extent], most: u64) -> u64
    ensures { HartsThere harts.now most result }
{
    if most == 0 {
        return 0;
    }
    let mut there = 1;
    'harts: while there < most && is_hart(harts, there) {
        there += 1;
    }
    there
}
