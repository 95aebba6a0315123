//! Selects a value for the half beside a block of a chain.

ghost use Rattle.std.specs.Prelude.{◌≡◌, ◌%◌};

/// Returns the value for the half beside a block of a chain, given the number of blocks of its size that precede the
/// block: `before` if the block is an upper half, `behind` if it is a lower one. A selection of values avoids a branch
/// that would often be mispredicted.
#[inline(always)]
pub fn sibling_of<T: Copy>(place: u64, before: T, behind: T) -> T
    ensures upper { place % 2 ≡ 1 → result ≡ before }
    ensures lower { place % 2 ≡ 0 → result ≡ behind }
{
    if place % 2 == 1 { before } else { behind }
}
