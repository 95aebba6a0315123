//! Slices and big-endian numbers.

ghost use Rattle.std.specs.Prelude.{◌≡◌, ◌*◌, ◌≤◌, ◌^◌, MatchOption, drop, length};
ghost use Rattle.device_tree.specs.Cells.{number_of};

use byteorder::{BigEndian, ByteOrder};

/// Returns the bytes after the first `n`, of which there are at least `n`.
pub(crate) fn after(bytes: &[u8], n: usize) -> &[u8]
    requires { n ≤ length bytes.now }
    ensures { result.now ≡ drop n bytes.now }
{
    &bytes[n..]
}

/// Returns the number in the first cells, if it fits in 64 bits.
pub(crate) fn number_of(bytes: &[u8], cells: usize) -> Option<u64>
    requires few { cells ≤ 4 }
    requires long { 4 * cells ≤ length bytes.now }
    ensures { MatchOption result (2 ^ 64 ≤ number_of cells bytes.now) (λ n.
        n ≡ number_of cells bytes.now) }
{
    if cells == 0 {
        return Some(0);
    }
    let number = BigEndian::read_uint128(bytes, 4 * cells);
    if number >= 1 << 64 {
        return None;
    }
    Some(number as u64)
}
