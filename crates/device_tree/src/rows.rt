//! The rows of a property, each an address and a size.

ghost use Rattle.std.specs.Prelude.{◌≡◌, ◌≢◌, ◌+◌, ◌*◌, ◌<◌, ◌≤◌, ◌^◌, ℕ, List, IfErr, IfOk, MatchOption, MatchResult, length, drop};
ghost use Rattle.device_tree.specs.Cells.{AreRows, number_of, row_len};
ghost use Rattle.device_tree.specs.BoardRefusals.{IsLargeRow, IsRowFault};

use crate::bytes::{after, number_of};
use crate::cells::Cells;
use std::alloc::Global;

/// The start and the size of a range of addresses, in bytes.
#[derive(Clone, Copy, Debug, PartialEq, Eq)]
pub struct Extent {
    pub base: u64,
    pub size: u64,
}

/// The reason why the rows of a property are invalid.
#[derive(Clone, Copy, Debug, PartialEq, Eq)]
pub enum RowFault {
    /// Its length is not a multiple of a row, or rows have no cells.
    BadLength,
    /// An address or a size does not fit in 64 bits.
    LargeNumber,
    /// Translating a row takes too many steps, or the tree has too many ranges.
    TooMany,
    /// An allocation failed.
    Memory,
}

/// Reads the row at the front.
fn row_in(bytes: &[u8], cells: &Cells) -> Option<Extent>
    requires { row_len cells.now ≤ length bytes.now }
    ensures { MatchOption result (IsLargeRow cells.now bytes.now) (λ first.
        (first.base ≡ number_of cells.now.address bytes.now)
        × (first.size ≡ number_of cells.now.size (drop (4 * cells.now.address) bytes.now))) }
{
    let base = number_of(bytes, cells.address)?;
    let size = number_of(after(bytes, 4 * cells.address), cells.size)?;
    Some(Extent { base, size })
}

/// Reads the rows of a property.
pub fn rows_of(alloc: Global, bytes: &[u8], cells: &Cells) -> Result<Vec<Extent>, RowFault>
    ensures ok { IfOk result (λ rows. AreRows cells.now bytes.now rows.items) }
    ensures refused { IfErr result (IsRowFault cells.now bytes.now) }
{
    let mut rows = Vec::new(alloc);
    let len = cells.row_len();
    let mut at = 0;
    'rows: while at < bytes.len() {
        if len == 0 || bytes.len() - at < len {
            return Err(RowFault::BadLength);
        }
        let Some(row) = row_in(after(bytes, at), cells) else {
            return Err(RowFault::LargeNumber);
        };
        let Ok(()) = rows.push(row) else {
            return Err(RowFault::Memory);
        };
        at += len;
    }
    Ok(rows)
}
