//! The table of a map in each format.

ghost use Rattle.std.specs.Prelude.{IfOk};
ghost use Rattle.permission_map.specs.Runs.{view_of_runs};
ghost use Rattle.map_table.specs.FormattedTables.{IsJsonTable};

use crate::drawing::picture_of;
use crate::json::{END, head, push_rows};
use crate::{ExtentTree, count_line, extents_of, stretches_by_entries};
use permission_map::{Memory, PermissionMap};
use pmp_encoding::{Entry, Limit};
use std::alloc::Global;

/// Returns the table of a map and a list of entries as one JSON object. The only error is a failed allocation.
pub fn json_table(
    alloc: Global,
    map: &PermissionMap,
    entries: &[Entry],
    limit: Limit,
) -> Result<Vec<u8>, Memory>
    ensures { IfOk result (λ text.
        IsJsonTable (view_of_runs map.now) entries.now limit text.items) }
{
    let extents = extents_of(alloc, entries)?;
    let all = stretches_by_entries(alloc, map, entries)?;
    let tree = ExtentTree::new(alloc, extents.as_slice())?;
    let mut text = Vec::new(alloc);
    text.extend_from_slice(head(entries.len(), limit).as_slice())?;
    push_rows(alloc, &mut text, &tree, all.as_slice())?;
    text.extend_from_slice(END)?;
    Ok(text)
}

/// Draws the table of a map and a list of entries as an SVG of at most 1024 bands and gaps. The only error is a failed
/// allocation.
pub fn picture(
    alloc: Global,
    map: &PermissionMap,
    entries: &[Entry],
    limit: Limit,
) -> Result<Vec<u8>, Memory> {
    let extents = extents_of(alloc, entries)?;
    let all = stretches_by_entries(alloc, map, entries)?;
    let tree = ExtentTree::new(alloc, extents.as_slice())?;
    let count = count_line(entries.len(), limit);
    let text = picture_of(alloc, &tree, all.as_slice(), &count)?;
    Ok(text)
}
