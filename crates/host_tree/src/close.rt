//! Decides which nodes are closed to the host.

ghost use Rattle.std.specs.Prelude.{◌≡◌, List, IfErr, IfOk, Option, None, Some, codes, drop, option_map};
ghost use Rattle.device_tree.specs.Pieces.{parts_of};
ghost use Rattle.device_tree.specs.declared.rows.Extent.{Extent};
ghost use Rattle.device_tree.specs.Windows.{path_of};
ghost use Rattle.device_tree.specs.Properties.{value_in};
ghost use Rattle.device_tree.specs.Meaning.{is_there, live_kind};
ghost use Rattle.device_tree.specs.BoardRefusals.{IsNodeFault, IsOwnFault};
ghost use Rattle.device_tree.specs.declared.board_fault.BoardReason.{BoardReason};
ghost use Rattle.device_tree.specs.declared.rows.RowFault.{RowFault};
ghost use Rattle.host_tree.specs.Shares.{are_hosts, has_hart, is_closed, is_kept};
ghost use Rattle.host_tree.specs.HostNodes.{AreRegisters};

use crate::fault::{MakeFault, rows_fault};
use crate::share::Share;
use device_tree::{Cells, Extent, Kind, Place, PlacedPiece, Way, kind_of, rows_of, value_of};
use std::alloc::Global;

/// Returns whether the host may use all of these registers.
fn are_hosts(share: &Share<'_>, way: &Way, rows: &[Extent]) -> bool
    ensures { result ≡ are_hosts share.now.ranges.now (path_of way.now) rows.now }
{
    for row in rows {
        if !share.has(way, *row) {
            return false;
        }
    }
    true
}

/// Returns whether the first of these rows is the number of a hart that the host may use.
fn has_hart(share: &Share<'_>, rows: &[Extent]) -> bool
    ensures { result ≡ has_hart share.now.harts rows.now }
{
    match rows.first() {
        Some(row) => row.base < share.harts,
        None => false,
    }
}

/// Returns whether the host may use a node of this kind with these registers.
fn is_kept(share: &Share<'_>, way: &Way, kind: Option<Kind>, rows: &[Extent]) -> bool
    ensures { result
        ≡ is_kept share.now.harts share.now.ranges.now (path_of way.now) kind rows.now }
{
    match kind {
        None => true,
        Some(Kind::Memory) => true,
        Some(Kind::Reserved) => true,
        Some(Kind::Untranslated) => true,
        Some(Kind::Hart) => has_hart(share, rows),
        Some(Kind::Device) => are_hosts(share, way, rows),
        Some(Kind::Machine) => are_hosts(share, way, rows),
    }
}

/// Parses the rows of a node's registers. The list is empty if the node has no kind or no `reg`.
fn registers_of(
    alloc: Global,
    kind: Option<Kind>,
    reg: Option<&[u8]>,
    cells: &Cells,
) -> Result<Vec<Extent>, MakeFault>
    ensures ok { IfOk result (λ rows. AreRegisters kind
        (option_map (λ bytes. bytes.now) reg.entry) cells.now rows.items) }
    ensures refused { IfErr result (λ fault. (rows : RowFault)
        × (fault ≡ MakeFault.NotUnderstood (BoardReason.BadRows rows))
        × IsOwnFault kind (option_map (λ bytes. bytes.now) reg.entry) cells.now rows) }
{
    let Some(_) = kind else {
        return Ok(Vec::new(alloc));
    };
    let Some(reg) = reg else {
        return Ok(Vec::new(alloc));
    };
    match rows_of(alloc, reg, cells) {
        Ok(rows) => Ok(rows),
        Err(fault) => Err(rows_fault(fault)),
    }
}

/// Returns whether a node with these properties accesses its registers through another node.
fn has_regmap<'a>(properties: &'a [PlacedPiece<'a>]) -> bool
    ensures { result ≡ is_there (value_in (codes "regmap") (parts_of properties.now)) }
{
    match value_of(properties, b"regmap".as_slice()) {
        Some(_) => true,
        None => false,
    }
}

/// Returns whether a node with these properties is closed to the host, given its place and its bus.
pub(crate) fn is_closed<'a>(
    alloc: Global,
    share: &Share<'_>,
    properties: &'a [PlacedPiece<'a>],
    place: Place,
    bus: (&Cells, &Way),
) -> Result<bool, MakeFault>
    ensures ok { IfOk result (λ closed. (rows : List Extent)
        × AreRegisters (live_kind place (parts_of properties.now))
        (value_in (codes "reg") (parts_of properties.now)) bus.entry.0.now rows
        × (closed ≡ is_closed share.now.harts share.now.ranges.now (path_of bus.entry.1.now)
        (live_kind place (parts_of properties.now)) rows (parts_of properties.now))) }
    ensures refused { IfErr result (λ fault. (reason : BoardReason)
        × (fault ≡ MakeFault.NotUnderstood reason)
        × IsNodeFault place bus.entry.0.now (parts_of properties.now) reason) }
{
    let (cells, way) = bus;
    let kind = kind_of(place, properties);
    let reg = value_of(properties, b"reg".as_slice());
    let rows = registers_of(alloc, kind, reg, cells)?;
    let is_kept = is_kept(share, way, kind, rows.as_slice());
    Ok(!is_kept || has_regmap(properties))
}
