//! The ranges of one node, and the translation of its children's addresses to the root.

ghost use Rattle.std.specs.Prelude.{◌≡◌, ◌≤◌, ◌++◌, ℕ, List, Some, IfErr, IfOk, OnOk, option_map};
ghost use Rattle.device_tree.specs.Windows.{path_of};
ghost use Rattle.device_tree.specs.Meaning.{AreOwn, IsInnerWay, IsPassedOn, Range, place_by, said_of};
ghost use Rattle.device_tree.specs.BoardRefusals.{IsOwnFault, IsPassFault, IsRowFault, IsWayFault};

use crate::cells::Cells;
use crate::kinds::{Kind, Place};
use crate::registers::{Found, note_rows};
use crate::rows::{RowFault, rows_of};
use crate::ways::{Way, windows_of};
use std::alloc::Global;

/// Appends the registers of a node of a known kind.
fn note_registers<'a>(
    alloc: Global,
    reg: &[u8],
    bus: (&Cells, &Way),
    node: (Kind, &'a [u8], usize),
    found: &mut Vec<Found<'a>>,
) -> Result<(), RowFault>
    ensures noted { OnOk result ((ranges : List Range)
        × AreOwn (Some node.entry.0) (Some reg.now) bus.entry.0.now
        (path_of bus.entry.1.now) node.entry.1.now ranges
        × (said_of found.new.items ≡ said_of found.old.items ++ ranges)) }
    ensures refused { IfErr result (IsRowFault bus.entry.0.now reg.now) }
{
    let (cells, way) = bus;
    let rows = match rows_of(alloc, reg, cells) {
        Ok(rows) => rows,
        Err(fault) => return Err(fault),
    };
    note_rows(alloc, rows.as_slice(), way, node, found)
}

/// Appends the registers of a node, if it has a kind.
pub(crate) fn note_own<'a>(
    alloc: Global,
    reg: Option<&[u8]>,
    bus: (&Cells, &Way),
    node: (Option<Kind>, &'a [u8], usize),
    found: &mut Vec<Found<'a>>,
) -> Result<(), RowFault>
    ensures noted { OnOk result ((ranges : List Range)
        × AreOwn node.entry.0 (option_map (λ bytes. bytes.now) reg.entry) bus.entry.0.now
        (path_of bus.entry.1.now) node.entry.1.now ranges
        × (said_of found.new.items ≡ said_of found.old.items ++ ranges)) }
    ensures refused { IfErr result (IsOwnFault node.entry.0
        (option_map (λ bytes. bytes.now) reg.entry) bus.entry.0.now) }
{
    let (kind, name, offset) = node;
    let Some(kind) = kind else {
        return Ok(());
    };
    let Some(reg) = reg else {
        return Ok(());
    };
    note_registers(alloc, reg, bus, (kind, name, offset), found)
}

/// Returns the translation for the children of a bus with this `ranges`.
fn passed_on(
    alloc: Global,
    ranges: &[u8],
    inner: &Cells,
    outer: usize,
    way: &Way,
) -> Result<Way, RowFault>
    requires { outer ≤ 4 }
    ensures found { IfOk result (λ found. IsPassedOn ranges.now inner.now outer
        (path_of way.now) (Some (path_of found))) }
    ensures refused { IfErr result (IsPassFault ranges.now inner.now outer) }
{
    if ranges.is_empty() {
        return way.copied();
    }
    match windows_of(alloc, ranges, inner, outer) {
        Ok(windows) => way.behind(alloc, windows),
        Err(fault) => Err(fault),
    }
}

/// Returns the translation for a node's children, or `None` if their addresses are not those of the root.
pub(crate) fn inner_way(
    alloc: Global,
    ranges: Option<&[u8]>,
    inner: &Cells,
    outer: usize,
    way: &Way,
) -> Result<Option<Way>, RowFault>
    requires { outer ≤ 4 }
    ensures found { IfOk result (λ found.
        IsInnerWay (option_map (λ bytes. bytes.now) ranges.entry) inner.now outer
        (path_of way.now) (option_map path_of found)) }
    ensures refused { IfErr result (IsWayFault (option_map (λ bytes. bytes.now) ranges.entry)
        inner.now outer) }
{
    let Some(ranges) = ranges else {
        return Ok(None);
    };
    if inner.address > 2 {
        return Ok(None);
    }
    match passed_on(alloc, ranges, inner, outer, way) {
        Ok(way) => Ok(Some(way)),
        Err(fault) => Err(fault),
    }
}

/// Returns the place of the children of a node.
pub(crate) fn place_by(place: Place, is_reserved: bool, is_live: bool, has_way: bool) -> Place
    ensures { result ≡ place_by place is_reserved is_live has_way }
{
    match place {
        Place::BelowRoot => {
            if is_reserved {
                return Place::InReserved;
            }
            if is_live && has_way {
                return Place::OnBus;
            }
            Place::Elsewhere
        }
        Place::OnBus => {
            if is_live && has_way {
                return Place::OnBus;
            }
            Place::Elsewhere
        }
        Place::InReserved => Place::Elsewhere,
        Place::Elsewhere => Place::Elsewhere,
    }
}
