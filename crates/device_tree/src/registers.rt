//! The ranges of a node's own registers.

ghost use Rattle.std.specs.Prelude.{◌≡◌, ◌<◌, ◌≤◌, ◌++◌, ◌∷◌, [], ℕ, List, Option, IfErr, MatchOption, OnOk, option_map, codes, map};
ghost use Rattle.device_tree.specs.Pieces.{parts_of};
ghost use Rattle.device_tree.specs.Windows.{path_of};
ghost use Rattle.device_tree.specs.Properties.{value_in};
ghost use Rattle.device_tree.specs.BoardRefusals.{HasNoCells, IsRefusal};
ghost use Rattle.device_tree.specs.Meaning.{AreCells, AreRanges, AreRowRanges, Range, device_by, has_type, is_plain, is_there, is_value, kind_by, kind_of, live_kind, part_range, part_ranges, range_of, said_of};

use crate::PlacedPiece;
use crate::cells::Cells;
use crate::kinds::{Kind, Place};
use crate::machine_devices::is_machine;
use crate::parts::parts_of;
use crate::properties::{cells_in, is_okay, value_of};
use crate::rows::{Extent, RowFault};
use crate::ways::{RowPart, Way};
use std::alloc::Global;

/// A range of addresses, with the name of its node and the offset at which the node begins.
#[derive(Clone, Copy)]
pub struct Found<'a> {
    pub kind: Kind,
    pub extent: Extent,
    pub name: &'a [u8],
    pub offset: usize,
}

/// Returns whether there is a value with exactly these bytes.
fn is_value(value: Option<&[u8]>, wanted: &[u8]) -> bool
    ensures { result ≡ is_value wanted.now (option_map (λ bytes. bytes.now) value.entry) }
{
    match value {
        Some(bytes) => bytes == wanted,
        None => false,
    }
}

/// Returns whether there is a value.
fn is_there(value: Option<&[u8]>) -> bool
    ensures { result ≡ is_there (option_map (λ bytes. bytes.now) value.entry) }
{
    match value {
        Some(_) => true,
        None => false,
    }
}

/// Returns the kind of a device's registers.
fn device_by(is_machine: bool) -> Kind
    ensures { result ≡ device_by is_machine }
{
    if is_machine {
        return Kind::Machine;
    }
    Kind::Device
}

/// Returns the kind of a node's registers, given its place and type.
fn kind_by(
    place: Place,
    is_hart: bool,
    is_memory: bool,
    is_unmapped: bool,
    is_machine: bool,
) -> Option<Kind>
    ensures { result ≡ kind_by place is_hart is_memory is_unmapped is_machine }
{
    match place {
        Place::Elsewhere => {
            if is_hart {
                return Some(Kind::Hart);
            }
            None
        }
        Place::InReserved => {
            if is_unmapped {
                return Some(Kind::Reserved);
            }
            None
        }
        Place::BelowRoot => {
            if is_hart {
                return Some(Kind::Hart);
            }
            if is_memory {
                return Some(Kind::Memory);
            }
            Some(device_by(is_machine))
        }
        Place::OnBus => {
            if is_hart {
                return Some(Kind::Hart);
            }
            if is_memory {
                return None;
            }
            Some(device_by(is_machine))
        }
    }
}

/// Returns the kind of a node's registers, given its place and properties, or `None` if the node is not enabled.
pub fn kind_of<'a>(place: Place, properties: &'a [PlacedPiece<'a>]) -> Option<Kind>
    ensures { result ≡ live_kind place (parts_of properties.now) }
{
    if !is_okay(properties) {
        return None;
    }
    let device_type = value_of(properties, b"device_type".as_slice());
    let is_hart = is_value(device_type, b"cpu\0".as_slice());
    let is_memory = is_value(device_type, b"memory\0".as_slice());
    let is_unmapped = is_there(value_of(properties, b"no-map".as_slice()));
    let delegates = is_there(value_of(properties, b"riscv,children".as_slice()));
    let is_machine = is_machine(
        value_of(properties, b"compatible".as_slice()),
        value_of(properties, b"interrupts-extended".as_slice()),
        delegates,
    );
    kind_by(place, is_hart, is_memory, is_unmapped, is_machine)
}

/// Returns whether the node is a hart: its `device_type` is `cpu`.
pub fn is_hart<'a>(properties: &'a [PlacedPiece<'a>]) -> bool
    ensures { result ≡ has_type (codes "cpu") (parts_of properties.now) }
{
    is_value(
        value_of(properties, b"device_type".as_slice()),
        b"cpu\0".as_slice(),
    )
}

/// Returns the cells that a node defines for its children, if they are numbers up to four.
pub fn cells_of<'a>(properties: &'a [PlacedPiece<'a>]) -> Option<Cells>
    ensures { MatchOption result (HasNoCells (parts_of properties.now))
        (AreCells (parts_of properties.now)) }
{
    let address = cells_in(value_of(properties, b"#address-cells".as_slice()), 2)?;
    let size = cells_in(value_of(properties, b"#size-cells".as_slice()), 1)?;
    Some(Cells { address, size })
}

/// Maximum number of ranges of a tree.
const MOST_RANGES: usize = 1 << 18;

/// Appends a range.
fn note<'a>(
    kind: Kind,
    extent: Extent,
    node: (Kind, &'a [u8], usize),
    found: &mut Vec<Found<'a>>,
) -> Result<(), RowFault>
    ensures noted { OnOk result (said_of found.new.items ≡ said_of found.old.items
        ++ (range_of kind node.entry.1.now extent.base extent.size ∷ [])) }
    ensures refused { IfErr result IsRefusal }
{
    let (_, name, offset) = node;
    if found.len() >= MOST_RANGES {
        return Err(RowFault::TooMany);
    }
    let one = Found {
        kind,
        extent,
        name,
        offset,
    };
    let Ok(()) = found.push(one) else {
        return Err(RowFault::Memory);
    };
    Ok(())
}

/// Appends a part of a row of registers.
fn note_part<'a>(
    part: &RowPart,
    node: (Kind, &'a [u8], usize),
    found: &mut Vec<Found<'a>>,
) -> Result<(), RowFault>
    ensures noted { OnOk result (said_of found.new.items ≡ said_of found.old.items
        ++ (part_range node.entry.0 node.entry.1.now part.now part.now.root ∷ [])) }
    ensures refused { IfErr result IsRefusal }
{
    let size = part.size;
    match part.root {
        Some(base) => note(node.0, Extent { base, size }, node, found),
        None => {
            let base = part.base;
            note(Kind::Untranslated, Extent { base, size }, node, found)
        }
    }
}

/// Appends the parts of a row of registers.
fn note_parts<'a>(
    parts: &[RowPart],
    node: (Kind, &'a [u8], usize),
    found: &mut Vec<Found<'a>>,
) -> Result<(), RowFault>
    ensures noted { OnOk result (said_of found.new.items ≡ said_of found.old.items
        ++ part_ranges node.entry.0 node.entry.1.now parts.now) }
    ensures refused { IfErr result IsRefusal }
{
    for part in parts {
        match note_part(part, node, found) {
            Ok(()) => {}
            Err(fault) => return Err(fault),
        }
    }
    Ok(())
}

/// Returns whether a row needs no translation, because its addresses are those of the root or it is the number of a hart.
fn is_plain(way: &Way, kind: Kind) -> bool
    ensures { result ≡ is_plain (path_of way.now) kind }
{
    match way {
        Way::Same => true,
        Way::Bus(_) => match kind {
            Kind::Hart => true,
            _ => false,
        },
    }
}

/// Appends a row of registers, as the buses translate it.
fn note_row<'a>(
    alloc: Global,
    row: Extent,
    way: &Way,
    node: (Kind, &'a [u8], usize),
    found: &mut Vec<Found<'a>>,
) -> Result<(), RowFault>
    ensures noted { OnOk result ((ranges : List Range)
        × AreRowRanges (is_plain (path_of way.now) node.entry.0) (path_of way.now)
        node.entry.0 node.entry.1.now row ranges
        × (said_of found.new.items ≡ said_of found.old.items ++ ranges)) }
    ensures refused { IfErr result IsRefusal }
{
    if is_plain(way, node.0) {
        return note(node.0, row, node, found);
    }
    let parts = match parts_of(alloc, way, row) {
        Ok(parts) => parts,
        Err(fault) => return Err(fault),
    };
    note_parts(parts.as_slice(), node, found)
}

/// Appends rows of registers, as the buses translate them.
pub(crate) fn note_rows<'a>(
    alloc: Global,
    rows: &[Extent],
    way: &Way,
    node: (Kind, &'a [u8], usize),
    found: &mut Vec<Found<'a>>,
) -> Result<(), RowFault>
    ensures noted { OnOk result ((ranges : List Range)
        × AreRanges (path_of way.now) node.entry.0 node.entry.1.now rows.now ranges
        × (said_of found.new.items ≡ said_of found.old.items ++ ranges)) }
    ensures refused { IfErr result IsRefusal }
{
    for row in rows {
        match note_row(alloc, *row, way, node, found) {
            Ok(()) => {}
            Err(fault) => return Err(fault),
        }
    }
    Ok(())
}
