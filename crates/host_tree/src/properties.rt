//! The properties of a node in the host's tree.

ghost use Rattle.std.specs.Prelude.{◌≡◌, ◌∷◌, IfErr, OnOk, List, [], map};
ghost use Rattle.device_tree.specs.Pieces.{Setting, has, part_of, parts_of};
ghost use Rattle.host_tree.specs.Refusals.{IsPutFault};
ghost use Rattle.host_tree.specs.Written.{Adds, setting};
ghost use Rattle.host_tree.specs.Settings.{host_settings, host_value, left_setting, left_settings, names_extensions, status_of};

use crate::extensions::open_names;
use crate::fault::MakeFault;
use crate::put::put_property;
use crate::writer::TreeWriter;
use device_tree::{Piece, PlacedPiece};
use std::alloc::Global;

/// Returns whether a property of that name lists a hart's extensions.
fn names_extensions(name: &[u8]) -> bool
    ensures { result ≡ names_extensions name.now }
{
    name == b"riscv,isa".as_slice() || name == b"riscv,isa-extensions".as_slice()
}

/// Writes a property; closed extensions are removed from a hart's lists.
fn put_host_value(
    alloc: Global,
    writer: &mut TreeWriter,
    name: &[u8],
    value: &[u8],
    is_hart: bool,
) -> Result<(), MakeFault>
    ensures put { OnOk result (Adds writer.old writer.new
        (has (setting name.now (host_value is_hart name.now value.now)) ∷ [])) }
    ensures refused { IfErr result (IsPutFault (has (setting name.now value.now) ∷ [])) }
{
    if is_hart && names_extensions(name) {
        let open = open_names(alloc, value)?;
        return put_property(writer, name, open.as_slice());
    }
    put_property(writer, name, value)
}

/// Writes a property unless it is the status of a closed node.
fn put_left(
    alloc: Global,
    writer: &mut TreeWriter,
    name: &[u8],
    value: &[u8],
    is_hart: bool,
    is_closed: bool,
) -> Result<(), MakeFault>
    ensures put { OnOk result (Adds writer.old writer.new
        (map has (left_setting is_hart is_closed (setting name.now value.now)))) }
    ensures refused { IfErr result (IsPutFault (has (setting name.now value.now) ∷ [])) }
{
    if is_closed && name == b"status".as_slice() {
        return Ok(());
    }
    put_host_value(alloc, writer, name, value, is_hart)
}

/// Writes what remains of a piece that is a property.
fn put_piece(
    alloc: Global,
    writer: &mut TreeWriter,
    piece: Piece<'_>,
    is_hart: bool,
    is_closed: bool,
) -> Result<(), MakeFault>
    ensures put { OnOk result ((one : Setting) → part_of piece.entry ≡ has one
        → Adds writer.old writer.new (map has (left_setting is_hart is_closed one))) }
    ensures refused { IfErr result (IsPutFault (part_of piece.entry ∷ [])) }
{
    match piece {
        Piece::Has(name, value) => put_left(alloc, writer, name, value, is_hart, is_closed),
        _ => Ok(()),
    }
}

/// Writes the status of a closed node.
fn put_status(writer: &mut TreeWriter, is_closed: bool) -> Result<(), MakeFault>
    ensures put { OnOk result (Adds writer.old writer.new (map has (status_of is_closed))) }
    ensures refused { IfErr result (IsPutFault []) }
{
    if is_closed {
        return put_property(writer, b"status".as_slice(), b"disabled\0".as_slice());
    }
    Ok(())
}

/// Writes what remains of all properties.
fn put_all_left<'a>(
    alloc: Global,
    writer: &mut TreeWriter,
    properties: &'a [PlacedPiece<'a>],
    is_hart: bool,
    is_closed: bool,
) -> Result<(), MakeFault>
    ensures put { OnOk result ((own : List Setting) → parts_of properties.now ≡ map has own
        → Adds writer.old writer.new (map has (left_settings is_hart is_closed own))) }
    ensures refused { IfErr result (IsPutFault (parts_of properties.now)) }
{
    for placed in properties {
        put_piece(alloc, writer, placed.piece, is_hart, is_closed)?;
    }
    Ok(())
}

/// Writes the properties of a node as the host gets them.
pub(crate) fn put_properties<'a>(
    alloc: Global,
    writer: &mut TreeWriter,
    properties: &'a [PlacedPiece<'a>],
    is_hart: bool,
    is_closed: bool,
) -> Result<(), MakeFault>
    ensures put { OnOk result ((own : List Setting) → parts_of properties.now ≡ map has own
        → Adds writer.old writer.new (map has (host_settings is_hart is_closed own))) }
    ensures refused { IfErr result (IsPutFault (parts_of properties.now)) }
{
    put_status(writer, is_closed)?;
    put_all_left(alloc, writer, properties, is_hart, is_closed)?;
    Ok(())
}
