//! Reserved ranges, written as nodes.

ghost use Rattle.std.specs.Prelude.{◌≡◌, ◌⊎◌, ◌*◌, ◌<◌, ◌≤◌, ◌^◌, ◌++◌, ◌∷◌, OnOk, IfErr, IfOk, List, [], map, drop};
ghost use Rattle.byteorder.specs.Endian.{big_bytes};
ghost use Rattle.device_tree.specs.Pieces.{has};
ghost use Rattle.device_tree.specs.Nodes.{parts_of_nodes};
ghost use Rattle.host_tree.specs.Written.{Adds};
ghost use Rattle.host_tree.specs.Refusals.{IsPutFault, IsRangeFault, IsUnfit, IsUnfitRange};
ghost use Rattle.host_tree.specs.Ranges.{AllFit, Fits, compatible_of, hex_digit, hex_text, purpose_name, range_name, range_nodes, range_settings, reg_bytes};

use crate::fault::MakeFault;
use crate::put::{put_begin, put_end, put_property};
use crate::write_fault::WriteFault;
use crate::writer::TreeWriter;
use byteorder::{BigEndian, ByteOrder};
use device_tree::{Cells, Extent};
use std::alloc::Global;

/// The use of a reserved range.
#[derive(Clone, Copy, Debug, PartialEq, Eq)]
pub enum Purpose {
    /// The monitor, which alone may access the range.
    Monitor,
    /// Enclaves: the node's `compatible` is `pmpmon,pool`.
    Pool,
}

/// A range that the operating system does not touch or uses for one purpose only.
#[derive(Clone, Copy, Debug, PartialEq, Eq)]
pub struct Reserved {
    pub purpose: Purpose,
    pub extent: Extent,
}

/// Appends bytes.
fn put_bytes(out: &mut Vec<u8>, bytes: &[u8]) -> Result<(), MakeFault>
    ensures put { OnOk result (out.new.items ≡ out.old.items ++ bytes.now) }
    ensures refused { IfErr result (λ fault. fault ≡ MakeFault.NotWritten WriteFault.Memory) }
{
    let Ok(()) = out.extend_from_slice(bytes) else {
        return Err(MakeFault::NotWritten(WriteFault::Memory));
    };
    Ok(())
}

/// Appends a hexadecimal digit.
fn put_digit(out: &mut Vec<u8>, value: u8) -> Result<(), MakeFault>
    requires { value < 16 }
    ensures put { OnOk result (out.new.items ≡ out.old.items ++ hex_digit value ∷ []) }
    ensures refused { IfErr result (λ fault. fault ≡ MakeFault.NotWritten WriteFault.Memory) }
{
    let digit = if value < 10 { 48 + value } else { 87 + value };
    let Ok(()) = out.push(digit) else {
        return Err(MakeFault::NotWritten(WriteFault::Memory));
    };
    Ok(())
}

/// Appends the lowest `most` hexadecimal digits of a number, without leading zeros.
fn put_hex(out: &mut Vec<u8>, most: u32, value: u64) -> Result<(), MakeFault>
    ensures put { OnOk result (out.new.items ≡ out.old.items ++ hex_text most value) }
    ensures refused { IfErr result (λ fault. fault ≡ MakeFault.NotWritten WriteFault.Memory) }
{
    if most == 0 {
        return Ok(());
    }
    if value < 16 {
        put_digit(out, value as u8)?;
        return Ok(());
    }
    put_hex(out, most - 1, value / 16)?;
    put_digit(out, (value % 16) as u8)?;
    Ok(())
}

/// The name of a range's node before the unit address.
fn purpose_name(purpose: Purpose) -> &'static [u8]
    ensures { result.now ≡ purpose_name purpose }
{
    match purpose {
        Purpose::Monitor => b"monitor".as_slice(),
        Purpose::Pool => b"enclaves".as_slice(),
    }
}

/// Returns the name of a range's node.
fn range_name(alloc: Global, range: Reserved) -> Result<Vec<u8>, MakeFault>
    ensures ok { IfOk result (λ name. name.items ≡ range_name range) }
    ensures refused { IfErr result (λ fault. fault ≡ MakeFault.NotWritten WriteFault.Memory) }
{
    let mut name = Vec::new(alloc);
    put_bytes(&mut name, purpose_name(range.purpose))?;
    put_bytes(&mut name, b"@".as_slice())?;
    put_hex(&mut name, 16, range.extent.base)?;
    Ok(name)
}

/// Appends a number of one or two cells.
fn put_cells(out: &mut Vec<u8>, cells: usize, number: u64) -> Result<(), MakeFault>
    ensures spelt { OnOk result (out.new.items ≡ out.old.items ++ big_bytes (4 * cells) number) }
    ensures fits { OnOk result (number < 256 ^ (4 * cells)) }
    ensures refused { IfErr result (λ fault. (fault ≡ MakeFault.NotWritten WriteFault.Memory)
        ⊎ ((fault ≡ MakeFault.BadCells) × IsUnfit cells number)) }
{
    if cells == 1 && number < 1 << 32 {
        let mut bytes = [0; 4];
        BigEndian::write_u32(&mut bytes, number as u32);
        return put_bytes(out, bytes.as_slice());
    }
    if cells == 2 {
        let mut bytes = [0; 8];
        BigEndian::write_u64(&mut bytes, number);
        return put_bytes(out, bytes.as_slice());
    }
    Err(MakeFault::BadCells)
}

/// Encodes an address and a size.
fn reg_bytes(alloc: Global, cells: &Cells, extent: Extent) -> Result<Vec<u8>, MakeFault>
    ensures spelt { IfOk result (λ reg. reg.items ≡ reg_bytes cells.now extent) }
    ensures fits { OnOk result (Fits cells.now extent) }
    ensures refused { IfErr result (λ fault. (fault ≡ MakeFault.NotWritten WriteFault.Memory)
        ⊎ ((fault ≡ MakeFault.BadCells) × IsUnfitRange cells.now extent)) }
{
    let mut reg = Vec::new(alloc);
    put_cells(&mut reg, cells.address, extent.base)?;
    put_cells(&mut reg, cells.size, extent.size)?;
    Ok(reg)
}

/// Writes `compatible` for a range that the operating system may use.
fn put_compatible(writer: &mut TreeWriter, purpose: Purpose) -> Result<(), MakeFault>
    ensures put { OnOk result (Adds writer.old writer.new (map has (compatible_of purpose))) }
    ensures refused { IfErr result (IsPutFault []) }
{
    match purpose {
        Purpose::Monitor => Ok(()),
        Purpose::Pool => {
            put_property(
                writer,
                b"compatible".as_slice(),
                b"pmpmon,pool\0".as_slice(),
            )?;
            Ok(())
        }
    }
}

/// Writes the properties of a range.
fn put_settings(
    alloc: Global,
    writer: &mut TreeWriter,
    cells: &Cells,
    range: Reserved,
) -> Result<(), MakeFault>
    ensures written { OnOk result (Adds writer.old writer.new
        (map has (range_settings cells.now range))) }
    ensures fits { OnOk result (Fits cells.now range.extent) }
    ensures refused { IfErr result (IsRangeFault cells.now (range ∷ [])) }
{
    let reg = reg_bytes(alloc, cells, range.extent)?;
    put_compatible(writer, range.purpose)?;
    put_property(writer, b"reg".as_slice(), reg.as_slice())?;
    put_property(writer, b"no-map".as_slice(), b"".as_slice())?;
    Ok(())
}

/// Writes the node of a range.
fn put_range(
    alloc: Global,
    writer: &mut TreeWriter,
    cells: &Cells,
    range: Reserved,
) -> Result<(), MakeFault>
    ensures written { OnOk result (Adds writer.old writer.new
        (parts_of_nodes (range_nodes cells.now (range ∷ [])))) }
    ensures fits { OnOk result (Fits cells.now range.extent) }
    ensures refused { IfErr result (IsRangeFault cells.now (range ∷ [])) }
{
    let name = range_name(alloc, range)?;
    put_begin(writer, name.as_slice())?;
    put_settings(alloc, writer, cells, range)?;
    put_end(writer)?;
    Ok(())
}

/// Writes the nodes of ranges.
pub(crate) fn put_ranges(
    alloc: Global,
    writer: &mut TreeWriter,
    cells: &Cells,
    ranges: &[Reserved],
) -> Result<(), MakeFault>
    ensures written { OnOk result (Adds writer.old writer.new
        (parts_of_nodes (range_nodes cells.now ranges.now))) }
    ensures fit { OnOk result (AllFit cells.now ranges.now) }
    ensures refused { IfErr result (IsRangeFault cells.now ranges.now) }
{
    for range in ranges {
        put_range(alloc, writer, cells, *range)?;
    }
    Ok(())
}
