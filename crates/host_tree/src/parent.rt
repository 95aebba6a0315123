//! A new `/reserved-memory` node.

ghost use Rattle.std.specs.Prelude.{◌≡◌, ◌<◌, ◌≤◌, ◌^◌, ◌++◌, IfErr, OnOk, List, [], map};
ghost use Rattle.byteorder.specs.Endian.{big_bytes};
ghost use Rattle.device_tree.specs.Nodes.{no_nodes, parts_of_nodes};
ghost use Rattle.device_tree.specs.Pieces.{has};
ghost use Rattle.host_tree.specs.Written.{Adds};
ghost use Rattle.host_tree.specs.Refusals.{IsPutFault, IsRangeFault};
ghost use Rattle.host_tree.specs.Ranges.{AllFit, parent_settings, with_ranges};

use crate::fault::MakeFault;
use crate::put::{put_begin, put_end, put_property};
use crate::reserved::{Reserved, put_ranges};
use crate::writer::TreeWriter;
use byteorder::{BigEndian, ByteOrder};
use device_tree::Cells;
use std::alloc::Global;

/// Encodes a number of cells, at most four.
fn count_bytes(cells: usize) -> [u8; 4]
    requires { cells ≤ 4 }
    ensures { result ≡ big_bytes 4 cells }
{
    let mut bytes = [0; 4];
    BigEndian::write_u32(&mut bytes, cells as u32);
    bytes
}

/// Writes the properties of a new `/reserved-memory`.
fn put_settings(writer: &mut TreeWriter, cells: &Cells) -> Result<(), MakeFault>
    ensures put { OnOk result (Adds writer.old writer.new (map has (parent_settings cells.now))) }
    ensures refused { IfErr result (IsPutFault []) }
{
    let address = count_bytes(cells.address);
    let size = count_bytes(cells.size);
    put_property(writer, b"#address-cells".as_slice(), address.as_slice())?;
    put_property(writer, b"#size-cells".as_slice(), size.as_slice())?;
    put_property(writer, b"ranges".as_slice(), b"".as_slice())?;
    Ok(())
}

/// Writes a new `/reserved-memory` that contains `ranges`.
pub(crate) fn put_parent(
    alloc: Global,
    writer: &mut TreeWriter,
    cells: &Cells,
    ranges: &[Reserved],
) -> Result<(), MakeFault>
    ensures written { OnOk result (Adds writer.old writer.new
        (parts_of_nodes (with_ranges cells.now ranges.now no_nodes))) }
    ensures fit { OnOk result (AllFit cells.now ranges.now) }
    ensures refused { IfErr result (IsRangeFault cells.now ranges.now) }
{
    put_begin(writer, b"reserved-memory".as_slice())?;
    put_settings(writer, cells)?;
    put_ranges(alloc, writer, cells, ranges)?;
    put_end(writer)?;
    Ok(())
}
