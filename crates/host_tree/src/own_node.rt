//! The beginning of a node and its properties in the host's tree.

ghost use Rattle.std.specs.Prelude.{◌≡◌, ◌∷◌, IfErr, OnOk, List, codes, map};
ghost use Rattle.device_tree.specs.Pieces.{Setting, begins, has, parts_of};
ghost use Rattle.device_tree.specs.declared.rows.Extent.{Extent};
ghost use Rattle.device_tree.specs.Windows.{path_of};
ghost use Rattle.device_tree.specs.Properties.{value_in};
ghost use Rattle.device_tree.specs.Meaning.{live_kind};
ghost use Rattle.host_tree.specs.Refusals.{IsHeadFault};
ghost use Rattle.host_tree.specs.Written.{Adds};
ghost use Rattle.host_tree.specs.HostNodes.{AreRegisters, node_settings};
ghost use Rattle.host_tree.specs.HostTrees.{portion_of};

use crate::close::is_closed;
use crate::fault::MakeFault;
use crate::properties::put_properties;
use crate::put::put_begin;
use crate::share::Share;
use crate::writer::TreeWriter;
use device_tree::{Cells, Head, Place, Way, is_hart};
use std::alloc::Global;

/// Writes the beginning of a node and its properties, given its place and its bus.
pub(crate) fn put_head<'a>(
    alloc: Global,
    share: &Share<'_>,
    head: &Head<'a>,
    place: Place,
    bus: (&Cells, &Way),
    writer: &mut TreeWriter,
) -> Result<(), MakeFault>
    ensures put { OnOk result ((rows : List Extent)
        × AreRegisters (live_kind place (parts_of head.now.properties.now))
        (value_in (codes "reg") (parts_of head.now.properties.now)) bus.entry.0.now rows
        × ((own : List Setting) → parts_of head.now.properties.now ≡ map has own
        → Adds writer.old writer.new (begins head.now.name.now ∷ map has
        (node_settings (portion_of share.now) place (path_of bus.entry.1.now) rows own)))) }
    ensures refused { IfErr result (IsHeadFault place bus.entry.0.now
        (parts_of head.now.properties.now)
        (begins head.now.name.now ∷ parts_of head.now.properties.now)) }
{
    let is_closed = is_closed(alloc, share, head.properties, place, bus)?;
    put_begin(writer, head.name)?;
    put_properties(
        alloc,
        writer,
        head.properties,
        is_hart(head.properties),
        is_closed,
    )?;
    Ok(())
}
