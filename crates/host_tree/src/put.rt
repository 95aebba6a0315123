//! The tokens of a tree, written with `MakeFault` as the error.

ghost use Rattle.std.specs.Prelude.{◌∷◌, IfErr, OnOk, []};
ghost use Rattle.device_tree.specs.Pieces.{begins, ends, has};
ghost use Rattle.host_tree.specs.Refusals.{IsPutFault};
ghost use Rattle.host_tree.specs.Written.{Adds, setting};

use crate::fault::MakeFault;
use crate::writer::TreeWriter;

/// Writes the beginning of a node.
pub(crate) fn put_begin(writer: &mut TreeWriter, name: &[u8]) -> Result<(), MakeFault>
    ensures put { OnOk result (Adds writer.old writer.new (begins name.now ∷ [])) }
    ensures refused { IfErr result (IsPutFault (begins name.now ∷ [])) }
{
    match writer.begin_node(name) {
        Ok(()) => Ok(()),
        Err(fault) => Err(MakeFault::NotWritten(fault)),
    }
}

/// Writes a property.
pub(crate) fn put_property(
    writer: &mut TreeWriter,
    name: &[u8],
    value: &[u8],
) -> Result<(), MakeFault>
    ensures put { OnOk result
        (Adds writer.old writer.new (has (setting name.now value.now) ∷ [])) }
    ensures refused { IfErr result (IsPutFault (has (setting name.now value.now) ∷ [])) }
{
    match writer.property(name, value) {
        Ok(()) => Ok(()),
        Err(fault) => Err(MakeFault::NotWritten(fault)),
    }
}

/// Writes the end of a node.
pub(crate) fn put_end(writer: &mut TreeWriter) -> Result<(), MakeFault>
    ensures put { OnOk result (Adds writer.old writer.new (ends ∷ [])) }
    ensures refused { IfErr result (IsPutFault []) }
{
    match writer.end_node() {
        Ok(()) => Ok(()),
        Err(fault) => Err(MakeFault::NotWritten(fault)),
    }
}
