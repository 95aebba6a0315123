//! Writes a flattened device tree token by token.

ghost use Rattle.std.specs.Prelude.{◌≡◌, ◌∷◌, IfErr, OnOk, []};
ghost use Rattle.device_tree.specs.Pieces.{begins, ends, has};
ghost use Rattle.host_tree.specs.Refusals.{IsBeginFault, IsPropertyFault};
ghost use Rattle.host_tree.specs.Written.{Adds, HasWritten, setting};

use crate::blocks::{put_begin, put_end, put_property};
use crate::bytes::is_text;
use crate::names::place_of;
use crate::write_fault::WriteFault;
use std::alloc::Global;

/// A tree being written: the names of its properties, each once, and the structure block so far.
///
/// Do not use it after an `Err`.
#[derive(Drop)]
pub struct TreeWriter {
    pub(crate) names: Vec<u8>,
    pub(crate) block: Vec<u8>,
}

impl TreeWriter {
    /// Returns a writer that has written nothing.
    pub fn new(alloc: Global) -> TreeWriter
        ensures { HasWritten result [] }
    {
        TreeWriter {
            names: Vec::new(alloc),
            block: Vec::new(alloc),
        }
    }

    /// Begins a node with this name and unit address.
    pub fn begin_node(&mut self, name: &[u8]) -> Result<(), WriteFault>
        ensures put { OnOk result (Adds self.old self.new (begins name.now ∷ [])) }
        ensures refused { IfErr result (IsBeginFault name.now) }
    {
        if !is_text(name) {
            return Err(WriteFault::ZeroInName);
        }
        put_begin(&mut self.block, name)?;
        Ok(())
    }

    /// Adds a property to the node begun last.
    pub fn property(&mut self, name: &[u8], value: &[u8]) -> Result<(), WriteFault>
        ensures put { OnOk result
            (Adds self.old self.new (has (setting name.now value.now) ∷ [])) }
        ensures refused { IfErr result (IsPropertyFault self.old name.now value.now) }
    {
        if !is_text(name) {
            return Err(WriteFault::ZeroInName);
        }
        let place = place_of(&mut self.names, name)?;
        put_property(&mut self.block, place, value)?;
        Ok(())
    }

    /// Ends the innermost open node.
    pub fn end_node(&mut self) -> Result<(), WriteFault>
        ensures put { OnOk result (Adds self.old self.new (ends ∷ [])) }
        ensures refused { IfErr result (λ fault. fault ≡ WriteFault.Memory) }
    {
        put_end(&mut self.block)?;
        Ok(())
    }
}
