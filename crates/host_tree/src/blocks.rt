//! The tokens of the structure block, appended to a buffer.

ghost use Rattle.std.specs.Prelude.{◌≡◌, ◌⊎◌, ◌≤◌, ◌+◌, ◌^◌, ◌++◌, IfErr, OnOk, List, ℕ, drop, length};
ghost use Rattle.device_tree.specs.Pieces.{Setting, SpellsPart, begins, ends, has};
ghost use Rattle.device_tree.specs.Words.{BeginsWithText, padded};
ghost use Rattle.host_tree.specs.Written.{IsText, part_size, setting};

use crate::bytes::{put_text, put_value, put_word};
use crate::names::word_of;
use crate::write_fault::WriteFault;

/// Appends `FDT_BEGIN_NODE` and the name.
pub(crate) fn put_begin(block: &mut Vec<u8>, name: &[u8]) -> Result<(), WriteFault>
    requires { IsText name.now }
    ensures put { OnOk result ((added : List ℕ) × (block.new.items ≡ block.old.items ++ added)
        × ((names rest : List ℕ) → SpellsPart names (added ++ rest) (begins name.now) rest)) }
    ensures size { OnOk result (length block.new.items
        ≡ length block.old.items + part_size (begins name.now)) }
    ensures refused { IfErr result (λ fault. fault ≡ WriteFault.Memory) }
{
    put_word(block, 1)?;
    put_text(block, name)?;
    Ok(())
}

/// Appends a property whose name is at `place` in the strings block.
pub(crate) fn put_property(
    block: &mut Vec<u8>,
    place: usize,
    value: &[u8],
) -> Result<(), WriteFault>
    ensures put { OnOk result ((added : List ℕ) × (block.new.items ≡ block.old.items ++ added)
        × ((names rest name : List ℕ) → BeginsWithText (drop place names) name
        → SpellsPart names (added ++ rest) (has (setting name value.now)) rest)) }
    ensures size { OnOk result (length block.new.items
        ≡ length block.old.items + (12 + padded (length value.now))) }
    ensures refused { IfErr result (λ fault. (fault ≡ WriteFault.Memory)
        ⊎ ((fault ≡ WriteFault.TooLarge) × ((2 ^ 32 ≤ length value.now) ⊎ (2 ^ 32 ≤ place)))) }
{
    let len = word_of(value.len())?;
    let place = word_of(place)?;
    put_word(block, 3)?;
    put_word(block, len)?;
    put_word(block, place)?;
    put_value(block, value)?;
    Ok(())
}

/// Appends `FDT_END_NODE`.
pub(crate) fn put_end(block: &mut Vec<u8>) -> Result<(), WriteFault>
    ensures put { OnOk result ((added : List ℕ) × (block.new.items ≡ block.old.items ++ added)
        × ((names rest : List ℕ) → SpellsPart names (added ++ rest) ends rest)) }
    ensures size { OnOk result (length block.new.items ≡ length block.old.items + 4) }
    ensures refused { IfErr result (λ fault. fault ≡ WriteFault.Memory) }
{
    put_word(block, 2)?;
    Ok(())
}
