//! The strings block: the names of properties, each with its terminating zero.

ghost use Rattle.std.specs.Prelude.{◌≡◌, ◌+◌, ◌≤◌, ◌<◌, ◌^◌, ◌++◌, IfErr, IfNone, IfOk, IfSome, OnOk, List, ℕ, drop, length};
ghost use Rattle.device_tree.specs.Words.{BeginsWithText};
ghost use Rattle.host_tree.specs.Names.{HasName};
ghost use Rattle.host_tree.specs.Written.{IsText};

use crate::bytes::{put_bytes, text_in};
use crate::write_fault::WriteFault;

/// Returns the bytes after the first `n`.
fn after(bytes: &[u8], n: usize) -> &[u8]
    requires { n ≤ length bytes.now }
    ensures { result.now ≡ drop n bytes.now }
{
    &bytes[n..]
}

/// Finds the offset of `name` in the strings block.
fn place_in(names: &[u8], name: &[u8]) -> Option<usize>
    ensures here { IfSome result (λ place. BeginsWithText (drop place names.now) name.now) }
    ensures inside { IfSome result (λ place. place ≤ length names.now) }
    ensures none { IfNone result (HasName names.now name.now → ⊥) }
{
    let mut at = 0;
    'names: while at < names.len() {
        let text = text_in(after(names, at))?;
        if text == name {
            return Some(at);
        }
        at += text.len() + 1;
    }
    None
}

/// Converts an offset to 32 bits.
pub(crate) fn word_of(place: usize) -> Result<u32, WriteFault>
    ensures same { IfOk result (λ word. word ≡ place) }
    ensures fits { OnOk result (place < 2 ^ 32) }
    ensures refused { IfErr result
        (λ fault. (fault ≡ WriteFault.TooLarge) × (2 ^ 32 ≤ place)) }
{
    if place > u32::MAX as usize {
        return Err(WriteFault::TooLarge);
    }
    Ok(place as u32)
}

/// Appends a name and returns its offset.
fn add_name(names: &mut Vec<u8>, name: &[u8]) -> Result<usize, WriteFault>
    requires { IsText name.now }
    ensures put { IfOk result (λ place. BeginsWithText (drop place names.new.items) name.now
        × (added : List ℕ) × (names.new.items ≡ names.old.items ++ added)) }
    ensures size { OnOk result (length names.new.items
        ≡ length names.old.items + (length name.now + 1)) }
    ensures inside { IfOk result (λ place. place ≤ length names.old.items) }
    ensures refused { IfErr result (λ fault. fault ≡ WriteFault.Memory) }
{
    let place = names.as_slice().len();
    put_bytes(names, name)?;
    put_bytes(names, b"\0".as_slice())?;
    Ok(place)
}

/// Returns the offset of a name, which is appended if it is missing.
pub(crate) fn place_of(names: &mut Vec<u8>, name: &[u8]) -> Result<usize, WriteFault>
    requires { IsText name.now }
    ensures put { IfOk result (λ place. BeginsWithText (drop place names.new.items) name.now
        × (added : List ℕ) × (names.new.items ≡ names.old.items ++ added)) }
    ensures size { OnOk result (length names.new.items
        ≤ length names.old.items + (length name.now + 1)) }
    ensures inside { IfOk result (λ place. place ≤ length names.old.items) }
    ensures refused { IfErr result (λ fault. fault ≡ WriteFault.Memory) }
{
    if let Some(place) = place_in(names.as_slice(), name) {
        return Ok(place);
    }
    add_name(names, name)
}
