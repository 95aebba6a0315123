//! Byte strings and big-endian numbers, appended to a buffer.

ghost use Rattle.std.specs.Prelude.{◌≡◌, ◌↔◌, ◌+◌, ◌-◌, ◌≤◌, ◌<◌, ◌^◌, ◌++◌, IsTrue, IfErr, OnOk, MatchOption, List, ℕ, length, replicate};
ghost use Rattle.device_tree.specs.Words.{BeginsWithText, padded, text_len};
ghost use Rattle.host_tree.specs.Written.{IsText, double_word_bytes, text_bytes, value_bytes, word_bytes};

use crate::write_fault::WriteFault;
use byteorder::{BigEndian, ByteOrder};
use memchr::memchr;

/// Appends bytes.
pub(crate) fn put_bytes(out: &mut Vec<u8>, bytes: &[u8]) -> Result<(), WriteFault>
    ensures put { OnOk result (out.new.items ≡ out.old.items ++ bytes.now) }
    ensures refused { IfErr result (λ fault. fault ≡ WriteFault.Memory) }
{
    let Ok(()) = out.extend_from_slice(bytes) else {
        return Err(WriteFault::Memory);
    };
    Ok(())
}

/// Appends a big-endian number of four bytes.
#[tactic(auto, unfolding(crate::specs::Written::word_bytes))]
pub(crate) fn put_word(out: &mut Vec<u8>, word: u32) -> Result<(), WriteFault>
    ensures put { OnOk result (out.new.items ≡ out.old.items ++ word_bytes word) }
    ensures refused { IfErr result (λ fault. fault ≡ WriteFault.Memory) }
{
    let mut bytes = [0; 4];
    BigEndian::write_u32(&mut bytes, word);
    put_bytes(out, bytes.as_slice())?;
    Ok(())
}

/// Appends a big-endian number of eight bytes.
#[tactic(auto, unfolding(crate::specs::Written::double_word_bytes))]
pub(crate) fn put_double_word(out: &mut Vec<u8>, word: u64) -> Result<(), WriteFault>
    ensures put { OnOk result (out.new.items ≡ out.old.items ++ double_word_bytes word) }
    ensures refused { IfErr result (λ fault. fault ≡ WriteFault.Memory) }
{
    let mut bytes = [0; 8];
    BigEndian::write_u64(&mut bytes, word);
    put_bytes(out, bytes.as_slice())?;
    Ok(())
}

/// Appends `count` zeros.
pub(crate) fn put_zeros(out: &mut Vec<u8>, count: usize) -> Result<(), WriteFault>
    ensures put { OnOk result (out.new.items ≡ out.old.items ++ replicate count 0) }
    ensures refused { IfErr result (λ fault. fault ≡ WriteFault.Memory) }
{
    let mut left = count;
    'zeros: while left > 0 {
        let Ok(()) = out.push(0) else {
            return Err(WriteFault::Memory);
        };
        left -= 1;
    }
    Ok(())
}

/// The number of zeros, at least `least`, that pad `len` bytes to a multiple of four.
fn padding(len: usize, least: usize) -> usize
    requires len { len < 2 ^ 63 }
    requires least { least ≤ 1 }
    ensures { result ≡ padded (len + least) - len }
{
    (len + least + 3) / 4 * 4 - len
}

/// Appends a value, padded with zeros to a multiple of four.
pub(crate) fn put_value(out: &mut Vec<u8>, value: &[u8]) -> Result<(), WriteFault>
    ensures put { OnOk result (out.new.items ≡ out.old.items ++ value_bytes value.now) }
    ensures refused { IfErr result (λ fault. fault ≡ WriteFault.Memory) }
{
    put_bytes(out, value)?;
    put_zeros(out, padding(value.len(), 0))?;
    Ok(())
}

/// Appends a text and its terminating zero, padded with zeros to a multiple of four.
pub(crate) fn put_text(out: &mut Vec<u8>, text: &[u8]) -> Result<(), WriteFault>
    ensures put { OnOk result (out.new.items ≡ out.old.items ++ text_bytes text.now) }
    ensures refused { IfErr result (λ fault. fault ≡ WriteFault.Memory) }
{
    put_bytes(out, text)?;
    put_zeros(out, padding(text.len(), 1))?;
    Ok(())
}

/// The number of bytes before the first zero.
fn text_len(bytes: &[u8]) -> usize
    ensures within { result ≤ length bytes.now }
    ensures len { result ≡ text_len bytes.now }
{
    memchr(0, bytes).unwrap_or(bytes.len())
}

/// Returns whether no byte is zero.
pub(crate) fn is_text(bytes: &[u8]) -> bool
    ensures { IsTrue result ↔ IsText bytes.now }
{
    text_len(bytes) == bytes.len()
}

/// Returns the text before the first zero, if there is a zero.
pub(crate) fn text_in(bytes: &[u8]) -> Option<&[u8]>
    ensures { MatchOption result ((text : List ℕ) → BeginsWithText bytes.now text → ⊥)
        (λ text. BeginsWithText bytes.now text.now) }
{
    let len = text_len(bytes);
    if len == bytes.len() {
        return None;
    }
    Some(&bytes[..len])
}
