//! Texts built in memory or in a buffer of fixed size.

ghost use Rattle.std.specs.Prelude.{◌≡◌, ◌+◌, ◌++◌, ◌≤◌, OnOk, decimal, length};
ghost use Rattle.arrayvec.specs.ArrayVec.{array_vec_len};
ghost use Rattle.text_lines.specs.Pieces.{address_text, without_zeros};

use crate::written::{Line, push_decimal, push_hex};
use arrayvec::ArrayVec;
use std::alloc::AllocError;

/// Appends a text.
pub fn push(text: &mut Vec<u8>, bytes: &str) -> Result<(), AllocError>
    ensures { OnOk result (text.new.items ≡ text.old.items ++ bytes.now) }
{
    text.extend_from_slice(bytes.as_bytes())?;
    Ok(())
}

/// Appends a number in decimal.
pub fn push_number(text: &mut Vec<u8>, number: u64) -> Result<(), AllocError>
    ensures { OnOk result (text.new.items ≡ text.old.items ++ decimal number) }
{
    let mut line = Line::new();
    push_decimal(&mut line, number);
    text.extend_from_slice(line.as_slice())?;
    Ok(())
}

/// Returns digits without leading zeros, but keeps the last digit.
pub fn without_zeros(digits: &[u8]) -> &[u8]
    ensures value { result.now ≡ without_zeros digits.now }
    ensures most { length result.now ≤ length digits.now }
{
    match digits {
        [b'0', rest @ ..] => {
            if rest.is_empty() {
                digits
            } else {
                without_zeros(rest)
            }
        }
        _ => digits,
    }
}

/// Appends a number in the form `0x1000`.
#[tactic(auto, unfolding(crate::specs::Pieces::address_text))]
pub fn push_address(text: &mut Vec<u8>, number: u64) -> Result<(), AllocError>
    ensures { OnOk result (text.new.items ≡ text.old.items ++ address_text number) }
{
    let mut line = Line::new();
    push_hex(&mut line, number, 16);
    push(text, "0x")?;
    text.extend_from_slice(without_zeros(line.as_slice()))?;
    Ok(())
}

/// Appends a text to a buffer that has room for it.
pub fn append<const N: usize>(buffer: &mut ArrayVec<u8, N>, text: &[u8])
    requires { array_vec_len buffer.old + length text.now ≤ N }
    ensures items { buffer.new.items ≡ buffer.old.items ++ text.now }
    ensures len { array_vec_len buffer.new ≡ array_vec_len buffer.old + length text.now }
{
    let Ok(()) = buffer.try_extend_from_slice(text) else {
        unreachable!();
    };
}
