//! Decodes the call that the registers name.

ghost use Rattle.std.specs.Prelude.{◌≡◌, MatchResult, Some, None};
ghost use Rattle.sbi_decode.specs.Calls.{call_of};

use crate::calls::{Call, EXTENSION_ID, NotSupported};
use crate::registers::Registers;

/// Decodes the call that the registers name: the extension id in a7 and the function id in a6, compared as 64-bit
/// words, with arguments in a0 to a5 (SBI, section Binary Encoding).
pub fn decode(registers: &Registers) -> Result<Call, NotSupported>
    ensures { MatchResult result (λ call.
        call_of registers.now ≡ Some call) (λ _. call_of registers.now ≡ None) }
{
    if registers.get(17) != EXTENSION_ID {
        return Err(NotSupported);
    }
    let first = registers.get(10);
    let second = registers.get(11);
    match registers.get(16) {
        0 => Ok(Call::Create {
            base: first,
            text_pages: second,
            data_pages: registers.get(12),
            shared_base: registers.get(13),
            shared_count: registers.get(14),
            entry_offset: registers.get(15),
        }),
        1 => Ok(Call::Destroy { id: first }),
        2 => Ok(Call::Run { id: first }),
        3 => Ok(Call::Stop),
        4 => Ok(Call::Resume { id: first }),
        5 => Ok(Call::Exit { value: first }),
        6 => Ok(Call::Measure {
            id: first,
            k: second,
        }),
        _ => Err(NotSupported),
    }
}
