//! The CSRs of a bank by number.

ghost use Rattle.std.specs.Prelude.{◌%◌, ◌<◌, ◌*◌, MatchOption};
ghost use Rattle.pmp_encoding.specs.Csrs.{IsCsr, IsFaultlessWord, IsFaultOfWord};
ghost use Rattle.pmp_encoding.specs.Named.{IsNamed};

use crate::bank::byte_of;
use crate::fault::EncodingFault;
use crate::limit::Limit;
use crate::register_pair::fault_of;

/// A CSR of a bank.
#[derive(Clone, Copy)]
pub(crate) enum Csr {
    Cfg(usize),
    Address(usize),
}

/// Returns the CSR of this number, if a bank with this limit has one.
pub(crate) fn csr_of(limit: Limit, number: u16) -> Option<Csr>
    ensures { MatchOption result (¬ IsCsr limit number) (IsNamed limit number) }
{
    let number = usize::from(number);
    let count = limit.number() as usize;
    if number >= 0x3B0 {
        let i = number - 0x3B0;
        if i < count {
            return Some(Csr::Address(i));
        }
        return None;
    }
    if number >= 0x3A0 {
        let k = number - 0x3A0;
        if k % 2 == 0 && 4 * k < count {
            return Some(Csr::Cfg(k));
        }
    }
    None
}

/// Returns the fault of the lowest faulty byte of a configuration word.
pub(crate) fn fault_of_word(word: u64) -> Option<EncodingFault>
    ensures { MatchOption result (IsFaultlessWord word) (IsFaultOfWord word) }
{
    for j in 0..8 {
        if let Some(fault) = fault_of(byte_of(word, j), 0) {
            return Some(fault);
        }
    }
    None
}
