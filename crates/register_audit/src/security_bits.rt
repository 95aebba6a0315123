//! Classification of the bits of `mseccfg`.

ghost use Rattle.std.specs.Prelude.{◌≡◌, ◌<◌};
ghost use Rattle.register_audit.specs.SecurityBits.{foreign_bit, has_bit, is_foreign_bit, is_of_sort, lowest_bit, unknown_bit};

/// A class of bits of `mseccfg` that do not belong to Smepmp.
#[derive(Clone, Copy)]
enum BitSort {
    /// A bit of another extension.
    Foreign,
    /// A bit that no extension defines.
    Unknown,
}

/// Returns whether a bit belongs to an extension other than Smepmp: USEED, SSEED, MLPE and PMM.
fn is_foreign_bit(bit: u8) -> bool
    ensures { result ≡ is_foreign_bit bit }
{
    (bit == 8 || bit == 9) || (bit == 10 || (bit == 32 || bit == 33))
}

fn is_of_sort(sort: BitSort, bit: u8) -> bool
    ensures { result ≡ is_of_sort sort bit }
{
    match sort {
        BitSort::Foreign => is_foreign_bit(bit),
        BitSort::Unknown => !(bit < 3 || is_foreign_bit(bit)),
    }
}

/// Returns whether a bit of a value is 1 and of this class.
fn has_bit(sort: BitSort, value: u64, bit: u8) -> bool
    requires { bit < 64 }
    ensures { result ≡ has_bit sort value bit }
{
    (value >> bit) % 2 == 1 && is_of_sort(sort, bit)
}

/// Returns the lowest bit of this class that is 1.
fn lowest_bit(sort: BitSort, value: u64) -> Option<u8>
    ensures { result ≡ lowest_bit sort value }
{
    for bit in 0..64 {
        if has_bit(sort, value, bit) {
            return Some(bit);
        }
    }
    None
}

/// Returns the lowest bit of `mseccfg` that is 1 and that no extension defines, if there is one.
pub fn unknown_bit(mseccfg: u64) -> Option<u8>
    ensures { result ≡ unknown_bit mseccfg }
{
    lowest_bit(BitSort::Unknown, mseccfg)
}

/// Returns the lowest bit of `mseccfg` that is 1 and not about PMP, if there is one.
pub(crate) fn foreign_bit(mseccfg: u64) -> Option<u8>
    ensures { result ≡ foreign_bit mseccfg }
{
    lowest_bit(BitSort::Foreign, mseccfg)
}
