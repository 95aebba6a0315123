//! The parts of a certificate that have a fixed length.

use byteorder::{ByteOrder, LittleEndian};
use std::marker::Model;

/// The nine bytes of an entry: a configuration byte and a little-endian address register of eight bytes. (RISC-V
/// Privileged Architecture, Physical Memory Protection CSRs)
#[derive(Drop)]
pub struct EntryBytes<'a> {
    bytes: &'a [u8],
}

impl<'a> Model for EntryBytes<'a> {
    ghost use Rattle.std.specs.Prelude.{◌≡◌, ℕ, length, drop, slice_index};
    ghost use Rattle.byteorder.specs.Endian.{little_number};

    // the pair of the configuration byte and the address register
    ghost Value = { ℕ × ℕ };

    ghost view = { λ e. (slice_index e.bytes.now 0, little_number 8 (drop 1 e.bytes.now)) };

    ghost invariant = { λ e. length e.bytes.now ≡ 9 };
}

ghost use Rattle.std.specs.Prelude.{◌≡◌, ◌^◌, ◌<◌, length};
ghost use Rattle.certificate_format.specs.Spelling.{pair_bytes};

impl<'a> EntryBytes<'a> {
    pub(crate) fn of(bytes: &'a [u8]) -> EntryBytes<'a>
        requires { length bytes.now ≡ 9 }
        ensures spelled { bytes.entry.now ≡ pair_bytes result }
        ensures fits { result.1 < 2 ^ 64 }
    {
        EntryBytes { bytes }
    }

    /// Returns the configuration byte, as in a pmpcfg register.
    pub fn cfg(&self) -> u8
        ensures { result ≡ self.now.0 }
    {
        self.bytes[0]
    }

    /// Returns the address register, as in a pmpaddr register: bits 55 to 2 of an address.
    pub fn address(&self) -> u64
        ensures { result ≡ self.now.1 }
    {
        LittleEndian::read_u64(&self.bytes[1..])
    }
}
