//! The header: position and size of each block.

ghost use Rattle.std.specs.Prelude.{◌≡◌, ◌++◌, IfErr, OnOk, List, ℕ};
ghost use Rattle.host_tree.specs.Written.{words_bytes};
ghost use Rattle.host_tree.specs.Header.{first_words, header_words, other_words};

use crate::bytes::put_word;
use crate::write_fault::WriteFault;

/// The first four bytes of a flattened device tree.
const MAGIC: u32 = 0xd00d_feed;

/// The version written, and the oldest compatible one.
const VERSION: u32 = 17;

const OLDEST: u32 = 16;

/// The size of the header; the reservations follow it.
pub(crate) const HEADER: usize = 40;

/// The variable fields of a header: offsets and sizes in bytes, and the number of the boot hart.
#[derive(Clone, Copy)]
pub(crate) struct Header {
    pub(crate) size: u32,
    pub(crate) block: u32,
    pub(crate) block_size: u32,
    pub(crate) names: u32,
    pub(crate) names_size: u32,
    pub(crate) boot_hart: u32,
}

/// Appends the first five numbers.
fn put_first(out: &mut Vec<u8>, header: &Header) -> Result<(), WriteFault>
    ensures put { OnOk result (out.new.items
        ≡ out.old.items ++ words_bytes (first_words header.now)) }
    ensures refused { IfErr result (λ fault. fault ≡ WriteFault.Memory) }
{
    put_word(out, MAGIC)?;
    put_word(out, header.size)?;
    put_word(out, header.block)?;
    put_word(out, header.names)?;
    put_word(out, HEADER as u32)?;
    Ok(())
}

/// Appends the other five.
fn put_others(out: &mut Vec<u8>, header: &Header) -> Result<(), WriteFault>
    ensures put { OnOk result (out.new.items
        ≡ out.old.items ++ words_bytes (other_words header.now)) }
    ensures refused { IfErr result (λ fault. fault ≡ WriteFault.Memory) }
{
    put_word(out, VERSION)?;
    put_word(out, OLDEST)?;
    put_word(out, header.boot_hart)?;
    put_word(out, header.names_size)?;
    put_word(out, header.block_size)?;
    Ok(())
}

/// Appends a header.
pub(crate) fn put_header(out: &mut Vec<u8>, header: &Header) -> Result<(), WriteFault>
    ensures put { OnOk result (out.new.items
        ≡ out.old.items ++ words_bytes (header_words header.now)) }
    ensures refused { IfErr result (λ fault. fault ≡ WriteFault.Memory) }
{
    put_first(out, header)?;
    put_others(out, header)?;
    Ok(())
}
