//! The comment on the conditions for writing the registers.

ghost use Rattle.std.specs.Prelude.{◌≡◌};
ghost use Rattle.map_table.specs.Heads.{head_begin, head_below, head_end, head_rules, head_width};

use pmp_encoding::Xlen;

/// Returns the first lines of the comment.
pub(crate) fn head_begin<'a>() -> &'a [u8]
    ensures { result.now ≡ head_begin }
{
    b"/*
 * PMP registers, planned by pmpmon. With them a hart lets supervisor and user mode
 * do exactly what the map says, where all of this holds:
"
}

/// Returns the condition on the width of the hart's registers.
pub(crate) fn head_width<'a>(xlen: Xlen) -> &'a [u8]
    ensures { result.now ≡ head_width xlen }
{
    match xlen {
        Xlen::Rv32 => b" *  - the hart is RV32: its configuration words have 32 bits;\n",
        Xlen::Rv64 => b" *  - the hart is RV64: its configuration words have 64 bits;\n",
    }
}

/// Returns the conditions for every list.
pub(crate) fn head_rules<'a>() -> &'a [u8]
    ensures { result.now ≡ head_rules }
{
    b" *  - machine mode writes them, on each hart;
 *  - no entry is locked (L = 0);
 *  - the hart protects whole pages of 4096 bytes: its grain is no larger;
"
}

/// Returns the condition for a list that does not begin at entry 0.
pub(crate) fn head_below<'a>(first: u8) -> &'a [u8]
    ensures { result.now ≡ head_below first }
{
    if first == 0 {
        return b"";
    }
    b" *  - no entry below these says otherwise where it matches: they are left as they are
 *    and come first, and `pmpmon audit` of all registers tells what all of them mean;
"
}

/// Returns the rest of the comment.
pub(crate) fn head_end<'a>() -> &'a [u8]
    ensures { result.now ≡ head_end }
{
    b" *  - the address registers are written first, then the configuration words, 0 to
 *    each word after these too, and then comes sfence.vma.
 */
"
}
