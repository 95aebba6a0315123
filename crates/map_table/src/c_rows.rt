//! The rows of C.

ghost use Rattle.std.specs.Prelude.{◌≡◌, decimal};
ghost use Rattle.map_table.specs.CTexts.{c_addresses_size, c_begin, c_between, c_count_begin, c_count_is, c_load_addresses, c_load_begin, c_load_words, c_loader_note, c_loader_reason, c_loader_writes, c_words_size};

use crate::names::{address_or_zero, push_place};
use crate::register_rows::{Row, Rows};
use map_text::{ListedEntry, entry_from, push_register, word_from};
use pmp_encoding::{Limit, Xlen};
use text_lines::{Line, push_decimal, push_text};

/// Returns the text before the arrays, with a guard that makes a compiler for the other width fail.
pub(crate) fn begin<'a>(xlen: Xlen) -> &'a [u8]
    ensures { result.now ≡ c_begin xlen }
{
    match xlen {
        Xlen::Rv32 => b"#if defined(__riscv) && __riscv_xlen != 32
#error \"these are the registers of RV32\"
#endif

#include <stdint.h>

static const uint32_t ",
        Xlen::Rv64 => b"#if defined(__riscv) && __riscv_xlen != 64
#error \"these are the registers of RV64\"
#endif

#include <stdint.h>

static const uint64_t ",
    }
}

/// Returns the rest of the name of the array of address registers, and its size.
pub(crate) fn addresses_size<'a>(limit: Limit) -> &'a [u8]
    ensures { result.now ≡ c_addresses_size limit }
{
    match limit {
        Limit::Sixteen => b"addr[16] = {\n",
        Limit::SixtyFour => b"addr[64] = {\n",
    }
}

/// Returns the end of that array, and the beginning of the array of configuration words.
pub(crate) fn between<'a>(xlen: Xlen) -> &'a [u8]
    ensures { result.now ≡ c_between xlen }
{
    match xlen {
        Xlen::Rv32 => b"};\n\nstatic const uint32_t ",
        Xlen::Rv64 => b"};\n\nstatic const uint64_t ",
    }
}

/// Returns the rest of its name, and its size.
pub(crate) fn words_size<'a>(xlen: Xlen, limit: Limit) -> &'a [u8]
    ensures { result.now ≡ c_words_size xlen limit }
{
    match (xlen, limit) {
        (Xlen::Rv32, Limit::Sixteen) => b"cfg[4] = {\n",
        (Xlen::Rv32, Limit::SixtyFour) => b"cfg[16] = {\n",
        (Xlen::Rv64, Limit::Sixteen) => b"cfg[2] = {\n",
        (Xlen::Rv64, Limit::SixtyFour) => b"cfg[8] = {\n",
    }
}

/// Returns the end of the arrays, and the text before the number of entries.
pub(crate) fn count_begin<'a>() -> &'a [u8]
    ensures { result.now ≡ c_count_begin }
{
    b"};

/* How many entries are in use; those after them are off. */
enum { "
}

/// Returns the text between the name of the number of entries and the number.
pub(crate) fn count_is<'a>() -> &'a [u8]
    ensures { result.now ≡ c_count_is }
{
    b"_count = "
}

/// Returns a number in decimal.
pub(crate) fn number_text(number: usize) -> Line
    ensures { result ≡ decimal number }
{
    let mut line = Line::new();
    push_decimal(&mut line, number as u64);
    line
}

/// Returns the beginning of the comment on the function that writes the registers.
pub(crate) fn loader_note<'a>() -> &'a [u8]
    ensures { result.now ≡ c_loader_note }
{
    b" };

#ifdef __riscv
/*
"
}

/// Returns the comment on the registers that it writes.
pub(crate) fn loader_writes<'a>(first: u8) -> &'a [u8]
    ensures { result.now ≡ c_loader_writes first }
{
    if first == 0 {
        return b" * Writes all of them. Machine mode calls it on each hart, with mstatus.MPRV = 0.\n";
    }
    b" * Writes those of the first entry in use and of all after it. The others are left as
 * they are, and so are their bytes of a configuration word that they share with these.
 * Machine mode calls it on each hart, with mstatus.MPRV = 0.
"
}

/// Returns the comment on the order of the writes.
pub(crate) fn loader_reason<'a>() -> &'a [u8]
    ensures { result.now ≡ c_loader_reason }
{
    b" * The addresses are written first, so that no configuration word switches an entry
 * on that has an address of an older list. Until that word is written an older entry
 * may have a new address. This lets nobody in: no other mode runs on this hart before
 * machine mode leaves, and an entry that is not locked does not bind machine mode.
 * After sfence.vma nothing that was checked against the older list is used.
 */
static inline void "
}

/// Returns the rest of that function's name, and the text before the array of address registers.
pub(crate) fn load_addresses<'a>(xlen: Xlen) -> &'a [u8]
    ensures { result.now ≡ c_load_addresses xlen }
{
    match xlen {
        Xlen::Rv32 => b"_load(void)\n{\n    const uint32_t *addr = ",
        Xlen::Rv64 => b"_load(void)\n{\n    const uint64_t *addr = ",
    }
}

/// Returns the text before the array of configuration words.
pub(crate) fn load_words<'a>(xlen: Xlen) -> &'a [u8]
    ensures { result.now ≡ c_load_words xlen }
{
    match xlen {
        Xlen::Rv32 => b"addr;\n    const uint32_t *cfg = ",
        Xlen::Rv64 => b"addr;\n    const uint64_t *cfg = ",
    }
}

/// Returns the text before the instructions.
pub(crate) fn load_begin<'a>() -> &'a [u8]
    ensures { result.now ≡ c_load_begin }
{
    b"cfg;\n\n"
}

/// A row for each address register.
#[derive(Drop)]
pub(crate) struct Addresses<'a, E> {
    pub(crate) xlen: Xlen,
    pub(crate) entries: &'a [E],
    pub(crate) first: u8,
}

impl<E: ListedEntry> Rows for Addresses<'_, E> {
    ghost use Rattle.std.specs.Prelude.{◌^◌, map};
    ghost use Rattle.map_table.specs.CTexts.{c_address_row};

    ghost row_text = { λ rows. c_address_row rows.xlen rows.first (map E.listed rows.entries.now) };

    ghost most = { λ rows. 2 ^ 64 };

    fn row(&self, i: usize) -> Row {
        let entry = entry_from(self.entries, self.first, i);
        let mut front = Line::new();
        push_text(&mut front, b"    0x");
        push_register(&mut front, self.xlen, address_or_zero(entry));
        push_text(&mut front, b", /* ");
        push_place(&mut front, self.first, i as u64, entry);
        push_text(&mut front, b" */\n");
        Row {
            front,
            back: Line::new(),
        }
    }
}

/// A row for each configuration word.
#[derive(Drop)]
pub(crate) struct Words<'a, E> {
    pub(crate) xlen: Xlen,
    pub(crate) entries: &'a [E],
    pub(crate) first: u8,
}

impl<E: ListedEntry> Rows for Words<'_, E> {
    ghost use Rattle.std.specs.Prelude.{map};
    ghost use Rattle.map_table.specs.CTexts.{c_word_row};

    ghost row_text = { λ rows. c_word_row rows.xlen rows.first (map E.listed rows.entries.now) };

    ghost most = { λ rows. 64 };

    fn row(&self, i: usize) -> Row {
        let mut front = Line::new();
        push_text(&mut front, b"    0x");
        push_register(
            &mut front,
            self.xlen,
            word_from(self.xlen, self.entries, self.first, i),
        );
        let mut back = Line::new();
        push_text(&mut back, b", /* pmpcfg");
        push_decimal(&mut back, self.xlen.word_number(i));
        push_text(&mut back, b" */\n");
        Row { front, back }
    }
}
