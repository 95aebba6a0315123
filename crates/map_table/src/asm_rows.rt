//! The rows of assembly.

ghost use Rattle.std.specs.Prelude.{◌≡◌, ◌≤◌, length, map, option_map};
ghost use Rattle.map_table.specs.AsmTexts.{asm_begin, asm_registers_note, asm_end, asm_guard, asm_shared_write, asm_shared_read, label_end, label_of};

use crate::names::{address_or_zero, entry_at, push_note};
use crate::register_rows::{Row, Rows};
use crate::shared::{kept_bits, shared_word_count};
use map_text::{ListedEntry, push_register, word_from};
use pmp_encoding::{Limit, Xlen};
use text_lines::{Line, push_decimal, push_text};

/// Returns the last instruction, and the end of the routine if it has a name.
pub(crate) fn end(name: Option<&str>) -> &'static [u8]
    ensures { result.now ≡ asm_end (option_map (λ s. s.now) name.entry) }
{
    match name {
        Some(_) => b"    sfence.vma\n    ret\n",
        None => b"    sfence.vma\n",
    }
}

/// Returns the name of a routine, if it has one.
pub(crate) fn label_of<'a>(name: Option<&'a str>) -> &'a [u8]
    ensures { result.now ≡ label_of (option_map (λ s. s.now) name.entry) }
{
    match name {
        Some(name) => name.as_bytes(),
        None => b"",
    }
}

/// Returns the rest of the routine's label.
pub(crate) fn label_end<'a>(name: Option<&str>) -> &'a [u8]
    ensures { result.now ≡ label_end (option_map (λ s. s.now) name.entry) }
{
    match name {
        Some(_) => b"_load:\n",
        None => b"",
    }
}

/// Returns the note on the registers that the code changes.
fn registers_note<'a>(xlen: Xlen, limit: Limit, first: u8) -> &'a [u8]
    ensures text { result.now ≡ asm_registers_note xlen limit first }
    ensures most { length result.now ≤ 34 }
{
    if shared_word_count(xlen, limit, first) == 0 {
        return b"/* Only t0 is changed. */\n";
    }
    b"/* Only t0 and t1 are changed. */\n"
}

/// Returns an instruction that the other width lacks.
fn guard<'a>(xlen: Xlen) -> &'a [u8]
    ensures text { result.now ≡ asm_guard xlen }
    ensures most { length result.now ≤ 90 }
{
    match xlen {
        Xlen::Rv32 => {
            b"    j       1f /* over what an assembler for RV64 refuses */\n    rdtimeh zero\n1:\n"
        }
        Xlen::Rv64 => b"    addiw   zero, zero, 0 /* an assembler for RV32 refuses this */\n",
    }
}

/// Returns the note and the guard instruction.
pub(crate) fn begin(xlen: Xlen, limit: Limit, first: u8) -> Line
    ensures { result ≡ asm_begin xlen limit first }
{
    let mut line = Line::new();
    push_text(&mut line, registers_note(xlen, limit, first));
    push_text(&mut line, guard(xlen));
    line
}

/// Two instructions for each address register of the list.
#[derive(Drop)]
pub(crate) struct Addresses<'a, E> {
    pub(crate) xlen: Xlen,
    pub(crate) entries: &'a [E],
    pub(crate) first: u8,
}

impl<E: ListedEntry> Rows for Addresses<'_, E> {
    ghost use Rattle.std.specs.Prelude.{◌^◌, ◌-◌, map};
    ghost use Rattle.map_table.specs.AsmTexts.{asm_address_row};

    ghost row_text = { λ rows. asm_address_row rows.xlen rows.first (map E.listed rows.entries.now) };

    ghost most = { λ rows. 2 ^ 64 - rows.first };

    fn row(&self, i: usize) -> Row {
        let entry = entry_at(self.entries, i);
        let place = u64::from(self.first) + i as u64;
        let mut front = Line::new();
        push_text(&mut front, b"    li      t0, 0x");
        push_register(&mut front, self.xlen, address_or_zero(entry));
        push_text(&mut front, b" /* ");
        push_note(&mut front, place, entry);
        push_text(&mut front, b" */\n");
        let mut back = Line::new();
        push_text(&mut back, b"    csrw    pmpaddr");
        push_decimal(&mut back, place);
        push_text(&mut back, b", t0\n");
        Row { front, back }
    }
}

/// Returns the instructions that read a shared word, and keep the bits of the entries below the first.
fn shared_read(xlen: Xlen, first: u8) -> Line
    ensures { result ≡ asm_shared_read xlen first }
{
    let mut line = Line::new();
    push_text(&mut line, b"    csrr    t1, pmpcfg");
    push_decimal(&mut line, xlen.word_number(xlen.word_of(first)));
    push_text(&mut line, b"\n    li      t0, 0x");
    push_register(&mut line, xlen, kept_bits(xlen, first));
    push_text(&mut line, b"\n    and     t1, t1, t0\n");
    line
}

/// Returns the instructions that write these bits together with the bytes of the list.
fn shared_write<E: ListedEntry>(xlen: Xlen, entries: &[E], first: u8) -> Line
    ensures { result ≡ asm_shared_write xlen first (map E.listed entries.now) }
{
    let word = xlen.word_of(first);
    let mut line = Line::new();
    push_text(&mut line, b"    li      t0, 0x");
    push_register(&mut line, xlen, word_from(xlen, entries, first, word));
    push_text(&mut line, b"\n    or      t0, t0, t1\n    csrw    pmpcfg");
    push_decimal(&mut line, xlen.word_number(word));
    push_text(&mut line, b", t0\n");
    line
}

/// The instructions for a shared word.
#[derive(Drop)]
pub(crate) struct SharedWords<'a, E> {
    pub(crate) xlen: Xlen,
    pub(crate) entries: &'a [E],
    pub(crate) first: u8,
}

impl<E: ListedEntry> Rows for SharedWords<'_, E> {
    ghost use Rattle.std.specs.Prelude.{map};
    ghost use Rattle.map_table.specs.AsmTexts.{asm_shared_row};

    ghost row_text = { λ rows. asm_shared_row rows.xlen rows.first (map E.listed rows.entries.now) };

    ghost most = { λ rows. 1 };

    fn row(&self, i: usize) -> Row {
        Row {
            front: shared_read(self.xlen, self.first),
            back: shared_write(self.xlen, self.entries, self.first),
        }
    }
}

/// Two instructions for each word without an entry below the first.
#[derive(Drop)]
pub(crate) struct Words<'a, E> {
    pub(crate) xlen: Xlen,
    pub(crate) entries: &'a [E],
    pub(crate) first: u8,
}

impl<E: ListedEntry> Rows for Words<'_, E> {
    ghost use Rattle.std.specs.Prelude.{◌-◌, map};
    ghost use Rattle.pmp_encoding.specs.Widths.{whole_word};
    ghost use Rattle.map_table.specs.AsmTexts.{asm_word_row};

    ghost row_text = { λ rows. asm_word_row rows.xlen rows.first (map E.listed rows.entries.now) };

    ghost most = { λ rows. 64 - whole_word rows.xlen rows.first };

    fn row(&self, i: usize) -> Row {
        let word = self.xlen.whole_word(self.first) + i;
        let mut front = Line::new();
        push_text(&mut front, b"    li      t0, 0x");
        push_register(
            &mut front,
            self.xlen,
            word_from(self.xlen, self.entries, self.first, word),
        );
        push_text(&mut front, b"\n");
        let mut back = Line::new();
        push_text(&mut back, b"    csrw    pmpcfg");
        push_decimal(&mut back, self.xlen.word_number(word));
        push_text(&mut back, b", t0\n");
        Row { front, back }
    }
}
