//! The rows of the C function that writes the registers.

ghost use Rattle.std.specs.Prelude.{◌≡◌, ◌≤◌, length};
ghost use Rattle.map_table.specs.CTexts.{c_shared_write, c_shared_read, c_shared_read_begin};

use crate::register_rows::{Row, Rows};
use crate::shared::kept_bits;
use map_text::push_register;
use pmp_encoding::Xlen;
use text_lines::{Line, push_decimal, push_text};

/// An instruction for each address register from the first on.
#[derive(Drop)]
pub(crate) struct AddressWrites {
    pub(crate) first: u8,
}

impl Rows for AddressWrites {
    ghost use Rattle.std.specs.Prelude.{◌^◌, ◌-◌};
    ghost use Rattle.map_table.specs.CTexts.{c_address_write};

    ghost row_text = { λ rows. c_address_write rows.first };

    ghost most = { λ rows. 2 ^ 64 - rows.first };

    fn row(&self, i: usize) -> Row {
        let place = u64::from(self.first) + i as u64;
        let mut front = Line::new();
        push_text(&mut front, b"    __asm__ volatile(\"csrw pmpaddr");
        push_decimal(&mut front, place);
        push_text(&mut front, b", %0\" : : \"r\"(addr[");
        push_decimal(&mut front, place);
        push_text(&mut front, b"]));\n");
        Row {
            front,
            back: Line::new(),
        }
    }
}

/// Returns the text before the number of a shared word.
fn shared_read_begin<'a>(xlen: Xlen) -> &'a [u8]
    ensures text { result.now ≡ c_shared_read_begin xlen }
    ensures most { length result.now ≤ 58 }
{
    match xlen {
        Xlen::Rv32 => b"    uint32_t kept;\n    __asm__ volatile(\"csrr %0, pmpcfg",
        Xlen::Rv64 => b"    uint64_t kept;\n    __asm__ volatile(\"csrr %0, pmpcfg",
    }
}

/// Returns the instructions that read a shared word, and keep the bits of the entries below the first.
fn shared_read(xlen: Xlen, first: u8) -> Line
    ensures { result ≡ c_shared_read xlen first }
{
    let mut line = Line::new();
    push_text(&mut line, shared_read_begin(xlen));
    push_decimal(&mut line, xlen.word_number(xlen.word_of(first)));
    push_text(&mut line, b"\" : \"=r\"(kept));\n    kept &= 0x");
    push_register(&mut line, xlen, kept_bits(xlen, first));
    push_text(&mut line, b";\n");
    line
}

/// Returns the instruction that writes these bits together with the bytes of the list.
fn shared_write(xlen: Xlen, first: u8) -> Line
    ensures { result ≡ c_shared_write xlen first }
{
    let word = xlen.word_of(first);
    let mut line = Line::new();
    push_text(&mut line, b"    __asm__ volatile(\"csrw pmpcfg");
    push_decimal(&mut line, xlen.word_number(word));
    push_text(&mut line, b", %0\" : : \"r\"(kept | cfg[");
    push_decimal(&mut line, word as u64);
    push_text(&mut line, b"]));\n");
    line
}

/// The instructions for a shared word.
#[derive(Drop)]
pub(crate) struct SharedWrites {
    pub(crate) xlen: Xlen,
    pub(crate) first: u8,
}

impl Rows for SharedWrites {
    ghost use Rattle.map_table.specs.CTexts.{c_shared_row};

    ghost row_text = { λ rows. c_shared_row rows.xlen rows.first };

    ghost most = { λ rows. 1 };

    fn row(&self, i: usize) -> Row {
        Row {
            front: shared_read(self.xlen, self.first),
            back: shared_write(self.xlen, self.first),
        }
    }
}

/// An instruction for each configuration word without an entry below the first.
#[derive(Drop)]
pub(crate) struct WordWrites {
    pub(crate) xlen: Xlen,
    pub(crate) first: u8,
}

impl Rows for WordWrites {
    ghost use Rattle.std.specs.Prelude.{◌-◌};
    ghost use Rattle.pmp_encoding.specs.Widths.{whole_word};
    ghost use Rattle.map_table.specs.CTexts.{c_word_write};

    ghost row_text = { λ rows. c_word_write rows.xlen rows.first };

    ghost most = { λ rows. 64 - whole_word rows.xlen rows.first };

    fn row(&self, i: usize) -> Row {
        let word = self.xlen.whole_word(self.first) + i;
        let mut front = Line::new();
        push_text(&mut front, b"    __asm__ volatile(\"csrw pmpcfg");
        push_decimal(&mut front, self.xlen.word_number(word));
        push_text(&mut front, b", %0\" : : \"r\"(cfg[");
        push_decimal(&mut front, word as u64);
        push_text(&mut front, b"]));\n");
        Row {
            front,
            back: Line::new(),
        }
    }
}
