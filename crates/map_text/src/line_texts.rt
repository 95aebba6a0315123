//! The lines that the program prints, in buffers of fixed length.

ghost use Rattle.std.specs.Prelude.{◌≡◌, ◌+◌, ◌≤◌, ◌++◌, length};
ghost use Rattle.map_text.specs.Texts.{accepted_of_text, accepted_text, count_text, refused_text, register_text, word_text};

use pmp_encoding::Xlen;
use text_lines::{Line, push_decimal, push_hex, push_text};

/// Returns `entries N`.
pub fn count_line(n: u64) -> Line
    ensures { result ≡ count_text n }
{
    let mut line = Line::new();
    push_text(&mut line, b"entries ");
    push_decimal(&mut line, n);
    line.push(b'\n');
    line
}

/// Appends all digits of a register.
#[inline(always)]
pub fn push_register(line: &mut Line, xlen: Xlen, value: u64)
    requires { length line.old + 16 ≤ 128 }
    ensures items { line.new ≡ line.old ++ register_text xlen value }
    ensures len { length line.new ≤ length line.old + 16 }
{
    push_hex(line, value, xlen.digits());
}

/// Returns `pmpcfgK 0xWWWWWWWWWWWWWWWW`, or the same with a word of 32 bits.
pub fn word_line(xlen: Xlen, k: u64, word: u64) -> Line
    ensures { result ≡ word_text xlen k word }
{
    let mut line = Line::new();
    push_text(&mut line, b"pmpcfg");
    push_decimal(&mut line, k);
    push_text(&mut line, b" 0x");
    push_register(&mut line, xlen, word);
    line.push(b'\n');
    line
}

/// Returns `accepted N`.
pub fn accepted_line(n: u64) -> Line
    ensures { result ≡ accepted_text n }
{
    let mut line = Line::new();
    push_text(&mut line, b"accepted ");
    push_decimal(&mut line, n);
    line.push(b'\n');
    line
}

/// Returns `accepted N of L`.
pub fn accepted_of_line(n: u64, limit: u64) -> Line
    ensures { result ≡ accepted_of_text n limit }
{
    let mut line = Line::new();
    push_text(&mut line, b"accepted ");
    push_decimal(&mut line, n);
    push_text(&mut line, b" of ");
    push_decimal(&mut line, limit);
    line.push(b'\n');
    line
}

/// Returns `refused CODE NAME`.
pub fn refused_line(code: u64, name: &str) -> Line
    requires { length name.now ≤ 32 }
    ensures { result ≡ refused_text code name.now }
{
    let mut line = Line::new();
    push_text(&mut line, b"refused ");
    push_decimal(&mut line, code);
    line.push(b' ');
    push_text(&mut line, name.as_bytes());
    line.push(b'\n');
    line
}
