//! Reads an input line by line, splits lines into words and numbers, and writes numbered answers to a device.
//!
//! A [`Source`] supplies bytes and a [`Sink`] accepts them. Both count their failures; if their bytes are known, a
//! contract states which were read and written. [`Counted`] turns any reader or writer of the standard library into
//! such a device. [`write_whole`] writes all bytes, or only a prefix if the sink fails or accepts none. A [`LineSink`]
//! writes a number followed by a short text: a [`HeldSink`], which buffers 32 KiB, does so without a call, and any
//! other [`Sink`] through its `write`.
//!
//! A [`LineReader`] returns the lines of a source through one buffer, and [`next_line`] those of a text in memory.
//! [`Words`] are the words of a line without its comment, and [`number`] parses one of them. [`interpret_lines`] reads
//! line by line, lets an [`Interpreter`] act on each line, and writes its answer before it reads the next one. An
//! answer is its number, counted by a [`Counter`], followed by a [`Line`]. However the loop ends, its contract relates
//! the bytes read to the lines interpreted, in their order, and to the answers written. Only [`HeldSink`] allocates.
//!
//! ```text
//! let mut lines = LineReader::<4096>::new();
//! while lines.next_line(&mut source)? {
//!     let mut words = Words::of(lines.line())?;
//!     while let Some(word) = words.next_word() {
//!         // number(word)
//!     }
//!     if lines.has_ended() {
//!         break;
//!     }
//! }
//! ```
#![tactic(auto)]

mod buffer;
mod bytes;
mod columns;
mod counter;
pub mod fakes;
mod fault;
mod file_lines;
mod held_bytes;
mod held_sink;
mod hexadecimal;
mod laws;
mod lexical;
mod line_loop;
mod line_sink;
mod lines;
mod stream_fault;
mod streams;
mod texts;
mod whole_text;
mod written;

pub use buffer::Buffer;
pub use bytes::{
    after_name, after_text, begins_with, has_mark, is_allowed, is_blank, is_name, is_text,
};
pub use columns::{Placed, len_before, next_word, word_from};
pub use counter::Counter;
pub use fault::{ReadFault, RunFault};
pub use file_lines::{allowed_len, content_of, split_line, unended};
pub use held_sink::HeldSink;
pub use hexadecimal::{hex_digits, word_digits};
pub use laws::{lines_law, words_law};
pub use lexical::{
    NotUnderstood, Words, are_allowed, behind_mark, behind_space, leading_hexadecimal,
    leading_numeral, number, numeral, word_len,
};
pub use line_loop::{Interpreter, LineRefusal, interpret_lines};
pub use line_sink::{DIGITS_ROOM, Direct, Held, LineSink, Numbered, TEXT_ROOM};
pub use lines::{LONGEST, LineReader, without_return};
pub use stream_fault::SourceFault;
pub use streams::{Counted, DeviceFault, Sink, Source, write_whole};
pub use texts::{append, push, push_address, push_number, without_zeros};
pub use whole_text::{AT_ONCE, next_line};
pub use written::{Line, hex_digit, push_decimal, push_hex, push_text, push_word_line};
