//! Sinks for the lines of a report, which are numbers followed by short texts.

ghost use Rattle.std.specs.Prelude.{◌≡◌, ◌+◌, ◌≤◌, ◌++◌, length, take};
ghost use Rattle.arrayvec.specs.ArrayVec.{array_vec_len};
ghost use Rattle.std.specs.Io.KnownBytes.{Keeps};
ghost use Rattle.text_lines.specs.Numbered.{numbered_text};
ghost use Rattle.text_lines.specs.Writings.{writing, Prints};

use crate::streams::{DeviceFault, Sink, write_whole};
use arrayvec::ArrayVec;

/// The size of the array of a short text, in bytes.
pub const TEXT_ROOM: usize = 128;

/// The size of the array of a number's first digits, in bytes.
pub const DIGITS_ROOM: usize = 20;

/// A short text after a number. The number's last digit is separate, and only the first bytes of both arrays count.
#[derive(Clone, Copy)]
pub struct Numbered<'a> {
    /// The digits before the last one.
    pub front: &'a [u8; DIGITS_ROOM],
    pub front_len: usize,
    pub last: u8,
    /// The text after the number.
    pub text: &'a [u8; TEXT_ROOM],
    pub text_len: usize,
}

/// Marks a sink that accepts each line at once.
pub struct Direct;

/// Marks a sink that holds lines back until it is flushed.
pub struct Held;

/// A sink for lines. `M` is [`Held`] for a sink that may hold them back, and [`Direct`] for any sink.
pub trait LineSink<M>: Sink {
    /// Writes all of a numbered text, as [`write_whole`] does.
    fn write_numbered(&mut self, text: Numbered<'_>) -> Result<(), DeviceFault>
        requires front { text.front_len ≤ 20 }
        requires text { text.text_len ≤ 128 }
        ensures { Prints (numbered_text text.entry)
            (writing Self.contents Self.failures Self.stalls self.old self.new) result };

    /// Passes on the lines that the sink holds, if any. Lines that cannot be passed on stay held, and a later write or
    /// the end reports the failure.
    fn flush(&mut self)
        ensures bytes { Keeps (Self.contents self.old) (Self.contents self.new) }
        ensures failures { Self.failures self.new ≡ Self.failures self.old }
        ensures stalls { Self.stalls self.new ≡ Self.stalls self.old };
}

/// The bytes of a numbered text.
type Joined = ArrayVec<u8, 160>;

/// Appends bytes to a text that has room for them.
fn append(text: &mut Joined, bytes: &[u8])
    requires { array_vec_len text.old + length bytes.now ≤ 160 }
    ensures items { text.new.items ≡ text.old.items ++ bytes.now }
    ensures len { array_vec_len text.new ≡ array_vec_len text.old + length bytes.now }
{
    let Ok(()) = text.try_extend_from_slice(bytes) else {
        unreachable!();
    };
}

/// Joins the parts of a numbered text.
fn joined(text: Numbered<'_>) -> Joined
    requires front { text.front_len ≤ 20 }
    requires text { text.text_len ≤ 128 }
    ensures { result.items ≡ numbered_text text.entry }
{
    let front = text.front;
    let behind = text.text;
    let mut bytes = ArrayVec::new();
    append(&mut bytes, &front[..text.front_len]);
    append(&mut bytes, &[text.last]);
    append(&mut bytes, &behind[..text.text_len]);
    bytes
}

/// Writes all of a numbered text to any sink. Not inlined, because a sink that holds lines back accepts nearly all of
/// them at once.
#[inline(never)]
pub(crate) fn write_apart<W: Sink>(sink: &mut W, text: Numbered<'_>) -> Result<(), DeviceFault>
    requires front { text.front_len ≤ 20 }
    requires text { text.text_len ≤ 128 }
    ensures { Prints (numbered_text text.entry)
        (writing W.contents W.failures W.stalls sink.old sink.new) result }
{
    write_whole(sink, joined(text).as_slice())
}

impl<W: Sink> LineSink<Direct> for W {
    fn write_numbered(&mut self, text: Numbered<'_>) -> Result<(), DeviceFault> {
        write_apart(self, text)
    }

    fn flush(&mut self) {}
}
