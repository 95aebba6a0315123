//! The words of frames.

ghost use Rattle.std.specs.Prelude.{◌≡◌, ◌+◌, ◌*◌, ◌^◌, ◌<◌, ◌≤◌, ◌++◌, ◌∷◌, [], length, take};
ghost use Rattle.byteorder.specs.Endian.{little_bytes};
ghost use Rattle.trap_server.specs.Words.{bytes_of, word_at};

use byteorder::{ByteOrder, LittleEndian};

/// A tag is up to eight letters, the first of them in the lowest byte: `platform`.
pub(crate) const TAG_PLATFORM: u64 = 0x6d72_6f66_7461_6c70;

/// `call`
pub(crate) const TAG_CALL: u64 = 0x6c6c_6163;

/// `stop`
pub(crate) const TAG_STOP: u64 = 0x706f_7473;

/// `page`
pub(crate) const TAG_PAGE: u64 = 0x6567_6170;

/// `answer`
pub(crate) const TAG_ANSWER: u64 = 0x7265_7773_6e61;

/// `measure`
pub(crate) const TAG_MEASURE: u64 = 0x0065_7275_7361_656d;

/// `end`
pub(crate) const TAG_END: u64 = 0x0064_6e65;

/// The bytes of an answer: eleven words, three changes of register sets, at most two lists of entries, and at most nine
/// control words.
pub type AnswerBytes = [u8; 1424];

/// The bytes of a trap: its tag, the hart, a0 to a7, `mie` and `scounteren`.
pub type TrapBytes = [u8; 96];

/// The bytes of a frame of three words.
pub type ShortBytes = [u8; 24];

/// Returns word k.
#[inline(always)]
pub(crate) fn word(bytes: &[u8], k: usize) -> u64
    requires { 8 * k + 8 ≤ length bytes.now }
    ensures { result ≡ word_at bytes.now k }
{
    LittleEndian::read_u64(&bytes[8 * k..])
}

/// Writes word k. The bytes before it do not change.
#[inline(always)]
pub(crate) fn put_word(bytes: &mut [u8], k: usize, value: u64)
    requires { 8 * k + 8 ≤ length bytes.old }
    ensures size { length bytes.new ≡ length bytes.old }
    ensures front { take (8 * k + 8) bytes.new ≡ take (8 * k) bytes.old ++ little_bytes 8 value }
    ensures fits { value < 2 ^ 64 }
{
    LittleEndian::write_u64(&mut bytes[8 * k..], value);
}

/// Returns a frame of three words.
#[inline(always)]
pub(crate) fn three_words(first: u64, second: u64, third: u64) -> ShortBytes
    ensures { result ≡ bytes_of (first ∷ (second ∷ (third ∷ []))) }
{
    let mut bytes = [0; 24];
    put_word(&mut bytes, 0, first);
    put_word(&mut bytes, 1, second);
    put_word(&mut bytes, 2, third);
    bytes
}
