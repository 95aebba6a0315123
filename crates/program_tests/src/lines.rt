//! Lines and words.

ghost use Rattle.std.specs.Prelude.{◌≡◌};

use std::process::Abort;
use text_lines::fakes::PieceSource;
use text_lines::{LineReader, ReadFault, Words};

/// A reader with the smallest allowed buffer: a line of 1023 bytes and its LF.
type Reader = LineReader<1024>;

/// Asserts that the line has exactly these words, even if more are requested.
fn has_words(rt: &impl Abort, line: &[u8], wanted: &[&[u8]]) {
    let mut words = Words::of(line).ok().expect(rt, "allowed");
    for word in wanted {
        assert!(rt; words.next_word() == Some(*word));
    }
    assert!(rt; words.next_word().is_none());
    assert!(rt; words.next_word().is_none());
}

#[test]
fn words_are_parted_by_blanks_and_end_at_a_comment(rt: HostRuntime) {
    has_words(&rt, b"\t a  bc\td#e f", &[b"a", b"bc", b"d"]);
}

fn hands_out(input: &[u8], piece: usize, wanted: &[&[u8]]) -> bool {
    let mut source = PieceSource::new(input, piece, None);
    let mut reader = Reader::new();
    for line in wanted {
        let Ok(true) = reader.next_line(&mut source) else {
            return false;
        };
        if reader.line() != *line {
            return false;
        }
    }
    reader.next_line(&mut source) == Ok(false)
}

/// An input and its lines.
type Lines<'a> = (&'a [u8], &'a [&'a [u8]]);

/// Asserts the lines of each input, read in pieces of each of these sizes.
fn hand_out(rt: &impl Abort, pieces: &[usize], rows: &[Lines<'_>]) {
    for piece in pieces {
        for (row, (input, wanted)) in rows.iter().enumerate() {
            assert!(rt; hands_out(input, *piece, wanted), "row {row} by {piece}");
        }
    }
}

#[test]
fn lines_end_with_a_line_feed_which_the_last_may_lack(rt: HostRuntime) {
    hand_out(
        &rt,
        &[1, 2, 3, 4096],
        &[
            (b"", &[]),
            (b"\n", &[b""]),
            (b"a\nbc", &[b"a", b"bc"]),
            (b"a\n\nbc\n", &[b"a", b"", b"bc"]),
        ],
    );
}

#[test]
fn one_carriage_return_at_the_end_of_a_line_is_dropped(rt: HostRuntime) {
    hand_out(
        &rt,
        &[1, 4096],
        &[
            (b"a\r\nb\r", &[b"a", b"b"]),
            (b"a\r\r\n\r\n", &[b"a\r", b""]),
            (b"a\rb\n\r", &[b"a\rb", b""]),
        ],
    );
}

/// Returns the number of lines before the reader reports the end or a fault, and that result.
fn ends(source: &mut PieceSource<'_>) -> (u64, Result<bool, ReadFault>)
    requires { source.old.failures ≡ 0 }
{
    let mut reader = Reader::new();
    for _ in 0..9 {
        match reader.next_line(source) {
            Ok(true) => {}
            other => return (reader.number(), other),
        }
    }
    (reader.number(), Ok(true))
}

/// Asserts the number of lines and the final result of a reader, in pieces of 1, 1000 and 4096 bytes.
fn ends_so(rt: &impl Abort, input: &[u8], lines: u64, answer: Result<bool, ReadFault>) {
    for piece in [1, 1000, 4096] {
        let mut source = PieceSource::new(input, piece, None);
        assert!(rt; ends(&mut source) == (lines, answer), "{lines} by {piece}");
    }
}

#[test]
fn a_line_has_at_most_1023_bytes(rt: HostRuntime) {
    let mut input = [b'#'; 1030];
    input[1023] = b'\n';
    ends_so(&rt, &input, 2, Ok(false));
    ends_so(&rt, &input[..1023], 1, Ok(false));
    input[1023] = b'\r';
    input[1024] = b'\n';
    ends_so(&rt, &input, 0, Err(ReadFault::LongLine(1)));
    ends_so(&rt, &input[..1024], 0, Err(ReadFault::LongLine(1)));
}

/// Asserts the number of lines, the final result and the number of reads if one read fails.
fn ends_at(
    rt: &impl Abort,
    input: &[u8],
    piece: usize,
    failing: u64,
    wanted: (u64, Result<bool, ReadFault>),
    reads: u64,
) {
    let mut source = PieceSource::new(input, piece, Some(failing));
    assert!(rt; ends(&mut source) == wanted, "read {failing}");
    assert!(rt; source.reads() == reads, "read {failing}");
}

#[test]
fn the_1024th_byte_is_answered_before_a_further_read(rt: HostRuntime) {
    let input = [b'#'; 1030];
    ends_at(&rt, &input, 1, 1025, (0, Err(ReadFault::LongLine(1))), 1024);
    ends_at(&rt, &input, 1, 1024, (0, Err(ReadFault::Device)), 1024);
}

/// Asserts that a reader with a limit of five bytes returns two lines, and that the sixth byte is too many.
fn is_too_much(rt: &impl Abort, piece: usize) {
    let mut source = PieceSource::new(b"a\nbc\nd", piece, None);
    let mut reader = Reader::with_limit(5);
    assert!(rt; reader.next_line(&mut source) == Ok(true));
    assert!(rt; reader.next_line(&mut source) == Ok(true));
    assert!(rt; reader.line() == b"bc".as_slice());
    let too_many = ReadFault::TooManyBytes;
    assert!(rt; reader.next_line(&mut source) == Err(too_many));
    assert!(rt; source.rest().len() == 0);
}

/// Asserts that five bytes are within the limit.
fn is_within(rt: &impl Abort) {
    let mut source = b"a\nbc\n".as_slice();
    let mut reader = Reader::with_limit(5);
    assert!(rt; reader.next_line(&mut source) == Ok(true));
    assert!(rt; reader.next_line(&mut source) == Ok(true));
    assert!(rt; reader.next_line(&mut source) == Ok(false));
}

#[test]
fn a_byte_past_the_limit_is_too_much(rt: HostRuntime) {
    is_too_much(&rt, 1);
    is_too_much(&rt, 4096);
    is_within(&rt);
}

#[test]
fn lines_that_have_come_are_handed_out_before_a_further_read(rt: HostRuntime) {
    let mut source = PieceSource::new(b"a\nb\nc", 4, Some(2));
    assert!(rt; ends(&mut source) == (2, Err(ReadFault::Device)));
    assert!(rt; source.rest().len() == 1);
}

/// Asserts that the failing one-byte read is reported, after fewer lines than its number.
fn is_told(rt: &impl Abort, failing: u64) {
    let mut source = PieceSource::new(b"a\n\nbc\n", 1, Some(failing));
    let (lines, end) = ends(&mut source);
    assert!(rt; end == Err(ReadFault::Device), "read {failing}");
    assert!(rt; lines < failing, "read {failing}");
}

#[test]
fn each_read_that_fails_is_told(rt: HostRuntime) {
    for failing in 1..8 {
        is_told(&rt, failing);
    }
    let mut source = PieceSource::new(b"a\n\nbc\n", 1, Some(8));
    assert!(rt; ends(&mut source) == (3, Ok(false)));
}
