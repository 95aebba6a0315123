//! Sources and sinks, including failing ones.

use std::alloc::Global;
use std::io::{self, ErrorKind, Write};
use std::process::Abort;
use text_lines::fakes::PieceSink;
use text_lines::{
    Counted, DIGITS_ROOM, Held, HeldSink, LineSink, Numbered, Sink, Source, TEXT_ROOM, write_whole,
};

#[test]
fn bytes_are_written_in_pieces_and_none_twice(rt: HostRuntime) {
    for piece in [1, 2, 5, 9] {
        let mut sink = PieceSink::new(piece, None);
        assert!(rt; write_whole(&mut sink, b"12 ok\n").is_ok());
        assert!(rt; sink.written() == b"12 ok\n".as_slice());
    }
}

#[test]
fn each_write_that_fails_is_told(rt: HostRuntime) {
    for k in 1..7u64 {
        let mut sink = PieceSink::new(1, Some(k));
        assert!(rt; write_whole(&mut sink, b"12 ok\n").is_err());
        assert!(rt; sink.written().len() as u64 == k - 1);
    }
    let mut sink = PieceSink::new(0, None);
    assert!(rt; write_whole(&mut sink, b"12 ok\n").is_err());
    assert!(rt; sink.writes() == 1);
    let mut sink = PieceSink::new(0, Some(1));
    assert!(rt; write_whole(&mut sink, b"").is_ok());
    assert!(rt; sink.writes() == 0);
}

#[test]
fn bytes_are_a_source_to_their_end(rt: HostRuntime) {
    let mut source = b"abc".as_slice();
    let mut buf = [0; 2];
    assert!(rt; source.read(&mut buf) == Ok(2));
    assert!(rt; buf == *b"ab");
    assert!(rt; source.read(&mut buf) == Ok(1));
    assert!(rt; buf == *b"cb");
    assert!(rt; source.read(&mut buf) == Ok(0));
}

#[test]
fn readers_of_std_are_sources(rt: HostRuntime) {
    let mut source = Counted::new(b"abc".as_slice());
    let mut buf = [0; 2];
    assert!(rt; source.read(&mut buf) == Ok(2));
    assert!(rt; buf == *b"ab");
    assert!(rt; source.read(&mut buf) == Ok(1));
    assert!(rt; source.read(&mut buf) == Ok(0));
    assert!(rt; source.into_inner().is_empty());
}

/// A writer of the standard library that accepts few bytes at a time and fails on request.
#[derive(Drop)]
struct PieceWriter {
    sink: PieceSink,
}

impl Write for PieceWriter {
    fn write(&mut self, buf: &[u8]) -> io::Result<usize> {
        match self.sink.write(buf) {
            Ok(n) => Ok(n),
            Err(_) => Err(io::Error::from(ErrorKind::Other)),
        }
    }

    fn flush(&mut self) -> io::Result<()> {
        Ok(())
    }
}

/// The number of bytes that a writer accepts per write, the write that fails, and its contents after two answers: the
/// first was passed on before the second was held.
type HeldRow<'a> = (usize, Option<u64>, &'a [u8]);

const HELD: [HeldRow<'static>; 5] = [
    (4096, None, b"1 ok\n2 denied\n"),
    (2, None, b"1 ok\n2 denied\n"),
    (2, Some(2), b"1 ok\n2 denied\n"),
    (2, Some(5), b"1 ok\n2 "),
    (0, None, b""),
];

/// Asserts the contents of a writer for which two answers were held.
fn are_held(rt: &impl Abort, alloc: Global, row: &HeldRow<'_>) {
    let writer = PieceWriter {
        sink: PieceSink::new(row.0, row.1),
    };
    let mut sink = HeldSink::new(alloc, writer).expect(rt, "memory");
    let mut text = [b'!'; TEXT_ROOM];
    text[..4].copy_from_slice(b" ok\n");
    let answer = Numbered {
        front: &[b'!'; DIGITS_ROOM],
        front_len: 0,
        last: b'1',
        text: &text,
        text_len: 4,
    };
    assert!(rt; LineSink::<Held>::write_numbered(&mut sink, answer).is_ok());
    LineSink::<Held>::flush(&mut sink);
    assert!(rt; write_whole(&mut sink, b"2 denied\n").is_ok());
    let (is_whole, writer) = sink.close();
    assert!(rt; is_whole == (row.2.len() == 14), "{:?}", row.1);
    assert!(rt; writer.sink.written() == row.2, "{:?}", row.1);
}

#[test]
fn writers_of_std_are_sinks(rt: HostRuntime) {
    let mut sink = Counted::new(Vec::new(rt.alloc()));
    assert!(rt; sink.write(b"1 ok\n") == Ok(5));
    assert!(rt; sink.into_inner().as_slice() == b"1 ok\n".as_slice());
    for row in &HELD {
        are_held(&rt, rt.alloc(), row);
    }
}
