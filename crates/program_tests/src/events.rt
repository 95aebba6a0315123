//! Lines of traces, and their events.

use hart_trace::{Event, parse_line};
use pmp_match::{Kind, Mode};
use std::process::Abort;

/// The content of a line.
#[derive(Clone, Copy)]
enum Said<'a> {
    /// An access: the mode, the kind, the size, the address, and the value stored.
    Access(Mode, Kind, u8, u64, u64),
    /// A register and its value.
    Register(u8, u64),
    /// A call with these words.
    Call(&'a [u64]),
    Interrupt,
    Nothing,
}

/// A line, the number of harts, and the expected event on hart 0, or `None` if the line is invalid.
type Row<'a> = (&'a [u8], u8, Option<Said<'a>>);

/// Returns whether an event is the expected one.
fn is(event: &Event, said: Said<'_>) -> bool {
    match (event, said) {
        (Event::Access(a, value), Said::Access(mode, kind, size, address, stored)) => {
            (a.mode, a.kind, a.size, a.address) == (mode, kind, size, address) && *value == stored
        }
        (Event::Reg(n, value), Said::Register(number, wanted)) => (*n, *value) == (number, wanted),
        (Event::Ecall(words), Said::Call(wanted)) => words.as_slice() == wanted,
        (Event::Irq, Said::Interrupt) => true,
        _ => false,
    }
}

/// Returns whether a line has this event with that many harts, or is invalid if `said` is `None`.
fn says(line: &[u8], harts: u8, said: Option<Said<'_>>) -> bool {
    match (parse_line(line, harts), said) {
        (Ok(Some((hart, event))), Some(said)) => hart == 0 && is(&event, said),
        (Ok(None), Some(Said::Nothing)) => true,
        (Err(_), None) => true,
        _ => false,
    }
}

const LOAD: Said = Said::Access(Mode::Supervisor, Kind::Load, 8, 0x80000FF8, 0);

const FETCH: Said = Said::Access(Mode::User, Kind::Fetch, 2, 0, 0);

const STORE: Said = Said::Access(Mode::User, Kind::Store, 1, 18446744073709551615, 7);

const ROWS: &[Row<'static>] = &[
    (b"load s 8 0x80000ff8", 0, Some(LOAD)),
    (b"load s 0x8 0x80000ff8", 0, Some(LOAD)),
    (
        b"  load\ts 08  2147487736 \t# the last eight bytes",
        0,
        Some(LOAD),
    ),
    (b"fetch u 2 0", 0, Some(FETCH)),
    (b"store u 1 0xffffffffffffffff 7", 0, Some(STORE)),
    (b"reg x0 5", 0, Some(Said::Register(0, 5))),
    (b"ecall", 0, Some(Said::Call(&[]))),
    (
        b"ecall 0x08454E43 2 1",
        0,
        Some(Said::Call(&[0x08454E43, 2, 1])),
    ),
    (
        b"ecall 1 2 3 4 5 6 7 8",
        0,
        Some(Said::Call(&[1, 2, 3, 4, 5, 6, 7, 8])),
    ),
    (b"irq", 0, Some(Said::Interrupt)),
    (b"", 0, Some(Said::Nothing)),
    (b" \t ", 0, Some(Said::Nothing)),
    (b"# load s 8 0", 0, Some(Said::Nothing)),
    (b"  #\x00\xFF\r\x7F any bytes", 0, Some(Said::Nothing)),
    (b"\r", 0, None),
    (b"\x7F# x", 0, None),
    (b"@0 irq", 0, None),
    (b"@: irq", 200, None),
];

/// Asserts the event of each line.
fn all_say(rt: &impl Abort, rows: &[Row<'_>]) {
    for (line, harts, said) in rows {
        assert!(rt; says(*line, *harts, *said), "{line:?}");
    }
}

#[test]
fn lines_are_events_with_their_words(rt: HostRuntime) {
    all_say(&rt, ROWS);
}
