//! Runs a command line on files in memory.

use monitor_cli::{command_of, perform};
use std::alloc::Global;
use std::process::Abort;
use text_lines::Counted;

/// The result of a command.
#[derive(Drop)]
pub struct Ran {
    pub status: u8,
    pub out: Vec<u8>,
    pub err: Vec<u8>,
    pub cert: Vec<u8>,
}

/// Runs a command line on two inputs.
pub fn run(rt: &impl Abort, alloc: Global, words: &[&str], first: &[u8], second: &[u8]) -> Ran {
    let task = command_of(alloc, words).expect(rt, "a command line");
    let mut first = Counted::new(first);
    let mut second = Counted::new(second);
    let mut cert = Counted::new(Vec::new(alloc));
    let mut out = Counted::new(Vec::new(alloc));
    let mut err = Counted::new(Vec::new(alloc));
    let status = perform(
        alloc,
        &task,
        &mut first,
        &mut second,
        &mut cert,
        &mut out,
        &mut err,
    );
    Ran {
        status,
        out: out.into_inner(),
        err: err.into_inner(),
        cert: cert.into_inner(),
    }
}

/// Returns the output of a command line that succeeds.
pub fn printed(
    rt: &impl Abort,
    alloc: Global,
    words: &[&str],
    first: &[u8],
    second: &[u8],
) -> Vec<u8> {
    let ran = run(rt, alloc, words, first, second);
    assert!(rt; ran.status == 0, "{words:?}");
    ran.out
}

/// Returns the certificate that a command line writes for a map.
pub fn certificate(rt: &impl Abort, alloc: Global, words: &[&str], map: &[u8]) -> Vec<u8> {
    let ran = run(rt, alloc, words, map, b"");
    assert!(rt; ran.status == 0, "{words:?}");
    ran.cert
}

/// Asserts the status, the output and the messages of a command line. For bad input it writes no certificate.
pub fn ends(
    rt: &impl Abort,
    alloc: Global,
    words: &[&str],
    inputs: (&[u8], &[u8]),
    status: u8,
    out: &[u8],
    err: &[u8],
) {
    let ran = run(rt, alloc, words, inputs.0, inputs.1);
    assert!(rt; ran.err.as_slice() == err, "{words:?}");
    assert!(rt; ran.out.as_slice() == out, "{words:?}");
    assert!(rt; ran.status == status, "{words:?}");
    assert!(rt; status != 2 || ran.cert.is_empty(), "{words:?}");
}

/// Asserts that the command line succeeds with this output.
pub fn prints(
    rt: &impl Abort,
    alloc: Global,
    words: &[&str],
    first: &[u8],
    second: &[u8],
    out: &str,
) {
    ends(rt, alloc, words, (first, second), 0, out.as_bytes(), b"")
}

/// Asserts that the checker or the audit refuses with this output.
pub fn denies(
    rt: &impl Abort,
    alloc: Global,
    words: &[&str],
    first: &[u8],
    second: &[u8],
    out: &str,
) {
    ends(rt, alloc, words, (first, second), 1, out.as_bytes(), b"")
}

/// Asserts that the second input is bad: this message follows the answers to what precedes the error.
pub fn stops(
    rt: &impl Abort,
    alloc: Global,
    words: &[&str],
    first: &[u8],
    second: &[u8],
    out: &str,
    said: &str,
) {
    ends(
        rt,
        alloc,
        words,
        (first, second),
        2,
        out.as_bytes(),
        said.as_bytes(),
    )
}

/// A command line, its two inputs, and its output.
pub type Row<'a> = (&'a [&'a str], &'a [u8], &'a [u8], &'a str);

/// Asserts that the command line succeeds with this first input and each second one, with these outputs.
pub fn each_prints(
    rt: &impl Abort,
    alloc: Global,
    words: &[&str],
    first: &[u8],
    rows: &[(&[u8], &str)],
) {
    for (second, out) in rows {
        prints(rt, alloc, words, first, second, out);
    }
}

/// Asserts that the checker or the audit refuses each row with its output.
pub fn all_deny(rt: &impl Abort, alloc: Global, rows: &[Row<'_>]) {
    for (words, first, second, out) in rows {
        denies(rt, alloc, words, first, second, out);
    }
}

/// Asserts that the second input of each row is bad: the last text is the message, after the answers before it.
pub fn all_stop(rt: &impl Abort, alloc: Global, rows: &[(Row<'_>, &str)]) {
    for ((words, first, second, out), said) in rows {
        stops(rt, alloc, words, first, second, out, said);
    }
}

/// A status, and the beginning, a part and the end of a text.
pub type Parts<'a> = (u8, &'a [u8], &'a [u8], &'a [u8]);

/// Returns whether a text occurs in another.
fn contains(text: &[u8], part: &[u8]) -> bool {
    text.windows(part.len().max(1)).any(|window| window == part)
}

/// Asserts the status of a command line and the parts of its output.
fn has_parts(rt: &impl Abort, words: &[&str], ran: &Ran, parts: Parts<'_>) {
    let text = ran.out.as_slice();
    assert!(rt; ran.status == parts.0, "{words:?}");
    assert!(rt; text.starts_with(parts.1), "{words:?}");
    assert!(rt; parts.2.is_empty() || contains(text, parts.2), "{words:?}");
    assert!(rt; text.ends_with(parts.3), "{words:?}");
}

/// Asserts the status of each command line and the parts of its output.
pub fn all_have(rt: &impl Abort, alloc: Global, rows: &[(&[&str], &[u8], &[u8], Parts<'_>)]) {
    for (words, first, second, parts) in rows {
        let ran = run(rt, alloc, words, first, second);
        has_parts(rt, words, &ran, *parts);
    }
}
