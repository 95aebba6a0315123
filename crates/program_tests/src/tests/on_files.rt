//! Requests on their files and streams, including the messages afterwards.

use command_line::{Request, request_of_words};
use monitor_cli::{Lent, perform_on_files};
use std::alloc::Global;
use std::process::Abort;
use std::rt::Files;
use text_lines::Counted;

/// Performs a request, with standard error not a terminal, and returns the status, the output and the messages.
fn done(
    rt: &(impl Abort + Files),
    alloc: Global,
    request: &Request<'_>,
    stdin: &[u8],
) -> (u8, Vec<u8>, Vec<u8>) {
    let lent = Lent {
        alloc,
        files: rt,
        stdin,
    };
    let mut out = Vec::new(alloc);
    let mut err = Counted::new(Vec::new(alloc));
    let status = perform_on_files(&lent, &mut out, &mut err, request, false);
    (status.expect(rt, "memory"), out, err.into_inner())
}

/// The expected status, output and messages of a command line.
type Wanted<'a> = (u8, &'a str, &'a str);

/// Asserts that a command line did as expected.
fn is_wanted(rt: &impl Abort, did: (u8, &[u8], &[u8]), wanted: Wanted<'_>) {
    assert!(rt; did.1 == wanted.1.as_bytes(), "{}", wanted.1);
    assert!(rt; did.2 == wanted.2.as_bytes(), "{}", wanted.2);
    assert!(rt; did.0 == wanted.0, "{}", wanted.2);
}

/// Asserts the effect of a command line with this standard input.
fn ends_on_files(
    rt: &(impl Abort + Files),
    alloc: Global,
    words: &[&str],
    stdin: &[u8],
    wanted: Wanted<'_>,
) {
    let request = request_of_words(alloc, words).expect(rt, "a command line");
    let (status, out, err) = done(rt, alloc, &request, stdin);
    is_wanted(rt, (status, out.as_slice(), err.as_slice()), wanted)
}

const MAP: &[u8] = b"0x80000000 0x1000 rwx\n";

const PLAN: &str =
    "entries 1\n0 0x1f 0x00000000200001ff\npmpcfg0 0x000000000000001f\npmpcfg2 0x0000000000000000\n";

#[test]
fn an_input_stands_at_its_place(rt: HostRuntime) {
    let words = ["pmpmon", "plan", "-", "--hints", "always"];
    ends_on_files(&rt, rt.alloc(), &words, MAP, (0, PLAN, ""));
}
