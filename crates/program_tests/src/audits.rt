//! Audits of listings against a map: a listing that means it, and lines and devices that fail.

use map_text::map_of;
use pmp_encoding::Xlen;
use pmp_match::Mode;
use register_audit::{ListingFault, audit};
use std::alloc::Global;
use std::process::Abort;
use text_lines::fakes::PieceSink;

/// A map of one readable page.
const PAGE: &[u8] = b"0 4096 r\n";

/// Asserts the result and the output of auditing the listing against that page, on a device whose write of number
/// `failing` fails.
fn expect_audit(
    rt: &impl Abort,
    alloc: Global,
    listing: &[u8],
    failing: Option<u64>,
    wanted: Result<bool, ListingFault>,
    written: &[u8],
) {
    let map = map_of(alloc, PAGE).expect(rt, "a map");
    let mut out = PieceSink::new(7, failing);
    let answer = audit(
        alloc,
        &map,
        1,
        Mode::User,
        Xlen::Rv64,
        listing,
        false,
        &mut out,
    );
    assert!(rt; answer == wanted);
    assert!(rt; out.written() == written);
}

#[test]
fn a_page_that_is_meant_and_a_line_and_a_device_that_fail(rt: HostRuntime) {
    let page = b"pmpaddr0 0x400\npmpcfg0 9\n";
    let text = b"means the map: 1 entry; fewest NA4/NAPOT entries: 1\n";
    expect_audit(&rt, rt.alloc(), page, None, Ok(true), text);
    let unknown = b"pmpaddr0 1\nwhat\n";
    expect_audit(
        &rt,
        rt.alloc(),
        unknown,
        None,
        Err(ListingFault::Line(2)),
        b"",
    );
    expect_audit(
        &rt,
        rt.alloc(),
        b"pmpcfg0 0\n",
        Some(2),
        Err(ListingFault::Device),
        b"differs",
    );
}
