//! Texts, and their platforms.

use input_files::platform_of;
use pmp_encoding::Limit;
use std::alloc::Global;
use std::process::Abort;

/// Asserts that the text is a platform with that many harts and that limit.
fn expect_platform(rt: &impl Abort, alloc: Global, text: &str, harts: u8, limit: Limit) {
    let platform = platform_of(alloc, text).expect(rt, "a platform");
    assert!(rt; platform.harts() == harts);
    assert!(rt; platform.limit() == limit);
}

#[test]
fn the_example_is_a_platform(rt: HostRuntime) {
    let text =
        "[monitor]\nbase = 0x80000000\nsize = 0x200000\n\n[[ram]]\nbase = 0x80000000\nsize = 0x8000000\n\n[[device]]\nbase = 0x10000000\nsize = 0x1000\nperm = \"rw\"\n";
    expect_platform(&rt, rt.alloc(), text, 1, Limit::Sixteen);
    let other =
        "harts = 4\n\"entries\" = 0o100\nmonitor = { size = 4096, base = 0 }\nram = [{ base = 0b0, size = 0x1_000 }]\ndevice = []";
    expect_platform(&rt, rt.alloc(), other, 4, Limit::SixtyFour);
}
