//! Pages and ranges of pages.

use pmp_encoding::{PAGE_SIZE, PageRange, SPACE_PAGES, SPACE_SIZE, pages_of};

#[test]
fn pages_and_ranges(rt: HostRuntime) {
    let range = PageRange::of_bytes(0x8000_0000, 2 * PAGE_SIZE);
    assert!(rt;
        range
            == PageRange {
                first: 0x80000,
                count: 2
            }
    );
    assert!(rt; (range.has(0x80001), range.has(0x80002)) == (true, false));
    let behind = PageRange {
        first: 0x80002,
        count: pages_of(9),
    };
    assert!(rt; range.is_apart_from(behind));
    assert!(rt; behind.is_apart_from(range));
    assert!(rt; !range.is_apart_from(range));
    assert!(rt; SPACE_PAGES * PAGE_SIZE == SPACE_SIZE);
}
