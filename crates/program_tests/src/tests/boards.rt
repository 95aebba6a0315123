//! The texts made from a board's device tree.

use super::runs::{ends, prints};
use std::alloc::Global;
use std::process::Abort;

/// The tree of a board with memory and one hart.
pub const BOARD: &[u8] =
    b"\xd0\x0d\xfe\xed\0\0\x01\x0b\0\0\x008\0\0\0\xe0\0\0\0(\0\0\0\x11\0\0\0\x10\0\0\0\0\0\0\0+\0\0\0\xa8\0\0\0\0\0\0\0\0\0\0\0\0\0\0\0\0\0\0\0\x01\0\0\0\0\0\0\0\x01memory\0\0\0\0\0\x03\0\0\0\x07\0\0\0\0memory\0\0\0\0\0\x03\0\0\0\x0c\0\0\0\x0c\0\0\0\0\x80\0\0\0\x08\0\0\0\0\0\0\x02\0\0\0\x01cpus\0\0\0\0\0\0\0\x03\0\0\0\x04\0\0\0\x10\0\0\0\x01\0\0\0\x03\0\0\0\x04\0\0\0\x1f\0\0\0\0\0\0\0\x01cpu\0\0\0\0\x03\0\0\0\x04\0\0\0\0cpu\0\0\0\0\x03\0\0\0\x04\0\0\0\x0c\0\0\0\0\0\0\0\x02\0\0\0\x02\0\0\0\x02\0\0\0\x09device_type\0reg\0#address-cells\0#size-cells\0";

const MAP: &str =
    "# The map of a device tree: memory rwx, devices rw. It does not name nodes that are\n# not in use, /reserved-memory without no-map or reg, and what is reached through PCI.\n# memory: memory 0x80000000 0x8000000\n0x80000000 0x8000000 rwx\n";

const PLATFORM: &str =
    "# The platform of a device tree. It does not name nodes that are not in use,\n# /reserved-memory without no-map or reg, and what is reached through PCI.\n# A device that reads or writes memory by itself reaches all of it: take out the\n# table of each that the host is not to have.\nharts = 1 # the tree has 1 in use\nentries = 16 # a tree does not say how many: 16 or 64\n\n[monitor]\n# as it was given\nbase = 0x80000000\nsize = 0x1000\n\n# memory: memory 0x80000000 0x8000000\n[[ram]]\nbase = 0x80000000\nsize = 0x8000000\n\n";

/// Asserts that each input prints nothing and causes this message.
fn all_refused(rt: &impl Abort, alloc: Global, rows: &[(&[&str], &[u8], &str)]) {
    for (words, first, said) in rows {
        ends(rt, alloc, words, (*first, b""), 2, b"", said.as_bytes());
    }
}

const GIVEN: &[&str] = &["pmpmon", "platform", "m", "--monitor", "0x80000000", "4096"];

#[test]
fn a_tree_has_its_map_and_its_platform(rt: HostRuntime) {
    prints(&rt, rt.alloc(), &["pmpmon", "map", "m"], BOARD, b"", MAP);
    prints(&rt, rt.alloc(), GIVEN, BOARD, b"", PLATFORM);
}

#[test]
fn what_is_no_tree_is_refused_with_its_reason(rt: HostRuntime) {
    all_refused(
        &rt,
        rt.alloc(),
        &[
            (GIVEN, b"", "pmpmon: m: the header is cut, at byte 0\n"),
            (
                &["pmpmon", "map", "m"],
                b"\xd0\x0d\xfe\xed",
                "pmpmon: m: the header is cut, at byte 0\n",
            ),
            (
                &["pmpmon", "platform", "m"],
                BOARD,
                "pmpmon: m: no node says where the monitor is; give --monitor\n",
            ),
        ],
    )
}
