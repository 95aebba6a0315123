//! `plan` on files in memory.

use super::runs::{certificate, prints};
use std::alloc::Global;
use std::process::Abort;

const PLAN: [&str; 3] = ["pmpmon", "plan", "map.txt"];

const WRITE: [&str; 4] = ["pmpmon", "plan", "map.txt", "map.pmpc"];

/// Asserts the plan of each map.
fn have_plans(rt: &impl Abort, alloc: Global, rows: &[(&[u8], &str)]) {
    for (map, out) in rows {
        prints(rt, alloc, &PLAN, map, b"", out);
    }
}

#[test]
fn plans_print_the_fewest_entries_and_their_words(rt: HostRuntime) {
    have_plans(
        &rt,
        rt.alloc(),
        &[
            (
                b"0x80000000 0x1000 rwx",
                "entries 1\n0 0x1f 0x00000000200001ff\npmpcfg0 0x000000000000001f\npmpcfg2 0x0000000000000000\n",
            ),
            (
                b"0x80000000 0x8000000 rwx\n0x80000000 0x200000 none\n0x10000000 0x1000 rw\n",
                "entries 3\n0 0x1b 0x00000000040001ff\n1 0x18 0x000000002003ffff\n2 0x1f 0x0000000020ffffff\npmpcfg0 0x00000000001f181b\npmpcfg2 0x0000000000000000\n",
            ),
            (
                b"0x80208000 0x7000 rx\n",
                "entries 2\n0 0x18 0x0000000020083dff\n1 0x1d 0x0000000020082fff\npmpcfg0 0x0000000000001d18\npmpcfg2 0x0000000000000000\n",
            ),
            (
                b"",
                "entries 0\npmpcfg0 0x0000000000000000\npmpcfg2 0x0000000000000000\n",
            ),
            (
                b"0 0x100000000000000 rwx\r\n",
                "entries 1\n0 0x1f 0x001fffffffffffff\npmpcfg0 0x000000000000001f\npmpcfg2 0x0000000000000000\n",
            ),
            (
                b"0x80000000 0x1000 r\n0x80001000 0x1000 rw\n0x80002000 0x2000 r\n",
                "entries 2\n0 0x1b 0x00000000200005ff\n1 0x19 0x00000000200007ff\npmpcfg0 0x000000000000191b\npmpcfg2 0x0000000000000000\n",
            ),
            (
                b"# all but a page\n\t0 72057594037927936 rwx # 2^56\n\n0X80000000 4096 none\n",
                "entries 2\n0 0x18 0x00000000200001ff\n1 0x1f 0x001fffffffffffff\npmpcfg0 0x0000000000001f18\npmpcfg2 0x0000000000000000\n",
            ),
        ],
    )
}

/// Asserts the length of each map's certificate.
fn certificates_are_long(rt: &impl Abort, alloc: Global, rows: &[(&[u8], usize)]) {
    for (map, len) in rows {
        let cert = certificate(rt, alloc, &WRITE, map);
        assert!(rt; cert.len() == *len);
    }
}

#[test]
fn a_plan_writes_its_certificate(rt: HostRuntime) {
    certificates_are_long(
        &rt,
        rt.alloc(),
        &[
            (b"0x80000000 0x1000 rwx", 1208),
            (b"0x80208000 0x7000 rx", 1217),
        ],
    )
}
