//! `judge` and `check` on files in memory.

use super::runs::{Parts, all_deny, all_have, certificate, each_prints, prints};
use std::alloc::Global;
use std::process::Abort;

const HOST: &[u8] = b"0x80000000 0x8000000 rwx\n0x80000000 0x200000 none\n0x10000000 0x1000 rw\n";

const JUDGE: [&str; 4] = ["pmpmon", "judge", "map.txt", "trace.txt"];

const LARGE: [&str; 6] = ["pmpmon", "judge", "map.txt", "trace.txt", "--entries", "64"];

const CHECK: [&str; 4] = ["pmpmon", "check", "map.txt", "map.pmpc"];

/// Asserts the answers to each trace under its map, on harts with sixteen and with sixty-four entries.
fn each_is_judged(rt: &impl Abort, alloc: Global, rows: &[(&[u8], &[u8], &str)]) {
    for (map, trace, out) in rows {
        prints(rt, alloc, &JUDGE, map, trace, out);
        prints(rt, alloc, &LARGE, map, trace, out);
    }
}

#[test]
fn accesses_are_judged_by_the_entries_of_the_map(rt: HostRuntime) {
    each_is_judged(
        &rt,
        rt.alloc(),
        &[
            (
                b"0x80000000 0x1000 rwx",
                b"load s 8 0x80000ff8\nload s 8 0x80001000\n",
                "1 ok\n2 fault 5\n",
            ),
            (
                b"",
                b"load s 8 0x80000004\nload s 1 0x100000000000000\nload s 8 0x100000000000004\nfetch u 2 1\nstore s 2 3 9\nfetch s 4 0\nstore s 1 0xffffffffffffffff 0\n",
                "1 fault 4\n2 fault 5\n3 fault 4\n4 fault 0\n5 fault 6\n6 fault 1\n7 fault 7\n",
            ),
        ],
    )
}

/// Asserts that a map's certificate is accepted for it and refused for another map, and that the large one is accepted
/// for the host's map.
fn are_accepted(rt: &impl Abort, alloc: Global, small: (&[u8], &[u8]), other: &[u8], large: &[u8]) {
    prints(rt, alloc, &CHECK, small.0, small.1, "accepted 2\n");
    let refused: Parts<'_> = (1, b"refused ", b"", b"");
    all_have(rt, alloc, &[(&CHECK, other, small.1, refused)]);
    prints(rt, alloc, &CHECK, HOST, large, "accepted 3 of 64\n")
}

#[test]
fn a_certificate_is_accepted_for_its_own_map(rt: HostRuntime) {
    let plan = ["pmpmon", "plan", "map.txt", "map.pmpc"];
    let map = b"0x80208000 0x7000 rx";
    let cert = certificate(&rt, rt.alloc(), &plan, map);
    let plan = ["pmpmon", "plan", "map.txt", "map.pmpc", "--entries", "64"];
    let large = certificate(&rt, rt.alloc(), &plan, HOST);
    are_accepted(
        &rt,
        rt.alloc(),
        (map, cert.as_slice()),
        b"0x80208000 0x6000 rx",
        large.as_slice(),
    )
}

const WHOLE: &[u8] = b"0 0x100000000000000 rwx";

#[test]
fn certificates_of_the_whole_space_are_accepted(rt: HostRuntime) {
    let right: &[(&[u8], &str)] = &[
        (
            b"PMPC\x01\x01\0\0\0\x1F\xFF\xFF\xFF\xFF\xFF\xFF\x1F\0\0\x07",
            "accepted 1\n",
        ),
        (
            b"PMPC\x02\x40\x01\0\0\0\x1F\xFF\xFF\xFF\xFF\xFF\xFF\x1F\0\0\x07",
            "accepted 1 of 64\n",
        ),
    ];
    each_prints(&rt, rt.alloc(), &CHECK, WHOLE, right)
}

#[test]
fn a_certificate_of_another_limit_is_refused_by_name(rt: HostRuntime) {
    all_deny(
        &rt,
        rt.alloc(),
        &[(
            &CHECK,
            WHOLE,
            b"PMPC\x02\x20\x01\0\0\0\x1F\xFF\xFF\xFF\xFF\xFF\xFF\x1F\0\0\x07",
            "refused 16 BadLimit\n",
        )],
    )
}
