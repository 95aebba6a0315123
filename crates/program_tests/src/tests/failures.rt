//! Runs each command while each read and each write fails in turn.

use super::boards::BOARD;
use super::devices::{Failing, Tried, try_on};
use super::runs::{certificate, printed};
use std::alloc::Global;
use std::process::Abort;

const MAP: &[u8] = b"0x80000000 0x1000 rwx\n0x10000000 0x1000 rw\n";

/// The registers that mean the map.
const LISTING: &[u8] = b"pmpcfg0 0x1f1b\npmpaddr0 0x40001ff\npmpaddr1 0x200001ff\n";

/// A map with a redundant line.
const IDLE: &[u8] = b"0 0x1000 r\n0 0x2000 rw\n";

/// A map in which the lower half of the address space is rwx.
const HALF: &[u8] = b"0 0x80000000000000 rwx\n";

/// The certificate of that map: one entry, and a branch with two leaves.
const OF_HALF: &[u8] =
    b"PMPC\x01\x01\0\0\0\x1F\xFF\xFF\xFF\xFF\xFF\xFF\x0F\0\x01\x01\0\0\0\x02\0\0\0\x02\0\0\0\x02\0\0\0\x02\0\0\0\x01\0\0\0\0\x07\0\0";

const PLAN: &[&str] = &["pmpmon", "plan", "m", "c"];

const CERTIFICATE: &str = "pmpmon: c: cannot write\n";

/// A device whose k-th call fails.
#[derive(Clone, Copy)]
enum Device {
    First,
    Second,
    Certificate,
    Output,
    Errors,
}

const DEVICES: [Device; 5] = [
    Device::First,
    Device::Second,
    Device::Certificate,
    Device::Output,
    Device::Errors,
];

impl Device {
    /// Lets only the k-th call of the device fail.
    fn failing_at(self, k: u64) -> Failing {
        let mut failing = Failing::none(9);
        match self {
            Device::First => failing.first = Some(k),
            Device::Second => failing.second = Some(k),
            Device::Certificate => failing.cert = Some(k),
            Device::Output => failing.out = Some(k),
            Device::Errors => failing.err = Some(k),
        }
        failing
    }

    /// Returns the message for the failure, if standard error works.
    fn said(self) -> &'static str {
        match self {
            Device::First => "pmpmon: m: cannot read\n",
            Device::Second => "pmpmon: s: cannot read\n",
            Device::Certificate => CERTIFICATE,
            Device::Output => "pmpmon: standard output: cannot write\n",
            Device::Errors => "",
        }
    }

    /// Returns whether something may be printed before the device fails.
    fn may_print(self) -> bool {
        matches!(self, Device::Second | Device::Output)
    }

    /// Returns whether a certificate may be put in place before the device fails.
    fn may_place(self) -> bool {
        matches!(self, Device::Output)
    }
}

/// Asserts the message after a device failure, and that the output is a prefix of the full one.
fn ended_by(rt: &impl Abort, device: Device, tried: &Tried, ample: &Tried) {
    let printed = tried.out.as_slice();
    assert!(rt; tried.status == 3);
    assert!(rt; tried.err.as_slice() == device.said().as_bytes());
    assert!(rt; ample.out.as_slice().starts_with(printed));
    // All lines may already be judged when the read after the last one fails.
    assert!(rt; matches!(device, Device::Second) || printed.len() < ample.out.len());
    assert!(rt; device.may_print() || printed.is_empty());
    assert!(rt; device.may_place() || !tried.is_placed);
}

/// A command line and its inputs.
type Row<'a> = (&'a [&'a str], &'a [u8], &'a [u8]);

/// Lets each call of a device fail in turn until the command succeeds.
fn each_call_fails(rt: &impl Abort, alloc: Global, row: Row<'_>, device: Device) {
    let (words, first, second) = row;
    let ample = try_on(rt, alloc, words, first, second, Failing::none(9));
    assert!(rt; ample.status == 0);
    assert!(rt; !ample.has_failed);
    for k in 1..2000u64 {
        let tried = try_on(rt, alloc, words, first, second, device.failing_at(k));
        if !tried.has_failed {
            assert!(rt; tried.status == 0);
            assert!(rt; tried.out.as_slice() == ample.out.as_slice());
            return;
        }
        ended_by(rt, device, &tried, &ample);
    }
    panic!(rt; "no end")
}

/// Lets each call of each device fail in turn, for each command line.
fn each_device_fails(rt: &impl Abort, alloc: Global, rows: &[Row<'_>]) {
    for row in rows {
        for device in DEVICES {
            each_call_fails(rt, alloc, *row, device);
        }
    }
}

/// As above, for a check of the map's certificate and an audit of its printed plan.
fn each_device_fails_on_a_plan(rt: &impl Abort, alloc: Global) {
    let cert = certificate(rt, alloc, PLAN, MAP);
    let plan = printed(rt, alloc, &["pmpmon", "plan", "m"], MAP, b"");
    each_device_fails(
        rt,
        alloc,
        &[
            (&["pmpmon", "check", "m", "s"], MAP, cert.as_slice()),
            (&["pmpmon", "audit", "m", "s"], MAP, plan.as_slice()),
        ],
    )
}

#[test]
fn a_failing_device_ends_each_command_with_its_text(rt: HostRuntime) {
    each_device_fails(
        &rt,
        rt.alloc(),
        &[
            (PLAN, MAP, b""),
            (&["pmpmon", "plan", "m", "c", "--entries", "64"], MAP, b""),
            (
                &["pmpmon", "judge", "m", "s"],
                MAP,
                b"load s 8 0x80000000\nload s 8 0\n",
            ),
            (&["pmpmon", "check", "m", "s"], HALF, OF_HALF),
            (&["pmpmon", "audit", "m", "s"], MAP, LISTING),
            (&["pmpmon", "show", "m"], MAP, b""),
            (&["pmpmon", "map", "m"], LISTING, b""),
            (
                &["pmpmon", "platform", "m", "--monitor", "0x80000000", "4096"],
                BOARD,
                b"",
            ),
            (&["pmpmon", "lint", "m"], IDLE, b""),
        ],
    );
    each_device_fails_on_a_plan(&rt, rt.alloc())
}

/// The result of a command: its status and message, whether it prints, and whether a certificate is in place.
type Left<'a> = (u8, &'a str, bool, bool);

/// Asserts the result of a command. It exited with 3 iff a device failed, and the second input was not read.
fn is_left(rt: &impl Abort, tried: &Tried, left: Left<'_>) {
    assert!(rt; tried.status == left.0);
    assert!(rt; tried.err.as_slice() == left.1.as_bytes());
    assert!(rt; tried.out.is_empty() != left.2);
    assert!(rt; tried.is_placed == left.3);
    assert!(rt; tried.has_failed == (tried.status == 3));
    assert!(rt; tried.second_reads == 0);
}

/// Asserts the result of each command line on a first input, while a call of a device fails.
fn each_leaves(rt: &impl Abort, alloc: Global, rows: &[(&[&str], &[u8], Failing, Left<'_>)]) {
    for (words, first, failing, left) in rows {
        let tried = try_on(rt, alloc, words, first, b"", *failing);
        is_left(rt, &tried, *left);
    }
}

#[test]
fn files_are_read_and_placed_in_their_order(rt: HostRuntime) {
    let none = Failing::none(9);
    let cut = Device::Output.failing_at(1);
    let said = Device::Output.said();
    // The certificate of the empty map takes one write of eleven bytes, and the second call puts it in place.
    let moved = Device::Certificate.failing_at(2);
    let second = Device::Second.failing_at(1);
    let left = (2, "pmpmon: m: line 1 is not understood\n", false, false);
    each_leaves(
        &rt,
        rt.alloc(),
        &[
            (PLAN, MAP, none, (0, "", true, true)),
            (PLAN, MAP, cut, (3, said, false, true)),
            (&["pmpmon", "plan", "m"], MAP, none, (0, "", true, false)),
            (PLAN, b"", moved, (3, CERTIFICATE, false, false)),
            (&["pmpmon", "check", "m", "s"], b"what\n", second, left),
            (&["pmpmon", "judge", "m", "s"], b"what\n", second, left),
            (&["pmpmon", "audit", "m", "s"], b"what\n", second, left),
        ],
    )
}
