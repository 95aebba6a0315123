//! `run` on files in memory.

use super::devices::{Failing, Tried, try_on};
use super::runs::{all_have, all_stop, printed, prints, stops};
use std::alloc::Global;
use std::process::Abort;

const PLATFORM: &[u8] =
    b"[monitor]\nbase = 0x80000000\nsize = 0x200000\n\n[[ram]]\nbase = 0x80000000\nsize = 0x8000000\n\n[[device]]\nbase = 0x10000000\nsize = 0x1000\nperm = \"rw\"\n";

const TWO_HARTS: &[u8] =
    b"harts = 2\n[monitor]\nbase = 0x80000000\nsize = 0x200000\n\n[[ram]]\nbase = 0x80000000\nsize = 0x8000000\n\n[[device]]\nbase = 0x10000000\nsize = 0x1000\nperm = \"rw\"\n";

const MANY_ENTRIES: &[u8] =
    b"entries = 64\n[monitor]\nbase = 0x80000000\nsize = 0x200000\n\n[[ram]]\nbase = 0x80000000\nsize = 0x8000000\n\n[[device]]\nbase = 0x10000000\nsize = 0x1000\nperm = \"rw\"\n";

const RUN: [&str; 4] = ["pmpmon", "run", "p.toml", "trace.txt"];

const MEASURE: [&str; 5] = ["pmpmon", "run", "p.toml", "trace.txt", "--measure"];

/// Asserts the report of each trace, without a measurement after it.
fn each_has_its_report(rt: &impl Abort, alloc: Global, rows: &[(&[u8], &str)]) {
    for (trace, report) in rows {
        prints(rt, alloc, &RUN, PLATFORM, trace, report);
        prints(rt, alloc, &MEASURE, PLATFORM, trace, report);
    }
}

#[test]
fn traces_have_their_reports(rt: HostRuntime) {
    each_has_its_report(
        &rt,
        rt.alloc(),
        &[
            (
                b"store s 8 0x80200000 0x1122334455667788\necall 0x08454E43 0 0x80200000 1 0 0 0 0\nload s 8 0x80200000\necall 0x08454E43 2 1\necall 0x08454E43 2 1\nload u 8 0x80200000\nirq\necall 0x08454E43 4 1\necall 0x08454E43 5 7\necall 0x08454E43 4 1\necall 0x08454E43 1 1\necall 0x08454E43 1 1\nload s 8 0x80200000\n",
                "1 ok\n2 call 0 0x0000000000000001 0 4\n3 fault 5\n4 call 0 0x0000000000000000 1 1\n5 call -101 0x0000000000000000 1 1\n6 ok 0x1122334455667788\n7 irq 0 4\n8 call 0 0x0000000000000000 1 1\n9 call 0 0x0000000000000007 0 4\n10 call -111 0x0000000000000000 0 4\n11 call 0 0x0000000000000000 0 3\n12 call -110 0x0000000000000000 0 3\n13 ok 0x0000000000000000\n",
            ),
            (b"irq", "1 irq 0 3\n"),
            (b"# start\n\n irq # tick\n", "1 irq 0 3\n"),
            (
                b"ecall 0x08454E43 7\necall 0x10 0\n",
                "1 call -2 0x0000000000000000 0 3\n2 call -2 0x0000000000000000 0 3\n",
            ),
        ],
    )
}

#[test]
fn a_line_that_is_not_understood_ends_a_run(rt: HostRuntime) {
    all_stop(
        &rt,
        rt.alloc(),
        &[
            (
                (&MEASURE, PLATFORM, b"load s 3 0x80200000", ""),
                "pmpmon: trace.txt: line 1 is not understood\n",
            ),
            (
                (&MEASURE, PLATFORM, b"irq\nfoo\n", "1 irq 0 3\n"),
                "pmpmon: trace.txt: line 2 is not understood\n",
            ),
        ],
    )
}

/// Returns the value of a hexadecimal digit.
fn digit(byte: u8) -> u64 {
    match byte {
        b'0'..=b'9' => u64::from(byte.saturating_sub(b'0')),
        _ => u64::from(byte.saturating_sub(b'a').saturating_add(10)),
    }
}

/// Returns the word that sixteen digits spell, as little-endian bytes if `is_little`, otherwise as a number.
fn word(digits: &[u8], is_little: bool) -> u64 {
    let mut value: u64 = 0;
    for i in 0..8usize {
        let at = if is_little {
            7usize.saturating_sub(i)
        } else {
            i
        };
        let high = digits.get(at.saturating_mul(2)).copied().unwrap_or(b'0');
        let low = digits
            .get(at.saturating_mul(2).saturating_add(1))
            .copied()
            .unwrap_or(b'0');
        value = value
            .wrapping_mul(256)
            .wrapping_add(digit(high).wrapping_mul(16).wrapping_add(digit(low)));
    }
    value
}

/// Asserts that the words in the answers after the first are those of the line after all answers.
fn are_the_words(rt: &impl Abort, plain: &[u8], line: &[u8]) {
    let answer: &[u8] = b"2 call 0 0x";
    for k in 0..4usize {
        let from = 32usize.saturating_add(k.saturating_mul(32));
        let call = plain.get(from.saturating_add(answer.len())..);
        let said = word(call.unwrap_or(&[]), false);
        let at = 10usize.saturating_add(k.saturating_mul(16));
        let told = word(line.get(at..).unwrap_or(&[]), true);
        assert!(rt; said == told, "{k}");
        assert!(rt; said != 0, "{k}");
    }
}

/// Asserts that one line with the measurement follows the answers of a run, and that the calls returned the same
/// measurement.
fn is_measured(rt: &impl Abort, plain: &[u8], measured: &[u8]) {
    let line = measured.get(plain.len()..).unwrap_or(&[]);
    are_the_words(rt, plain, line);
    assert!(rt; measured.starts_with(plain));
    assert!(rt; line.len() == 75);
    assert!(rt; line.starts_with(b"measure 1 "));
    assert!(rt; line.ends_with(b"\n"));
}

#[test]
fn measurements_are_those_that_the_call_answers(rt: HostRuntime) {
    let trace =
        b"ecall 0x08454E43 0 0x80200000 1 0 0 0 0\necall 0x08454E43 6 1 0\necall 0x08454E43 6 1 1\necall 0x08454E43 6 1 2\necall 0x08454E43 6 1 3\n";
    let plain = printed(&rt, rt.alloc(), &RUN, PLATFORM, trace);
    let measured = printed(&rt, rt.alloc(), &MEASURE, PLATFORM, trace);
    is_measured(&rt, plain.as_slice(), measured.as_slice())
}

#[test]
fn harts_are_those_of_the_platform(rt: HostRuntime) {
    let trace =
        b"ecall 0x08454E43 0 0x80200000 1 0 0 0 0\n@1 load s 8 0x80200000\n@0 ecall 0x08454E43 2 1\n@1 ecall 0x08454E43 2 1\n@1 ecall 0x08454E43 1 1\n@1 ecall 0x08454E43 0 0x80202000 1 0 0 0 0\n@0 load u 8 0x80200000\n@0 load u 8 0x80202000\n@0 irq\n@1 ecall 0x08454E43 4 1\n@0 ecall 0x08454E43 5 7\n@1 ecall 0x08454E43 5 7\n@0 ecall 0x08454E43 1 1\n@1 load s 8 0x80200000\n@2 irq\n";
    let report =
        "1 call 0 0x0000000000000001 0 4\n2 fault 5\n3 call 0 0x0000000000000000 1 1\n4 call -111 0x0000000000000000 0 4\n5 call -111 0x0000000000000000 0 4\n6 call 0 0x0000000000000002 0 5\n7 ok 0x0000000000000000\n8 fault 5\n9 irq 0 5\n10 call 0 0x0000000000000000 1 1\n11 call -101 0x0000000000000000 0 5\n12 call 0 0x0000000000000007 0 5\n13 call 0 0x0000000000000000 0 4\n14 ok 0x0000000000000000\n";
    let said = "pmpmon: trace.txt: line 15 is not understood\n";
    stops(&rt, rt.alloc(), &RUN, TWO_HARTS, trace, report, said)
}

/// Returns a trace that creates fourteen enclaves of one page, each two pages after the previous one.
fn scattered(rt: &impl Abort, alloc: Global) -> Vec<u8> {
    let mut trace = Vec::new(alloc);
    for i in 0..14u64 {
        let base = i.saturating_mul(0x2000).saturating_add(0x80200000);
        let line = format!(in alloc; "ecall 0x08454E43 0 {} 1 0 0 0 0\n", base).expect(
            rt, "memory",
        );
        trace
            .extend_from_slice(line.as_bytes())
            .expect(rt, "memory");
    }
    trace
}

#[test]
fn entries_are_those_of_the_platform(rt: HostRuntime) {
    let trace = scattered(&rt, rt.alloc());
    let trace = trace.as_slice();
    let sixteen = b"13 call 0 0x000000000000000d 0 16\n14 call -108 0x0000000000000000 0 16\n";
    let many = b"14 call 0 0x000000000000000e 0 17\n";
    all_have(
        &rt,
        rt.alloc(),
        &[
            (&RUN, PLATFORM, trace, (0, b"", b"", sixteen)),
            (&RUN, MANY_ENTRIES, trace, (0, b"", b"", many)),
        ],
    )
}

/// Asserts the report and the message of a run that a device ended.
fn is_ended(rt: &impl Abort, tried: &Tried, report: &str, said: &str) {
    assert!(rt; tried.status == 3);
    assert!(rt; tried.out.as_slice() == report.as_bytes());
    assert!(rt; tried.err.as_slice() == said.as_bytes());
}

/// Asserts that each run whose trace or report fails at a call ends after the data transferred so far.
fn each_ends_behind(
    rt: &impl Abort,
    alloc: Global,
    rows: &[(&[u8], Option<u64>, Option<u64>, &str, &str)],
) {
    for (trace, second, out, report, said) in rows {
        let mut failing = Failing::none(1);
        failing.second = *second;
        failing.out = *out;
        let tried = try_on(rt, alloc, &RUN, PLATFORM, trace, failing);
        is_ended(rt, &tried, report, said);
    }
}

const TWO: &[u8] = b"irq\nirq\n";

const OUTPUT: &str = "pmpmon: standard output: cannot write\n";

const TRACE: &str = "pmpmon: trace.txt: cannot read\n";

#[test]
fn a_failing_device_ends_a_run_behind_what_it_took(rt: HostRuntime) {
    each_ends_behind(
        &rt,
        rt.alloc(),
        &[
            (TWO, None, Some(6), "1 irq 0 3\n2 i", OUTPUT),
            (TWO, None, Some(1), "", OUTPUT),
            (b"irq\nir", Some(7), None, "1 irq 0 3\n", TRACE),
            (b"irq", Some(4), None, "", TRACE),
        ],
    )
}
