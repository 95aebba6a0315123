//! The hints about the inputs of a task that failed because of bad input.

use command_line::request_of_words;
use monitor_cli::tell_hints;
use std::alloc::Global;
use std::process::Abort;
use text_lines::Counted;
use text_lines::fakes::PieceSource;

const PLATFORM: &[u8] =
    b"harts = 2\n[monitor]\nbase = 0x80000000\nsize = 0x200000\n[[ram]]\nbase = 0x80000000\nsize = 0x8000000\n";

/// Returns the hints of a command line's task on these inputs.
fn hints(rt: &impl Abort, alloc: Global, words: &[&str], first: &[u8], second: &[u8]) -> Vec<u8> {
    let request = request_of_words(alloc, words).expect(rt, "a command line");
    let mut first = Counted::new(first);
    let mut second = Counted::new(second);
    let mut err = Counted::new(Vec::new(alloc));
    tell_hints(alloc, &request, &mut first, &mut second, &mut err);
    err.into_inner()
}

/// A command line, its two inputs, and the hints of its task on them.
type Row<'a> = (&'a [&'a str], &'a [u8], &'a [u8], &'a str);

/// Asserts the hints of each command line's task on its inputs.
fn all_hint(rt: &impl Abort, alloc: Global, rows: &[Row<'_>]) {
    for (words, first, second, wanted) in rows {
        let said = hints(rt, alloc, words, first, second);
        assert!(rt; said.as_slice() == wanted.as_bytes(), "{words:?}, {wanted}");
    }
}

const MAP: &[u8] = b"0x80000000 0x1000 rwx\n";

const WRONG: &[u8] = b"0x80000000 0x8000000 rwx\n0x80000000 0x200400 none\n0x10000000 0x1000 wr\n";

const OF_MAP: &str =
    "hint: m:2:12: SIZE 0x200400 is not a multiple of 4096; the whole pages are 0x201000\nhint: m:3:19: PERM 'wr' is not written so; write rw\n";

const JUDGE: &[&str] = &["pmpmon", "judge", "m", "t"];

const LISTING: &[u8] = b"pmpcfg0 0\nwhat is this\n";

const OF_LISTING: &str =
    "hint: r:2:1: the line is not understood; write a register and its value, as 'pmpcfg0 0x1f'\n";

const OF_TRACE: &str = "hint: t:1:1: 'lead' is no event; write load\n";

/// An empty certificate is refused.
const OF_EMPTY: &str = "hint: c: the file ends here\n";

const RUN: &[&str] = &["pmpmon", "run", "p", "t"];

const LINT: &[&str] = &["pmpmon", "lint", "--trace", "t", "--platform", "p"];

const OF_HARTS: &str = "hint: t:2:1: '@2' is none of the harts; H is below 2\n";

const OF_PLATFORM: &str = "hint: p: the key monitor is missing\n";

/// A map that needs three entries.
const HOST: &[u8] = b"0x80000000 0x8000000 rwx\n0x80000000 0x200000 none\n0x10000000 0x1000 rw\n";

const OF_TWO: &str = "hint: m: needs 3 entries, at most 2\n";

const OF_WORDS: &str = "hint: m: needs 3 entries, 2 are there: no configuration words\n";

#[test]
fn the_first_input_at_fault_has_its_hints(rt: HostRuntime) {
    all_hint(
        &rt,
        rt.alloc(),
        &[
            (&["pmpmon", "plan", "m"], WRONG, b"leap\n", OF_MAP),
            (&["pmpmon", "plan", "m"], MAP, b"", ""),
            (&["pmpmon", "show", "m"], MAP, b"", ""),
            (&["pmpmon", "check", "m", "c"], MAP, b"", OF_EMPTY),
            (JUDGE, MAP, b"", ""),
            (&["pmpmon", "audit", "m", "r"], MAP, LISTING, OF_LISTING),
            (JUDGE, MAP, b"lead s 8 0\n", OF_TRACE),
            (RUN, PLATFORM, b"@1 irq\n@2 irq\n", OF_HARTS),
            (RUN, PLATFORM, b"@1 irq\n", ""),
            (LINT, b"leap\n", b"harts = 1\n", OF_PLATFORM),
            (&["pmpmon", "lint", "m"], b"leap\n", b"", ""),
            (
                &["pmpmon", "plan", "m", "--at-most", "2"],
                HOST,
                b"",
                OF_TWO,
            ),
            (&["pmpmon", "show", "m", "--at-most", "3"], HOST, b"", ""),
            (
                &["pmpmon", "plan", "m", "--first", "14"],
                HOST,
                b"",
                OF_WORDS,
            ),
            (&["pmpmon", "plan", "m", "--first", "13"], HOST, b"", ""),
            (JUDGE, HOST, b"", ""),
        ],
    )
}

#[test]
fn nothing_is_said_of_an_input_that_is_not_there(rt: HostRuntime) {
    let words = ["pmpmon", "judge", "m", "t"];
    let request = request_of_words(rt.alloc(), &words).expect(&rt, "memory");
    let mut first = PieceSource::new(b"0 0x800 rwx\n", 4, Some(2));
    let mut second = PieceSource::new(b"leap\n", 4, None);
    let mut err = Counted::new(Vec::new(rt.alloc()));
    tell_hints(rt.alloc(), &request, &mut first, &mut second, &mut err);
    assert!(rt; second.reads() == 0);
    let said = err.into_inner();
    assert!(rt; said.is_empty());
}
