//! Accesses judged directly by registers.

use hart_trace::judge_lines;
use pmp_encoding::Xlen;
use pmp_match::{Access, Cause, Kind, Mode, Security};
use register_audit::{ListingRules, Registers, Reserved, ReservedAt, Ruled, Rules, rules_in};
use std::process::Abort;
use text_lines::Direct;
use text_lines::fakes::{PieceSink, PieceSource};

/// A page at 0x80000000, as a NAPOT address register.
const PAGE: u64 = 0x2000_01ff;

/// The whole address space, as a NAPOT address register.
const ALL: u64 = 0x1f_ffff_ffff_ffff;

/// Returns registers with two entries, each given as its configuration byte and its address register.
fn two(first: (u8, u64), second: (u8, u64)) -> Registers {
    let mut registers = Registers {
        xlen: Xlen::Rv64,
        security: Security::of(0),
        cfgs: [0; 64],
        addresses: [0; 64],
    };
    registers.cfgs[0] = first.0;
    registers.addresses[0] = first.1;
    registers.cfgs[1] = second.0;
    registers.addresses[1] = second.1;
    registers
}

/// Eight bytes at the end of the page.
const IN_PAGE: u64 = 0x8000_0ff8;

/// A denied load.
const NO_LOAD: Result<(), Cause> = Err(Cause::LoadFault);

/// A denied store.
const NO_STORE: Result<(), Cause> = Err(Cause::StoreFault);

/// Two entries, an access by its kind, size and address, and its outcome.
type Row = ((u8, u64), (u8, u64), Kind, u8, u64, Result<(), Cause>);

/// Accesses of machine mode, which no trace contains.
const OF_MACHINE_MODE: &[Row] = &[
    // a page that is locked or not
    ((0x98, PAGE), (0, 0), Kind::Load, 8, IN_PAGE, NO_LOAD),
    ((0x18, PAGE), (0, 0), Kind::Load, 8, IN_PAGE, Ok(())),
    ((0x99, PAGE), (0, 0), Kind::Load, 8, IN_PAGE, Ok(())),
    ((0x99, PAGE), (0, 0), Kind::Store, 8, IN_PAGE, NO_STORE),
    ((0x19, PAGE), (0, 0), Kind::Store, 8, IN_PAGE, Ok(())),
    // four bytes before everything else
    ((0x17, 0x400), (0x1f, ALL), Kind::Load, 8, 0x1000, NO_LOAD),
    ((0x17, 0x400), (0x1f, ALL), Kind::Load, 4, 0x1000, Ok(())),
    ((0x17, 0x400), (0x1f, ALL), Kind::Load, 8, 0x1008, Ok(())),
    ((0x17, 0x401), (0x1f, ALL), Kind::Load, 8, 0x1000, NO_LOAD),
    // no enabled entry
    ((0, PAGE), (0, ALL), Kind::Store, 8, 0, Ok(())),
    ((0, PAGE), (0, ALL), Kind::Load, 1, 1 << 56, NO_LOAD),
    (
        (0, PAGE),
        (0, ALL),
        Kind::Load,
        8,
        4,
        Err(Cause::LoadMisaligned),
    ),
    (
        (0, PAGE),
        (0, ALL),
        Kind::Store,
        4,
        2,
        Err(Cause::StoreMisaligned),
    ),
];

/// Accesses of user mode to ranges that begin at the previous address register.
const OF_RANGES: &[Row] = &[
    ((0, 0x400), (0x0b, 0x800), Kind::Load, 8, 0xff8, NO_LOAD),
    ((0, 0x400), (0x0b, 0x800), Kind::Store, 8, 0x1ff8, Ok(())),
    ((0, 0x400), (0x0b, 0x800), Kind::Load, 1, 0x2000, NO_LOAD),
    (
        (0x1f, PAGE),
        (0x09, 0x2000_1000),
        Kind::Load,
        8,
        0x8000_1000,
        Ok(()),
    ),
    ((0, 0x800), (0x0f, 0x400), Kind::Load, 8, 0x1000, NO_LOAD),
];

/// Asserts the outcome of the row's access in this mode under its entries.
fn judges_so(rt: &impl Abort, mode: Mode, row: &Row) {
    let (first, second, kind, size, addr, wanted) = row;
    let rules = Rules::of(&two(*first, *second)).ok().expect(rt, "rules");
    let access = Access::new(mode, *kind, *size, *addr).expect(rt, "a size");
    assert!(rt;
        rules.judge(&access) == *wanted,
        "{:#x}: {mode:?} {kind:?} {size} {addr:#x}",
        first.0
    );
}

#[test]
fn locked_entries_and_partial_matches_bind_machine_mode(rt: HostRuntime) {
    for row in OF_MACHINE_MODE {
        judges_so(&rt, Mode::Machine, row);
    }
}

#[test]
fn a_range_is_from_the_register_before_to_before_its_own(rt: HostRuntime) {
    for row in OF_RANGES {
        judges_so(&rt, Mode::User, row);
    }
}

/// With MML set: L, R, W and X of an entry, and the rights of machine mode and of supervisor mode, each as R 1, W 2 and
/// X 4.
const OF_LOCKDOWN: &[(u8, u8, u8)] = &[
    (0x18, 0, 0),
    (0x1c, 0, 4),
    (0x1a, 3, 1),
    (0x1e, 3, 3),
    (0x19, 0, 1),
    (0x1d, 0, 5),
    (0x1b, 0, 3),
    (0x1f, 0, 7),
    (0x98, 0, 0),
    (0x9c, 4, 0),
    (0x9a, 4, 4),
    (0x9e, 5, 4),
    (0x99, 1, 0),
    (0x9d, 5, 0),
    (0x9b, 3, 0),
    (0x9f, 1, 1),
];

/// The rights of machine mode to a byte that no entry matches, by `mseccfg`.
const UNMATCHED: &[(u64, u8)] = &[(0, 7), (1, 3), (2, 0), (3, 0), (4, 7)];

/// Asserts the rights of a mode, R 1, W 2 and X 4, to four bytes at an address.
fn gives(rt: &impl Abort, rules: &Rules, mode: Mode, addr: u64, rights: u8) {
    for (kind, right) in [(Kind::Load, 1), (Kind::Store, 2), (Kind::Fetch, 4)] {
        let access = Access::new(mode, kind, 4, addr).expect(rt, "a size");
        let may = rules.judge(&access).is_ok();
        assert!(rt;
            may == (rights & right != 0),
            "{mode:?} {kind:?} {addr:#x} {rights}"
        );
    }
}

/// Returns the rules of one entry for a page, under this `mseccfg`.
fn secured(rt: &impl Abort, mseccfg: u64, cfg: u8) -> Rules {
    let mut registers = two((cfg, PAGE), (0, 0));
    registers.security = Security::of(mseccfg);
    Rules::of(&registers).ok().expect(rt, "rules")
}

#[test]
fn sixteen_rules_of_lockdown(rt: HostRuntime) {
    for (cfg, machine, supervisor) in OF_LOCKDOWN {
        let rules = secured(&rt, 1, *cfg);
        gives(&rt, &rules, Mode::Machine, IN_PAGE, *machine);
        gives(&rt, &rules, Mode::Supervisor, IN_PAGE, *supervisor);
        gives(&rt, &rules, Mode::User, IN_PAGE, *supervisor);
    }
}

#[test]
fn machine_mode_where_nothing_matches(rt: HostRuntime) {
    for (mseccfg, machine) in UNMATCHED {
        let rules = secured(&rt, *mseccfg, 0x1f);
        gives(&rt, &rules, Mode::Machine, 0x1000, *machine);
        gives(&rt, &rules, Mode::User, 0x1000, 0);
    }
}

#[test]
fn reserved_values_have_no_rules(rt: HostRuntime) {
    for (first, second, place, value) in [
        (0x1f, 0x1a, 1, Reserved::Permission),
        (0x06, 0x1a, 0, Reserved::Permission),
        (0x3f, 0x1f, 0, Reserved::Bits),
    ] {
        let found = Rules::of(&two((first, ALL), (second, ALL))).err();
        assert!(rt; found == Some(ReservedAt { place, value }), "{first:#x}");
    }
}

const TRACE: &[u8] = b"load u 8 0xff8\nload u 8 0x1000\nstore s 4 0x1ffc 1\nfetch s 4 0x1000\n";

/// Asserts the answers to the trace under these rules.
fn judges_trace(rt: &impl Abort, rules: &Rules, wanted: &str) {
    let mut source = PieceSource::new(TRACE, 4096, None);
    let mut sink = PieceSink::new(4096, None);
    assert!(rt;
        judge_lines::<_, _, Direct, _>(rules, &mut source, &mut sink).is_ok(),
        "{wanted}"
    );
    assert!(rt; sink.written() == wanted.as_bytes(), "{wanted}");
}

/// Asserts the answers to the trace under a listing, or the line that refuses the listing, and the notes on it.
fn answers(rt: &impl Abort, listing: &[u8], wanted: &str, notes: &str) {
    let ListingRules { ruled, notes: said } = rules_in(Xlen::Rv64, listing).expect(rt, "a listing");
    match ruled {
        Ruled::Rules(rules) => judges_trace(rt, &rules, wanted),
        Ruled::Refused(line) => assert!(rt; line.as_slice() == wanted.as_bytes(), "{wanted}"),
    }
    assert!(rt; said.as_slice() == notes.as_bytes(), "{wanted}");
}

#[test]
fn a_listing_judges_a_trace_or_says_why_not(rt: HostRuntime) {
    answers(
        &rt,
        b"pmpaddr0 0x400\npmpaddr1 0x800\npmpcfg0 0xb00\nmstatus 0x0\n",
        "1 fault 5\n2 ok\n3 ok\n4 fault 1\n",
        "# lines of other registers are passed over, line 4 first\n",
    );
    answers(
        &rt,
        b"0 0x1a 0x400\n",
        "pair 0 0x1a 0x0000000000000400: W without R\n",
        "",
    );
}
