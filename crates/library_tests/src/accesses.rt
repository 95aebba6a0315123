//! Accesses judged by banks.

use pmp_encoding::{Bank, Entry, Limit, Perm, Region};
use pmp_match::{Access, Cause, Kind, Mode, Segments, judge};
use std::alloc::Global;
use std::process::Abort;

/// An entry: the base of its block, the size of the block as a power of two, and the permission.
type Block = (u64, u32, Perm);

/// Returns the bank with these entries.
fn bank_of(rt: &impl Abort, alloc: Global, blocks: &[Block], limit: Limit) -> Bank {
    let mut entries = Vec::new(alloc);
    for (base, log2, perm) in blocks {
        let region = Region::new(*base, *log2).expect(rt, "a block");
        let entry = Entry {
            region,
            perm: *perm,
        };
        entries.push(entry).expect(rt, "memory");
    }
    assert!(rt; entries.len() <= limit.number() as usize);
    Bank::of(entries.as_slice(), limit)
}

/// Asserts the first configuration word of the entries' bank.
fn configures(rt: &impl Abort, alloc: Global, blocks: &[Block], word: u64) {
    assert!(rt; bank_of(rt, alloc, blocks, Limit::Sixteen).cfg0() == word);
}

/// A load: the mode, the size, the address, and the outcome.
type Load = (Mode, u8, u64, Result<(), Cause>);

/// Asserts the outcomes of loads under the entries' bank.
fn loads(rt: &impl Abort, alloc: Global, blocks: &[Block], limit: Limit, rows: &[Load]) {
    let bank = bank_of(rt, alloc, blocks, limit);
    for (mode, size, addr, wanted) in rows {
        let access = Access::new(*mode, Kind::Load, *size, *addr).expect(rt, "a size");
        assert!(rt;
            judge(&bank, &access) == *wanted,
            "{mode:?} {size} {addr:#x}"
        );
    }
}

/// Asserts the outcomes of loads in user mode, judged by the list of the entries' bank.
fn list_loads(
    rt: &impl Abort,
    alloc: Global,
    blocks: &[Block],
    rows: &[(u8, u64, Result<(), Cause>)],
) {
    let bank = bank_of(rt, alloc, blocks, Limit::Sixteen);
    let segments = Segments::of(&bank);
    for (size, addr, wanted) in rows {
        let access = Access::new(Mode::User, Kind::Load, *size, *addr).expect(rt, "a size");
        assert!(rt; segments.judge(&access) == *wanted, "{size} {addr:#x}");
    }
}

/// Four bytes, and then the page that begins with them, both with all permissions.
const WORD_BEFORE_PAGE: &[Block] = &[
    (0x8000_0000, 2, Perm::ReadWriteExecute),
    (0x8000_0000, 12, Perm::ReadWriteExecute),
];

const PARTLY_MATCHED: &[Load] = &[
    (Mode::Supervisor, 4, 0x8000_0000, Ok(())),
    (Mode::Machine, 8, 0x8000_0000, Err(Cause::LoadFault)),
    (Mode::Supervisor, 8, 0x8000_0000, Err(Cause::LoadFault)),
    (Mode::User, 8, 0x8000_0000, Err(Cause::LoadFault)),
];

#[test]
fn the_list_judges_what_no_segment_has_whole(rt: HostRuntime) {
    list_loads(
        &rt,
        rt.alloc(),
        WORD_BEFORE_PAGE,
        &[
            (4, 0x8000_0000, Ok(())),
            (8, 0x8000_0000, Err(Cause::LoadFault)),
            (8, 0x8000_0008, Ok(())),
            (8, 0x8000_1000, Err(Cause::LoadFault)),
            (8, 0x8000_0004, Err(Cause::LoadMisaligned)),
        ],
    );
}

/// A page with all permissions, and then its first four bytes with none.
const PAGE_BEFORE_WORD: &[Block] = &[
    (0x8000_0000, 12, Perm::ReadWriteExecute),
    (0x8000_0000, 2, Perm::NoAccess),
];

const WHOLLY_MATCHED: &[Load] = &[
    (Mode::User, 8, 0x8000_0000, Ok(())),
    (Mode::User, 4, 0x8000_0000, Ok(())),
];

const WHOLE_SPACE: &[Block] = &[(0, 56, Perm::ReadWriteExecute)];

const UNEVEN_OR_PAST_THE_SPACE: &[Load] = &[
    (Mode::Machine, 8, 0x8000_0004, Err(Cause::LoadMisaligned)),
    (Mode::Machine, 1, 1 << 56, Err(Cause::LoadFault)),
    (Mode::Machine, 8, (1 << 56) + 4, Err(Cause::LoadMisaligned)),
    (Mode::Supervisor, 8, 0x8000_0004, Err(Cause::LoadMisaligned)),
    (Mode::Supervisor, 1, 1 << 56, Err(Cause::LoadFault)),
    (
        Mode::Supervisor,
        8,
        (1 << 56) + 4,
        Err(Cause::LoadMisaligned),
    ),
];

const WITHOUT_A_MATCH: &[Load] = &[
    (Mode::Machine, 8, 0x8000_0000, Ok(())),
    (Mode::Supervisor, 8, 0x8000_0000, Err(Cause::LoadFault)),
    (Mode::User, 8, 0x8000_0000, Err(Cause::LoadFault)),
];

/// Asserts the numbers of the causes with which two-byte accesses in user mode fault if no entry matches.
fn fault(rt: &impl Abort, rows: &[(Kind, u64, u8)]) {
    let bank = Bank::of([].as_slice(), Limit::Sixteen);
    for (kind, addr, number) in rows {
        let access = Access::new(Mode::User, *kind, 2, *addr).expect(rt, "a size");
        match judge(&bank, &access) {
            Ok(()) => panic!(rt; "allowed where {number} was wanted"),
            Err(cause) => assert!(rt; cause.number() == *number, "{number}"),
        }
    }
}

#[test]
fn causes_of_each_kind(rt: HostRuntime) {
    fault(
        &rt,
        &[
            (Kind::Fetch, 0x1001, 0),
            (Kind::Fetch, 0x1000, 1),
            (Kind::Load, 0x1001, 4),
            (Kind::Load, 0x1000, 5),
            (Kind::Store, 0x1001, 6),
            (Kind::Store, 0x1000, 7),
        ],
    );
}

/// Asserts the four parts of stores of these sizes.
fn have_their_parts(rt: &impl Abort, sizes: &[u8]) {
    for size in sizes {
        let store = Access::new(Mode::User, Kind::Store, *size, 0x1000).expect(rt, "a size");
        let parts = (store.mode(), store.kind(), store.size(), store.addr());
        assert!(rt; parts == (Mode::User, Kind::Store, *size, 0x1000), "{size}");
    }
}

/// Asserts that no access of the kind has any of these sizes.
fn are_no_sizes(rt: &impl Abort, kind: Kind, sizes: &[u8]) {
    for size in sizes {
        assert!(rt;
            Access::new(Mode::User, kind, *size, 0x1000).is_none(),
            "{size}"
        );
    }
}

#[test]
fn sizes_of_each_kind(rt: HostRuntime) {
    have_their_parts(&rt, &[1, 2, 4, 8]);
    are_no_sizes(&rt, Kind::Load, &[0, 3, 16]);
    are_no_sizes(&rt, Kind::Fetch, &[1, 8]);
}

/// The entries at boot: a device, the monitor, memory.
const BOOT: &[Block] = &[
    (0x1000_0000, 12, Perm::ReadWrite),
    (0x8000_0000, 21, Perm::NoAccess),
    (0x8000_0000, 27, Perm::ReadWriteExecute),
];

const AT_BOOT: &[Load] = &[
    (Mode::User, 4, 0x1000_0000, Ok(())),
    (Mode::User, 4, 0x801F_FFFC, Err(Cause::LoadFault)),
    (Mode::Machine, 4, 0x801F_FFFC, Ok(())),
    (Mode::User, 8, 0x8020_0000, Ok(())),
    (Mode::User, 8, 0x87FF_FFF8, Ok(())),
    (Mode::User, 8, 0x8800_0000, Err(Cause::LoadFault)),
];

/// Entries, the hart's limit, and the outcomes of loads under them.
type Judged = (&'static [Block], Limit, &'static [Load]);

const JUDGED: &[Judged] = &[
    (WORD_BEFORE_PAGE, Limit::Sixteen, PARTLY_MATCHED),
    (PAGE_BEFORE_WORD, Limit::Sixteen, WHOLLY_MATCHED),
    (WHOLE_SPACE, Limit::Sixteen, UNEVEN_OR_PAST_THE_SPACE),
    (&[], Limit::SixtyFour, WITHOUT_A_MATCH),
    (BOOT, Limit::SixtyFour, AT_BOOT),
];

#[test]
fn the_first_entry_that_matches_decides_in_each_mode(rt: HostRuntime) {
    configures(&rt, rt.alloc(), WORD_BEFORE_PAGE, 0x1F17);
    configures(&rt, rt.alloc(), PAGE_BEFORE_WORD, 0x101F);
    for (blocks, limit, rows) in JUDGED {
        loads(&rt, rt.alloc(), blocks, *limit, rows);
    }
}
