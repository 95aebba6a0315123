//! Register pairs and the entries that they encode.

use pmp_encoding::{Bank, EncodingFault, Entry, Extent, Limit, Perm, Region, decode};
use std::process::Abort;

/// Returns the entry of the block.
fn entry(rt: &impl Abort, base: u64, log2: u32, perm: Perm) -> Entry {
    let region = Region::new(base, log2).expect(rt, "a block");
    Entry { region, perm }
}

/// Asserts the meaning of a pair of a configuration byte and an address.
fn means(rt: &impl Abort, cfg: u8, addr: u64, meaning: Result<Option<Entry>, EncodingFault>) {
    assert!(rt; decode(cfg, addr) == meaning, "{cfg:#x} {addr:#x}");
}

/// Asserts that the entry encodes as this pair, and that the pair decodes to it.
fn goes_both_ways(rt: &impl Abort, entry: Entry, cfg: u8, addr: u64) {
    assert!(rt; entry.encode() == (cfg, addr));
    means(rt, cfg, addr, Ok(Some(entry)));
}

/// A block's base, its size as a power of two, the permission, and the pair.
const BOTH_WAYS: &[(u64, u32, Perm, u8, u64)] = &[
    (0x8000_0000, 2, Perm::Read, 0x11, 0x2000_0000),
    (0x8000_0008, 3, Perm::ReadWrite, 0x1B, 0x2000_0002),
    (0x8000_0010, 4, Perm::Execute, 0x1C, 0x2000_0005),
    (0x8000_0000, 12, Perm::ReadWriteExecute, 0x1F, 0x2000_01FF),
    (0x8000_0000, 21, Perm::NoAccess, 0x18, 0x2003_FFFF),
    (
        0x00FF_FFFF_FFFF_F000,
        12,
        Perm::ReadExecute,
        0x1D,
        0x003F_FFFF_FFFF_FDFF,
    ),
    (0, 56, Perm::ReadWriteExecute, 0x1F, 0x001F_FFFF_FFFF_FFFF),
];

/// Invalid pairs, each with the least of its faults.
const FAULTY: &[(u8, u64, EncodingFault)] = &[
    (0x0A, 0, EncodingFault::ReservedPerm),
    (0x8F, 0, EncodingFault::Tor),
    (0x97, 0, EncodingFault::Locked),
    (0x37, 0, EncodingFault::ReservedBits),
    (0x00, 1 << 54, EncodingFault::AddressBits),
];

#[test]
fn pairs_mean_entries_or_have_a_least_fault(rt: HostRuntime) {
    for (base, log2, perm, cfg, addr) in BOTH_WAYS {
        goes_both_ways(&rt, entry(&rt, *base, *log2, *perm), *cfg, *addr);
    }
    let whole = entry(&rt, 0, 56, Perm::ReadWriteExecute);
    means(&rt, 0x1F, 0x003F_FFFF_FFFF_FFFF, Ok(Some(whole)));
    assert!(rt; whole.encode().1 == 0x001F_FFFF_FFFF_FFFF);
    means(&rt, 0x00, 0, Ok(None));
    for (cfg, addr, fault) in FAULTY {
        means(&rt, *cfg, *addr, Err(*fault));
    }
}

/// Asserts the numbers of faults and limits.
fn have_numbers(rt: &impl Abort) {
    let faults = (
        EncodingFault::ReservedPerm.number(),
        EncodingFault::NoSuchCsr.number(),
    );
    assert!(rt; faults == (1, 6));
    let limits = (Limit::Sixteen.number(), Limit::SixtyFour.number());
    assert!(rt; limits == (16, 64));
    let of = [Limit::of(16), Limit::of(64), Limit::of(0), Limit::of(17)];
    assert!(rt; of == [Some(Limit::Sixteen), Some(Limit::SixtyFour), None, None]);
}

/// Asserts that six bytes are the bits of a permission, and that others are not.
fn have_bits(rt: &impl Abort) {
    for bits in [0u8, 1, 3, 4, 5, 7] {
        let perm = Perm::from_bits(bits).expect(rt, "a permission");
        assert!(rt; perm.bits() == bits, "{bits}");
    }
    for bits in [2u8, 6, 8, 255] {
        assert!(rt; Perm::from_bits(bits) == None, "{bits}");
    }
}

/// Asserts the indices of permissions, and the blank entry.
fn have_indices_and_blanks(rt: &impl Abort) {
    let indices = (Perm::default().index(), Perm::ReadWriteExecute.index());
    assert!(rt; indices == (0, 5));
    let blank = Entry {
        region: Region::default(),
        perm: Perm::NoAccess,
    };
    assert!(rt; Entry::default() == blank);
}

/// Asserts that a block must be aligned and in the address space.
fn are_blocks(rt: &impl Abort) {
    let last = Region::new((1 << 56) - 4, 2).expect(rt, "a block");
    assert!(rt; (last.base(), last.log2()) == ((1 << 56) - 4, 2));
    for (base, log2) in [(0x1000u64, 13u32), (0, 1), (0, 57), (1 << 56, 12)] {
        assert!(rt; Region::new(base, log2) == None, "{base:#x} {log2}");
    }
}

#[test]
fn parts_of_entries(rt: HostRuntime) {
    have_numbers(&rt);
    have_bits(&rt);
    have_indices_and_blanks(&rt);
    are_blocks(&rt);
}

/// Asserts the result of writing a register of the bank.
fn writes(
    rt: &impl Abort,
    bank: &mut Bank,
    number: u16,
    value: u64,
    answer: Result<(), EncodingFault>,
) {
    assert!(rt;
        bank.write_csr(number, value) == answer,
        "{number:#x} {value:#x}"
    );
}

/// Refused writes: the register, the value, the fault. The fault of a word is that of its lowest invalid byte.
const REFUSED: &[(u16, u64, EncodingFault)] = &[
    (0x3A1, 0, EncodingFault::NoSuchCsr),
    (0x3A0, 0x8F, EncodingFault::Tor),
    (0x3A0, 0x9F, EncodingFault::Locked),
    (0x3A0, 0x0A, EncodingFault::ReservedPerm),
    (0x3A2, 0x0A80_1F00, EncodingFault::Locked),
    (0x3B0, 1 << 54, EncodingFault::AddressBits),
];

/// Asserts that a write of the value is refused with the fault and leaves the bank unchanged.
fn refuses(rt: &impl Abort, before: &Bank, number: u16, value: u64, fault: EncodingFault) {
    let mut bank = *before;
    writes(rt, &mut bank, number, value, Err(fault));
    assert!(rt; bank == *before, "{number:#x} {value:#x}");
}

#[test]
fn written_registers_are_read_back(rt: HostRuntime) {
    let mut bank = Bank::of([].as_slice(), Limit::Sixteen);
    writes(&rt, &mut bank, 0x3A2, 0x1F00, Ok(()));
    writes(&rt, &mut bank, 0x3B9, 0x2000_01FF, Ok(()));
    let page = entry(&rt, 0x8000_0000, 12, Perm::ReadWriteExecute);
    let read = (bank.cfg2(), bank.entry(8), bank.entry(9));
    assert!(rt; read == (0x1F00, None, Some(page)));
    let extent = Extent {
        base: 0x8000_0000,
        end: 0x8000_1000,
        perm: Perm::ReadWriteExecute,
    };
    assert!(rt; bank.extents() == [extent].as_slice());
    writes(&rt, &mut bank, 0x3A2, 0, Ok(()));
    assert!(rt; bank.extents().len() == 0);
}

/// Asserts the results of writing zero to a register of an empty bank with each limit.
fn writes_zero(
    rt: &impl Abort,
    number: u16,
    small: Result<(), EncodingFault>,
    large: Result<(), EncodingFault>,
) {
    let mut bank = Bank::of([].as_slice(), Limit::Sixteen);
    writes(rt, &mut bank, number, 0, small);
    let mut bank = Bank::of([].as_slice(), Limit::SixtyFour);
    writes(rt, &mut bank, number, 0, large);
}

/// Registers that a bank of sixty-four entries has and one of sixteen lacks.
const PAST_THE_SIXTEENTH: [u16; 4] = [0x3A4, 0x3AE, 0x3C0, 0x3EF];

/// An odd configuration register, and others, that neither bank has.
const IN_NEITHER: [u16; 3] = [0x3A1, 0x3F0, 0x300];

#[test]
fn refused_writes_change_nothing(rt: HostRuntime) {
    let page = entry(&rt, 0x8000_0000, 12, Perm::ReadWriteExecute);
    let before = Bank::of([page].as_slice(), Limit::Sixteen);
    for (number, value, fault) in REFUSED {
        refuses(&rt, &before, *number, *value, *fault);
    }
    let none = Err(EncodingFault::NoSuchCsr);
    for number in PAST_THE_SIXTEENTH {
        writes_zero(&rt, number, none, Ok(()));
    }
    for number in IN_NEITHER {
        writes_zero(&rt, number, none, none);
    }
}

/// Asserts the words of the bank with the three entries at boot.
fn boots(rt: &impl Abort) {
    let device = entry(rt, 0x1000_0000, 12, Perm::ReadWrite);
    let monitor = entry(rt, 0x8000_0000, 21, Perm::NoAccess);
    let ram = entry(rt, 0x8000_0000, 27, Perm::ReadWriteExecute);
    let bank = Bank::of([device, monitor, ram].as_slice(), Limit::Sixteen);
    assert!(rt; (bank.cfg0(), bank.cfg2()) == (0x001F_181B, 0));
    let addrs = [bank.addr(0), bank.addr(1), bank.addr(2), bank.addr(3)];
    assert!(rt; addrs == [0x0400_01FF, 0x2003_FFFF, 0x20FF_FFFF, 0]);
}

/// Asserts the words of a full bank of sixteen.
fn fills_sixteen(rt: &impl Abort) {
    let page = entry(rt, 0x8000_0000, 12, Perm::NoAccess);
    let bank = Bank::of([page; 16].as_slice(), Limit::Sixteen);
    assert!(rt; bank.limit() == Limit::Sixteen);
    let words = [bank.cfg(0), bank.cfg(2), bank.cfg(4)];
    assert!(rt; words == [0x1818_1818_1818_1818, 0x1818_1818_1818_1818, 0]);
    assert!(rt; (bank.entry(15), bank.entry(16)) == (Some(page), None));
}

/// Asserts the words of a full bank of sixty-four.
fn fills_sixty_four(rt: &impl Abort) {
    let page = entry(rt, 0x8000_0000, 12, Perm::NoAccess);
    let bank = Bank::of([page; 64].as_slice(), Limit::SixtyFour);
    assert!(rt; bank.limit() == Limit::SixtyFour);
    let last = (bank.cfg(14), bank.addr(63), bank.entry(63));
    assert!(rt; last == (0x1818_1818_1818_1818, 0x2000_01FF, Some(page)));
}

#[test]
fn banks_of_three_sixteen_and_sixty_four_entries(rt: HostRuntime) {
    boots(&rt);
    fills_sixteen(&rt);
    fills_sixty_four(&rt);
}
