//! Registers in each output form: in pieces of any size, for entries below a page, and with failing writes.

use map_table::{print_asm, print_c, print_json};
use map_text::{print_plan, room_from};
use pmp_encoding::{Entry, Limit, PackedEntry, Perm, Region, Xlen};
use std::alloc::Global;
use std::process::Abort;
use text_lines::fakes::PieceSink;

/// A block: its base, the binary logarithm of its size, and its permission.
pub(crate) type Block = (u64, u32, Perm);

/// An output form of registers.
#[derive(Clone, Copy)]
enum Form {
    /// The text of `plan`.
    Plan,
    Assembly,
    C,
    Json,
}

/// A device page, and 128 MiB of memory, of which the first 2 MiB are the firmware's.
pub(crate) const BOARD: &[Block] = &[
    (0x1000_0000, 12, Perm::ReadWrite),
    (0x8000_0000, 21, Perm::NoAccess),
    (0x8000_0000, 27, Perm::ReadWriteExecute),
];

/// Returns the entries of these blocks.
pub(crate) fn entries_of(rt: &impl Abort, alloc: Global, blocks: &[Block]) -> Vec<Entry> {
    let mut entries = Vec::new(alloc);
    for (base, log2, perm) in blocks {
        let region = Region::new(*base, *log2).expect(rt, "a block");
        let perm = *perm;
        entries.push(Entry { region, perm }).expect(rt, "memory");
    }
    entries
}

/// Returns the packed entries of these blocks, as in a plan.
fn packed_of(rt: &impl Abort, alloc: Global, blocks: &[Block]) -> Vec<PackedEntry> {
    let mut packed = Vec::new(alloc);
    for entry in entries_of(rt, alloc, blocks) {
        packed.push(PackedEntry::new(entry)).expect(rt, "memory");
    }
    packed
}

/// Returns whether all of the entries could be printed in this form, for sixteen entries of RV64, from the first on.
/// The address registers must reach them.
fn prints(rt: &impl Abort, form: Form, entries: &[PackedEntry], sink: &mut PieceSink) -> bool {
    let (xlen, limit) = (Xlen::Rv64, Limit::Sixteen);
    assert!(rt; xlen.reaches(entries));
    assert!(rt; entries.len() <= 64);
    let fits = entries.len() <= room_from(0, limit);
    match form {
        Form::Plan => print_plan(xlen, entries, 0, limit, sink).is_ok(),
        Form::Json => print_json("a.map", xlen, entries, 0, limit, sink).is_ok(),
        Form::Assembly => fits && print_asm(None, xlen, entries, 0, limit, sink).is_ok(),
        Form::C => fits && print_c(None, xlen, entries, 0, limit, sink).is_ok(),
    }
}

/// Asserts that the board in this form is one text with this beginning, however few bytes each write accepts.
fn expect_same(rt: &impl Abort, alloc: Global, form: Form, begin: &[u8]) {
    let entries = packed_of(rt, alloc, BOARD);
    let mut whole = PieceSink::new(8192, None);
    assert!(rt; prints(rt, form, entries.as_slice(), &mut whole));
    assert!(rt; whole.written().starts_with(begin));
    for piece in [3, 7, 4096] {
        let mut sink = PieceSink::new(piece, None);
        assert!(rt; prints(rt, form, entries.as_slice(), &mut sink));
        assert!(rt; sink.written() == whole.written(), "in pieces of {piece}");
    }
}

#[test]
fn each_form_is_one_text_whatever_a_write_takes(rt: HostRuntime) {
    let plan = b"entries 3
0 0x1b 0x00000000040001ff
1 0x18 0x000000002003ffff
2 0x1f 0x0000000020ffffff
pmpcfg0 0x00000000001f181b
pmpcfg2 0x0000000000000000
";
    expect_same(&rt, rt.alloc(), Form::Plan, plan);
    expect_same(&rt, rt.alloc(), Form::C, b"/*\n * PMP registers");
    expect_same(&rt, rt.alloc(), Form::Assembly, b"/*\n * PMP registers");
    expect_same(&rt, rt.alloc(), Form::Json, b"{\n  \"map\": \"a.map\",\n");
}

/// Asserts the end of these blocks in assembly.
fn expect_end(rt: &impl Abort, alloc: Global, blocks: &[Block], end: &[u8]) {
    let entries = packed_of(rt, alloc, blocks);
    let mut sink = PieceSink::new(4096, None);
    assert!(rt; prints(rt, Form::Assembly, entries.as_slice(), &mut sink));
    assert!(rt; sink.written().ends_with(end));
}

#[test]
fn entries_below_a_page_have_their_sizes(rt: HostRuntime) {
    let blocks = [(0x2000, 2, Perm::Read), (0x2000, 9, Perm::ReadExecute)];
    let end = b"
    li      t0, 0x0000000000000800 /* 0: 0x0000000000002000, 4 B, r */
    csrw    pmpaddr0, t0
    li      t0, 0x000000000000083f /* 1: 0x0000000000002000, 512 B, rx */
    csrw    pmpaddr1, t0
    li      t0, 0x0000000000001d11
    csrw    pmpcfg0, t0
    li      t0, 0x0000000000000000
    csrw    pmpcfg2, t0
    sfence.vma
";
    expect_end(&rt, rt.alloc(), &blocks, end);
}

/// Asserts that printing the board stops at the first of its writes that fails, for each of seven, and on a device that
/// accepts nothing.
fn expect_failures(rt: &impl Abort, alloc: Global, form: Form) {
    let entries = packed_of(rt, alloc, BOARD);
    for k in 1..8u64 {
        let mut sink = PieceSink::new(4096, Some(k));
        let printed = prints(rt, form, entries.as_slice(), &mut sink);
        assert!(rt;
            !printed && sink.failures == 1 && sink.writes() == k,
            "write {k}"
        );
    }
    let mut sink = PieceSink::new(0, None);
    let printed = prints(rt, form, entries.as_slice(), &mut sink);
    assert!(rt; !printed && sink.written().is_empty());
}

#[test]
fn each_write_that_fails_ends_it(rt: HostRuntime) {
    expect_failures(&rt, rt.alloc(), Form::C);
    expect_failures(&rt, rt.alloc(), Form::Assembly);
    expect_failures(&rt, rt.alloc(), Form::Json);
}
