//! The table of enclaves, call by call.

ghost use Rattle.std.specs.Prelude.{replicate, ◌<◌, ◌^◌};

mod anew;
mod life;
mod needs;
mod platform_rules;
mod refusals;
mod scattered;
mod views;

use enclave_table::{CreateNeeds, Owner, Refusal, Table, World};
use measurement::{Create, Pages};
use platforms::Platform;
use pmp_encoding::{Bank, Entry, Perm};
use std::alloc::Global;
use std::process::Abort;

/// Pages of zeros.
#[derive(Drop)]
struct Zeros {}

impl Pages for Zeros {
    ghost bytes_of = { λ f page. replicate 4096 0 };

    fn copy_page(&self, page: u64, into: &mut [u8; 4096]) {
        let _page = page;
        *into = [0; 4096];
    }
}

/// Returns the example platform with that many entries per hart.
fn example_platform(rt: &impl Abort, entries: u8) -> Platform {
    Platform::new(
        (0x8000_0000, 0x20_0000),
        [(0x8000_0000, 0x800_0000)].as_slice(),
        [(0x1000_0000, 0x1000, Perm::ReadWrite)].as_slice(),
    )
    .expect(rt, "a platform")
    .with_entries(entries)
    .expect(rt, "entries")
}

/// Returns the table of the example platform with that many entries per hart.
fn example_table(rt: &impl Abort, alloc: Global, entries: u8) -> Table {
    Table::boot(alloc, example_platform(rt, entries)).expect(rt, "memory")
}

/// Returns the parts of an enclave with one page of text at this address and nothing else.
fn page_at(base: u64) -> Create {
    Create {
        base,
        text_pages: 1,
        data_pages: 0,
        shared_base: 0,
        shared_count: 0,
        entry_offset: 0,
    }
}

/// Creates enclaves of one page each at this distance from one another.
fn creates_pages(rt: &impl Abort, table: &mut Table, count: u64, apart: u64) {
    for i in 0..count.min(64) {
        let asked = page_at(0x8020_0000 + i * apart.min(0x1_0000));
        creates(rt, table, asked, Ok(i + 1));
    }
}

/// Returns a table with enclaves of one page each at this distance from one another.
fn table_of(rt: &impl Abort, alloc: Global, entries: u8, count: u64, apart: u64) -> Table {
    let mut table = example_table(rt, alloc, entries);
    creates_pages(rt, &mut table, count, apart);
    table
}

/// Asserts the result of creating an enclave from the host.
fn creates(rt: &impl Abort, table: &mut Table, asked: Create, wanted: Result<u64, Refusal>) {
    assert!(rt; table.create(World::Host, &Zeros {}, asked) == wanted);
}

/// Asserts the first private page, or the refusal, when the host destroys an enclave.
fn destroys(rt: &impl Abort, table: &mut Table, id: u64, wanted: Result<u64, Refusal>) {
    let answer = table.destroy(World::Host, id).map(|pages| pages.first);
    assert_eq!(rt; answer, wanted, "enclave {id}");
}

/// Asserts that the host's view uses that many entries.
fn uses(rt: &impl Abort, table: &Table, wanted: usize) {
    assert!(rt; table.host_entries().len() == wanted);
}

/// Asserts the owner of a page.
fn owns(rt: &impl Abort, table: &Table, page: u32, wanted: Owner) {
    assert_eq!(rt; table.owner(u64::from(page)), wanted, "page {page:#x}");
}

/// Asserts the first configuration word of the bank with the host's entries.
fn configures(rt: &impl Abort, table: &Table, wanted: u64) {
    let bank = Bank::of(table.host_entries(), table.limit());
    assert!(rt; bank.cfg0() == wanted);
}

/// An action of the host on a table, or an assertion.
#[derive(Clone, Copy)]
enum Step {
    Creates(Create, Result<u64, Refusal>),
    /// Creates that many enclaves, after each of which the tree is as if rebuilt.
    CreatesSideBySide(u64),
    /// Destroys as many enclaves as the second number, from the first number on, after each of which the tree is as if
    /// rebuilt.
    DestroysEverySecond(u64, u64),
    Keeps(u64),
    Uses(usize),
    Owns(u32, Owner),
    /// The number of entries in an enclave's list.
    ListsMany(u64, usize),
    Configures(u64),
    /// The host's view and the enclave's own would need that many entries after this creation.
    WouldNeed(Create, u32, u32),
    /// The host's view would need that many entries after the destruction of this enclave.
    WouldNeedWithout(u64, u32),
}

/// Performs the steps one after another.
///
/// The tests pass their steps to this function and own no table meanwhile, because each call beside an owned table adds
/// an exit path to prove, on which the table is dropped.
fn takes(rt: &impl Abort, alloc: Global, table: &mut Table, steps: &[Step]) {
    for step in steps {
        match *step {
            Step::Creates(asked, wanted) => creates(rt, table, asked, wanted),
            Step::CreatesSideBySide(count) => {
                anew::creates_side_by_side(rt, alloc, table, count)
            }
            Step::DestroysEverySecond(first, count) => {
                anew::destroys_every_second(rt, alloc, table, first, count)
            }
            Step::Keeps(id) => anew::keeps(rt, table, id),
            Step::Uses(wanted) => uses(rt, table, wanted),
            Step::Owns(page, wanted) => owns(rt, table, page, wanted),
            Step::ListsMany(id, wanted) => views::lists_many(rt, table, id, wanted),
            Step::Configures(wanted) => configures(rt, table, wanted),
            Step::WouldNeed(asked, host, own) => {
                needs::of_creation(rt, table, asked, Some(CreateNeeds { host, own }))
            }
            Step::WouldNeedWithout(id, host) => needs::of_destruction(rt, table, id, Some(host)),
        }
    }
}

/// Performs the steps on a new table with enclaves of one page each at this distance from one another.
fn takes_on(rt: &impl Abort, alloc: Global, entries: u8, count: u64, apart: u64, steps: &[Step]) {
    let mut table = table_of(rt, alloc, entries, count, apart);
    takes(rt, alloc, &mut table, steps);
}

/// Returns whether the entries have these address registers.
fn have_addresses(entries: &[Entry], wanted: &[u64]) -> bool {
    for (entry, address) in entries.iter().zip(wanted) {
        if entry.encode().1 != *address {
            return false;
        }
    }
    entries.len() == wanted.len()
}

/// Returns whether the list of an enclave has these address registers, or the enclave does not exist if `wanted` is
/// `None`.
fn lists(table: &Table, id: u64, wanted: Option<&[u64]>) -> bool {
    match (table.enclave_entries(id), wanted) {
        (Some(entries), Some(wanted)) => have_addresses(entries, wanted),
        (None, None) => true,
        _ => false,
    }
}
