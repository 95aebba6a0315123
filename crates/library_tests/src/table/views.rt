//! The views of the host and of enclaves, and the lists that mean them.

use super::*;
use permission_map::PermissionMap;

/// An assertion about the views of the host and of enclaves, or the lists that mean them.
#[derive(Clone, Copy)]
enum Seen<'a> {
    /// The address registers of the host's list.
    HostLists(&'a [u64]),
    /// The address registers of an enclave's list, or `None` if the enclave does not exist.
    Lists(u64, Option<&'a [u64]>),
    /// The number of maximal runs of an enclave's view, or `None` if the enclave does not exist.
    Runs(u64, Option<usize>),
    /// The permission of the host on a page.
    HostPage(u32, Perm),
    /// The permission of an enclave on a page.
    Page(u64, u32, Perm),
    /// The entry point of an enclave.
    EnteredAt(u64, u64),
    /// The number of entries that the host's view uses.
    Uses(usize),
    Owns(u32, Owner),
}

/// Checks the assertion on a table.
fn is_so(rt: &impl Abort, table: &Table, seen: Seen) {
    match seen {
        Seen::HostLists(wanted) => assert!(rt; have_addresses(table.host_entries(), wanted)),
        Seen::Lists(id, wanted) => assert!(rt; lists(table, id, wanted)),
        Seen::Runs(id, wanted) => assert!(rt; run_count(rt, table, id) == wanted),
        Seen::HostPage(page, perm) => host_sees(rt, table, page, perm),
        Seen::Page(id, page, perm) => enclave_sees(rt, table, id, page, perm),
        Seen::EnteredAt(id, wanted) => assert!(rt; table.entry_point(id) == Some(wanted)),
        Seen::Uses(wanted) => uses(rt, table, wanted),
        Seen::Owns(page, wanted) => owns(rt, table, page, wanted),
    }
}

/// Checks the assertions on a new table with this enclave, or with none.
fn sees(rt: &impl Abort, alloc: Global, asked: Option<Create>, seen: &[Seen]) {
    let mut table = example_table(rt, alloc, 16);
    if let Some(asked) = asked {
        creates(rt, &mut table, asked, Ok(1));
    }
    all_are_so(rt, &table, seen);
}

/// Checks the assertions on a table.
fn all_are_so(rt: &impl Abort, table: &Table, seen: &[Seen]) {
    for one in seen {
        is_so(rt, table, *one);
    }
}

/// Asserts the number of entries in an enclave's list.
pub fn lists_many(rt: &impl Abort, table: &Table, id: u64, wanted: usize) {
    assert!(rt; table.enclave_entries(id).map(|entries| entries.len()) == Some(wanted));
}

/// Returns the number of maximal runs of an enclave's view.
fn run_count(rt: &impl Abort, table: &Table, id: u64) -> Option<usize> {
    let view = table.enclave_view(id).expect(rt, "memory");
    view.map(|view| view.ranges().len())
}

/// Asserts the permission of a page in a view.
fn gives(rt: &impl Abort, view: &PermissionMap, page: u32, perm: Perm) {
    assert_eq!(rt; view.get(u64::from(page)), perm, "page {page:#x}");
}

/// Asserts the permission of a page in an enclave's view.
fn enclave_sees(rt: &impl Abort, table: &Table, id: u64, page: u32, perm: Perm) {
    let view = table.enclave_view(id).expect(rt, "memory");
    let view = view.expect(rt, "an enclave");
    gives(rt, &view, page, perm);
}

/// Asserts the permission of a page in the host's view.
fn host_sees(rt: &impl Abort, table: &Table, page: u32, perm: Perm) {
    let view = table.host_view().expect(rt, "memory");
    gives(rt, &view, page, perm);
}

#[test]
fn boot_of_the_example_platform_uses_three_entries(rt: HostRuntime) {
    let seen = [
        Seen::HostLists(&[0x0400_01FF, 0x2003_FFFF, 0x20FF_FFFF]),
        Seen::Lists(1, None),
        Seen::Owns(0x80000, Owner::Monitor),
        Seen::Owns(0x80200, Owner::Host),
    ];
    sees(&rt, rt.alloc(), None, seen.as_slice());
}

#[test]
fn seven_pages_need_two_entries(rt: HostRuntime) {
    let mut asked = page_at(0x8020_8000);
    asked.text_pages = 7;
    let seen = [
        Seen::Lists(1, Some(&[0x2008_3DFF, 0x2008_2FFF])),
        Seen::Uses(5),
    ];
    sees(&rt, rt.alloc(), Some(asked), seen.as_slice());
}

/// Returns the parts of an enclave with a page of text, one of data and a shared one.
fn three_pages() -> Create {
    let mut asked = page_at(0x8020_0000);
    asked.data_pages = 1;
    asked.shared_base = 0x8040_0000;
    asked.shared_count = 1;
    asked
}

#[test]
fn lists_and_owners_of_text_data_and_shared_pages(rt: HostRuntime) {
    let list = [0x2008_01FF, 0x2008_05FF, 0x2010_01FF];
    let seen = [
        Seen::Lists(1, Some(list.as_slice())),
        Seen::Uses(4),
        Seen::Owns(0x80201, Owner::Private(1)),
        Seen::Owns(0x80400, Owner::Shared(1)),
        Seen::EnteredAt(1, 0x8020_0000),
    ];
    sees(&rt, rt.alloc(), Some(three_pages()), seen.as_slice());
}

#[test]
fn view_of_an_enclave_with_text_data_and_shared_pages(rt: HostRuntime) {
    let seen = [
        Seen::Runs(1, Some(3)),
        Seen::Runs(2, None),
        Seen::Page(1, 0x80200, Perm::ReadExecute),
        Seen::Page(1, 0x80201, Perm::ReadWrite),
        Seen::Page(1, 0x80400, Perm::ReadWrite),
    ];
    sees(&rt, rt.alloc(), Some(three_pages()), seen.as_slice());
}

#[test]
fn view_of_the_host_beside_an_enclave(rt: HostRuntime) {
    let seen = [
        Seen::HostPage(0x801FF, Perm::NoAccess),
        Seen::HostPage(0x80200, Perm::NoAccess),
        Seen::HostPage(0x80201, Perm::NoAccess),
        Seen::HostPage(0x80202, Perm::ReadWriteExecute),
        Seen::HostPage(0x80400, Perm::ReadWriteExecute),
    ];
    sees(&rt, rt.alloc(), Some(three_pages()), seen.as_slice());
}

#[test]
fn an_enclaves_own_view_can_need_too_many(rt: HostRuntime) {
    let too_many = Create {
        base: 0x804A_B000,
        text_pages: 170,
        data_pages: 342,
        shared_base: 0x8100_0000,
        shared_count: 11,
        entry_offset: 0,
    };
    let mut asked = too_many;
    asked.shared_count = 10;
    let steps = [
        Step::WouldNeed(too_many, 13, 17),
        Step::Creates(too_many, Err(Refusal::NoEntries)),
        Step::Creates(asked, Ok(1)),
        Step::Uses(13),
        Step::ListsMany(1, 16),
    ];
    takes_on(&rt, rt.alloc(), 16, 0, 0, steps.as_slice());
}
