//! An enclave from its creation to its end, and the callers and states in which it may be entered, left and destroyed.

use super::*;
use enclave_table::{Entering, Leaving};

/// Returns the table of the example platform with one enclave of one page.
fn with_one_page(rt: &impl Abort, alloc: Global) -> Table {
    let mut table = example_table(rt, alloc, 16);
    creates(rt, &mut table, page_at(0x8020_0000), Ok(1));
    table
}

/// Asserts that the host's entry into an enclave is refused.
fn refuses_entry(rt: &impl Abort, table: &mut Table, id: u64, entering: Entering, wanted: Refusal) {
    assert!(rt; table.enter(World::Host, id, entering) == Err(wanted));
}

/// Asserts that reading a word of the digest is refused.
fn refuses_word(rt: &impl Abort, table: &Table, id: u64, k: u64, wanted: Refusal) {
    assert!(rt; table.word(id, k) == Err(wanted));
}

/// Returns whether the host enters an enclave, which is not destroyed while it runs and is then left.
#[tactic(auto, using(crate::proofs::Entered::entered))]
fn runs(table: &mut Table, id: u64, entering: Entering, leaving: Leaving) -> bool {
    let Ok(()) = table.enter(World::Host, id, entering) else {
        return false;
    };
    let Err(Refusal::BadState) = table.destroy(World::Host, id) else {
        return false;
    };
    table.leave(World::Enclave(id), leaving) == Ok(id)
}

/// The calls that only the host may make.
#[derive(Clone, Copy)]
enum HostCall {
    Create,
    Destroy,
    Enter,
}

/// Returns the refusal of such a call from inside an enclave.
fn refused_inside(table: &mut Table, id: u64, call: HostCall) -> Option<Refusal> {
    let Ok(()) = table.enter(World::Host, id, Entering::Run) else {
        return None;
    };
    let world = World::Enclave(id);
    match call {
        HostCall::Create => table.create(world, &Zeros {}, page_at(0x8020_0000)).err(),
        HostCall::Destroy => table.destroy(world, id).err(),
        HostCall::Enter => table.enter(world, id, Entering::Run).err(),
    }
}

/// Enters and stops the first enclave, resumes it and leaves it for good, and destroys it; each call before its time is
/// refused.
fn lives(rt: &impl Abort, table: &mut Table) {
    refuses_entry(rt, table, 1, Entering::Resume, Refusal::BadState);
    refuses_entry(rt, table, 2, Entering::Run, Refusal::BadId);
    assert!(rt; runs(table, 1, Entering::Run, Leaving::Stop));
    assert!(rt; runs(table, 1, Entering::Resume, Leaving::Exit));
    refuses_entry(rt, table, 1, Entering::Resume, Refusal::BadState);
    refuses_word(rt, table, 1, 4, Refusal::BadWord);
    destroys(rt, table, 1, Ok(0x80200));
    refuses_word(rt, table, 1, 0, Refusal::BadId);
}

#[test]
fn an_enclave_is_entered_stopped_resumed_and_exits(rt: HostRuntime) {
    let mut table = with_one_page(&rt, rt.alloc());
    lives(&rt, &mut table);
}

/// Returns the result when the host leaves an enclave that it is not in.
fn left_by_the_host(rt: &impl Abort, alloc: Global) -> Result<u64, Refusal> {
    let mut table = with_one_page(rt, alloc);
    table.leave(World::Host, Leaving::Stop)
}

/// Returns the refusal of such a call from the enclave of a new table.
fn refused_to_one(rt: &impl Abort, alloc: Global, call: HostCall) -> Option<Refusal> {
    let mut table = with_one_page(rt, alloc);
    refused_inside(&mut table, 1, call)
}

#[test]
fn calls_are_for_the_host_or_for_an_enclave(rt: HostRuntime) {
    let left = left_by_the_host(&rt, rt.alloc());
    assert!(rt; left == Err(Refusal::NotEnclave));
    for call in [HostCall::Create, HostCall::Destroy, HostCall::Enter] {
        let refused = refused_to_one(&rt, rt.alloc(), call);
        assert!(rt; refused == Some(Refusal::NotHost));
    }
}
