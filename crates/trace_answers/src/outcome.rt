//! The outcome of a call, by its reply and the table after it.

ghost use Rattle.std.specs.Prelude.{◌≡◌, IfSome};
ghost use Rattle.measurement.specs.declared.request.Create.{Create};
ghost use Rattle.trace_answers.specs.Outcomes.{below_zero, IsOutcome, OutgrownBy, OutgrownByCreate, OutgrownByDestroy, outcome_in};

use crate::asked::{Asked, Deed};
use enclave_table::Table;
use hart_sim::Reply;
use measurement::Create;
use sbi_decode::{Call, World};

/// The outcome of a call.
#[derive(Clone, Copy)]
pub enum Outcome {
    /// The call succeeded with this value.
    Done(u64),
    /// The call was refused with minus this number.
    Refused(u64),
    /// The call was refused because the resulting view of the host would need this many entries.
    HostNeeds(u32),
    /// The call was refused because the view of the new enclave would need this many entries.
    EnclaveNeeds(u32),
}

/// Returns the absolute value of a negative status.
pub(crate) fn below_zero(status: i64) -> Option<u64>
    ensures { result ≡ below_zero status }
{
    if status < 0 {
        return Some(status.unsigned_abs());
    }
    None
}

/// Returns the outcome of a call by its reply alone.
fn outcome_in(reply: &Reply) -> Outcome
    ensures { result ≡ outcome_in reply.now }
{
    let Reply::Call { status, value, .. } = reply else {
        return Outcome::Done(0);
    };
    match below_zero(*status) {
        Some(number) => Outcome::Refused(number),
        None => Outcome::Done(*value),
    }
}

/// Returns the view that would need too many entries after a creation, unless an allocation fails.
fn outgrown_by_create(table: &Table, world: World, asked: Create) -> Option<Outcome>
    ensures { IfSome result (OutgrownByCreate table.now.table asked) }
{
    let Ok(Some(needs)) = table.needed_by_create(world, asked) else {
        return None;
    };
    let limit = table.limit().number();
    if needs.host > limit {
        return Some(Outcome::HostNeeds(needs.host));
    }
    if needs.own > limit {
        return Some(Outcome::EnclaveNeeds(needs.own));
    }
    None
}

/// Returns the view that would need too many entries after a destruction, unless an allocation fails.
fn outgrown_by_destroy(table: &Table, world: World, id: u64) -> Option<Outcome>
    ensures { IfSome result (OutgrownByDestroy table.now.table id) }
{
    let Ok(Some(needed)) = table.needed_by_destroy(world, id) else {
        return None;
    };
    if needed > table.limit().number() {
        return Some(Outcome::HostNeeds(needed));
    }
    None
}

/// Returns the view for which a call is refused for lack of entries, unless an allocation fails.
fn outgrown_by(table: &Table, world: World, deed: &Deed) -> Option<Outcome>
    ensures { IfSome result (OutgrownBy table.now.table deed.now) }
{
    match deed {
        Deed::Call(
            Some(
                Call::Create {
                    base,
                    text_pages,
                    data_pages,
                    shared_base,
                    shared_count,
                    entry_offset,
                },
            ),
        ) => outgrown_by_create(
            table,
            world,
            Create {
                base: *base,
                text_pages: *text_pages,
                data_pages: *data_pages,
                shared_base: *shared_base,
                shared_count: *shared_count,
                entry_offset: *entry_offset,
            },
        ),
        Deed::Call(Some(Call::Destroy { id })) => outgrown_by_destroy(table, world, *id),
        _ => None,
    }
}

/// Returns the outcome of an event, by its request, its reply and the table after it. Allocates memory only if a call
/// is refused for lack of entries.
pub(crate) fn outcome_of(table: &Table, asked: &Asked, reply: &Reply) -> Outcome
    ensures { IsOutcome table.now.table asked.now.deed reply.now result }
{
    let told = outcome_in(reply);
    let Outcome::Refused(108) = told else {
        return told;
    };
    match outgrown_by(table, asked.world, &asked.deed) {
        Some(outcome) => outcome,
        None => told,
    }
}
