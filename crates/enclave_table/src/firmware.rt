//! The interface for the monitor's core, which measures pages itself or gets their digest after the creation. Nothing
//! here ties a digest to the bytes of pages: a caller that has the pages creates an enclave by [`Table::create`].

ghost use Rattle.std.specs.Prelude.{◌≡◌, ◌-◌, IfOk, IfErr, OnErr, Some};
ghost use Rattle.enclave_table.specs.Checks.{create_checks};
ghost use Rattle.enclave_table.specs.Create.{Creates, OutgrowsByCreate};
ghost use Rattle.enclave_table.specs.Digests.{with_digest};
ghost use Rattle.enclave_table.specs.Enclaves.{Live};
ghost use Rattle.enclave_table.specs.Refusals.{RefusesBy};
ghost use Rattle.enclave_table.specs.Tables.{IsCurrent};
ghost use Rattle.enclave_table.specs.declared.enclave.Enclave.{Enclave};
ghost use Rattle.measurement.specs.Requests.{parts_of};

use crate::enclave::{Enclave, Stage};
use crate::fewest::enclave_list;
use crate::refusal::Refusal;
use crate::table::Table;
use measurement::{Create, Digests};
use pmp_encoding::Perm;
use sbi_decode::World;

/// Creates an enclave as [`Table::create`] does, with the digest that `digests` supplies for its parts. The digest is
/// requested last, after everything that can fail.
pub fn create_by<D: Digests>(
    table: &mut Table,
    world: World,
    digests: &D,
    asked: Create,
) -> Result<u64, Refusal>
    requires { IsCurrent table.old.table world }
    ensures done { IfOk result (λ id.
        Creates (D.digest_of digests.now) table.old.table world asked id table.new.table) }
    ensures refused { IfErr result (λ refusal.
        RefusesBy (create_checks table.old.table world (parts_of asked))
        (OutgrowsByCreate (D.digest_of digests.now) table.old.table asked) refusal) }
    ensures kept { OnErr result (table.new ≡ table.old) }
{
    table.cite_invariant();
    let parts = asked.normalized();
    let id = table.checked_create(world, &parts)?;
    let host = table.host_with(parts.private_pages(), Perm::NoAccess)?;
    let list = enclave_list(table.alloc(), table.limit(), &parts)?;
    let digest = table.digest_by(digests, &parts);
    let enclave = Enclave {
        parts,
        state: Stage::Fresh,
        digest,
    };
    table.place(id, Some(enclave), host, list);
    Ok(id)
}

/// Sets the digest of the enclave at a place, if there is one.
#[inline(always)]
fn put_digest(place: &mut Option<Enclave>, digest: &[u8; 32])
    ensures { (e : Enclave) → place.old ≡ Some e
        → place.new ≡ Some (record e { digest = digest.now }) }
{
    if let Some(enclave) = place {
        enclave.digest = *digest;
    }
}

/// Sets the digest of a live enclave whose pages are measured after its creation. Nothing else changes.
pub fn give_digest(table: &mut Table, id: u64, digest: &[u8; 32])
    requires { (e : Enclave) × Live table.old.table id e }
    ensures { (e : Enclave) → Live table.old.table id e → table.new ≡ record table.old {
      table = with_digest table.old.table id e digest.now;
    } }
{
    let Some(_enclave) = table.find(id) else {
        unreachable!();
    };
    put_digest(&mut table.enclaves[(id - 1) as usize], digest);
}
