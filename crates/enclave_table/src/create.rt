//! The creation of an enclave.

ghost use Rattle.std.specs.Prelude.{◌≡◌, IfOk, IfErr, OnErr};
ghost use Rattle.enclave_table.specs.Tables.{IsCurrent};
ghost use Rattle.measurement.specs.Requests.{HasCounts, HasPlaces, parts_of};
ghost use Rattle.measurement.specs.Digests.{measured};
ghost use Rattle.enclave_table.specs.Create.{Creates, OutgrowsByCreate};
ghost use Rattle.enclave_table.specs.Refusals.{RefusesBy};
ghost use Rattle.enclave_table.specs.Checks.{create_checks};

use crate::firmware::create_by;
use crate::refusal::Refusal;
use crate::table::Table;
use measurement::{Create, Digests, MeasuresPages, Pages};
use sbi_decode::World;

impl Table {
    /// Returns the digest of an enclave with these parts.
    pub(crate) fn digest_by<D: Digests>(&mut self, digests: &D, parts: &Create) -> [u8; 32]
        requires counts { HasCounts parts.now }
        requires places { HasPlaces parts.now }
        ensures value { result ≡ D.digest_of digests.now parts.now }
        ensures kept { self.new ≡ self.old }
    {
        digests.digest(&mut self.blank, parts)
    }

    /// Creates an enclave, and measures the current contents of its private pages. Everything that can fail precedes
    /// the first change.
    pub fn create<P: Pages>(
        &mut self,
        world: World,
        pages: &P,
        asked: Create,
    ) -> Result<u64, Refusal>
        requires { IsCurrent self.old.table world }
        ensures done { IfOk result (λ id.
            Creates (measured (P.bytes_of pages.now)) self.old.table world asked id
            self.new.table) }
        ensures refused { IfErr result (λ refusal.
            RefusesBy (create_checks self.old.table world (parts_of asked))
            (OutgrowsByCreate (measured (P.bytes_of pages.now)) self.old.table asked) refusal) }
        ensures kept { OnErr result (self.new ≡ self.old) }
    {
        create_by(self, world, &MeasuresPages { pages }, asked)
    }
}
