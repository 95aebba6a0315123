//! Judges accesses by registers.

ghost use Rattle.std.specs.Prelude.{◌≡◌, ◌^◌, ◌<◌, IfErr, IfOk, List};
ghost use Rattle.pmp_encoding.specs.declared.extent.Extent.{Extent};
ghost use Rattle.pmp_match.specs.RegisterMatching.{AreExtents};
ghost use Rattle.pmp_match.specs.Reserved.{IsFirstReserved};
ghost use Rattle.register_audit.specs.Deciders.{by_entry};
ghost use Rattle.register_audit.specs.Judgement.{RegistersJudge};

use crate::decision::{allow, first_met};
use pmp_encoding::SPACE_SIZE;
use pmp_match::{
    Access, Cause, Decider, Extent, Registers, ReservedAt, access_fault, extents_of, is_aligned,
    misaligned,
};
use std::marker::Model;

/// Registers without a reserved value, and the addresses that each entry matches.
#[derive(Drop)]
pub struct Rules {
    registers: Registers,
    extents: [Extent; 64],
}

impl Model for Rules {
    ghost use Rattle.pmp_match.specs.declared.registers.Registers.{Registers};
    ghost use Rattle.pmp_match.specs.RegisterMatching.{AreExtents};

    ghost Value = { Registers };

    ghost view = { λ r. r.registers };

    ghost invariant = { λ r. AreExtents r.registers r.extents };
}

impl Rules {
    /// Returns the rules of registers whose entries match these addresses.
    pub(crate) fn by(registers: &Registers, extents: [Extent; 64]) -> Rules
        requires { AreExtents registers.now extents }
        ensures { result ≡ registers.now }
    {
        Rules {
            registers: *registers,
            extents,
        }
    }

    /// Returns the rules of registers, or the first entry with a reserved value, because of which they mean nothing.
    pub fn of(registers: &Registers) -> Result<Rules, ReservedAt>
        ensures registers { IfOk result (λ rules. rules ≡ registers.now) }
        ensures extents { IfOk result (λ _.
            (extents : List Extent) × AreExtents registers.now extents) }
        ensures reserved { IfErr result (IsFirstReserved registers.now) }
    {
        match extents_of(registers) {
            Ok(extents) => Ok(Rules::by(registers, extents)),
            Err(found) => Err(found),
        }
    }

    /// Returns the outcome of the access under the registers. Depends on nothing else, and does not allocate.
    pub fn judge(&self, access: &Access) -> Result<(), Cause>
        ensures { RegistersJudge self.now access.now result }
    {
        if !is_aligned(access) {
            return Err(misaligned(access.kind));
        }
        if access.address >= SPACE_SIZE {
            return Err(access_fault(access.kind));
        }
        if !allow(&self.registers, &self.extents, access) {
            return Err(access_fault(access.kind));
        }
        Ok(())
    }

    /// Returns the entry that decides the access, if there is one.
    pub fn first_met(&self, access: &Access) -> Option<Decider>
        requires { access.now.address < 2 ^ 56 }
        ensures { by_entry self.now access.now result }
    {
        first_met(&self.registers, &self.extents, access)
    }
}
