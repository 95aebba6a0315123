//! The saved registers of the hosts and the enclaves.

use sbi_decode::{Registers, World};

/// The saved registers of each world: one set for the host of each of four harts, and one for each enclave, by its id
/// from 1 to 64. An enclave's set is the same for every hart.
#[derive(Clone, Drop)]
pub struct Contexts {
    hosts: [Registers; 4],
    enclaves: [Registers; 64],
}

impl Contexts {
    ghost use Rattle.std.specs.Prelude.{◌≡◌, ◌≢◌, ◌≤◌, ℕ, Some};
    ghost use Rattle.sbi_decode.specs.declared.world.World.{World};
    ghost use Rattle.sbi_decode.specs.Registers.{RegisterFile, zeros};
    ghost use Rattle.sbi_decode.specs.Runners.{Runner, runner_of, IsWorld};
    ghost use Rattle.context_switch.specs.Contexts.{saved_of};

    /// Returns sets that are all zero.
    pub fn new() -> Contexts
        ensures saved { (hart : ℕ) (world : World) → hart ≤ 3 → IsWorld world
            → saved_of result (runner_of hart world) ≡ Some zeros }
        ensures zero { (who : Runner) (file : RegisterFile) → saved_of result who ≡ Some file
            → file ≡ zeros }
    {
        let zeros = Registers::new();
        Contexts {
            hosts: [zeros; 4],
            enclaves: [zeros; 64],
        }
    }

    /// Borrows the registers of the host on this hart, numbered at most 3, or of the enclave with an id from 1 to 64.
    #[inline(always)]
    pub fn saved(&self, hart: u8, world: World) -> &Registers
        requires hart { hart ≤ 3 }
        requires world { IsWorld world }
        ensures { saved_of self.now (runner_of hart world) ≡ Some result.now }
    {
        match world {
            World::Host => &self.hosts[hart as usize],
            World::Enclave(id) => &self.enclaves[id as usize - 1],
        }
    }

    /// Copies the registers of the host on this hart, numbered at most 3, or of the enclave with an id from 1 to 64.
    #[inline(always)]
    pub fn get(&self, hart: u8, world: World) -> Registers
        requires hart { hart ≤ 3 }
        requires world { IsWorld world }
        ensures { saved_of self.now (runner_of hart world) ≡ Some result }
    {
        *self.saved(hart, world)
    }

    /// Sets the registers of the host on this hart, numbered at most 3, or of the enclave with an id from 1 to 64.
    #[inline(always)]
    pub fn set(&mut self, hart: u8, world: World, registers: Registers)
        requires hart { hart ≤ 3 }
        requires world { IsWorld world }
        ensures value { saved_of self.new (runner_of hart world) ≡ Some registers }
        ensures others { (other : Runner) → other ≢ runner_of hart world
            → saved_of self.new other ≡ saved_of self.old other }
    {
        match world {
            World::Host => self.hosts[hart as usize] = registers,
            World::Enclave(id) => self.enclaves[id as usize - 1] = registers,
        }
    }
}
