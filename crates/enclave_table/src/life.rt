//! Entering and leaving an enclave.

ghost use Rattle.std.specs.Prelude.{◌≡◌, IfOk, OnOk, IfErr, OnErr, Some};
ghost use Rattle.enclave_table.specs.Tables.{IsCurrent};
ghost use Rattle.enclave_table.specs.Checks.{host_checks, leave_checks, state_before};
ghost use Rattle.platforms.specs.CheckLists.{FailsFirst};
ghost use Rattle.enclave_table.specs.Lives.{state_after, Enters, Leaves};

use crate::enclave::Stage;
use crate::refusal::Refusal;
use crate::table::Table;
use sbi_decode::World;

/// The two ways of entering an enclave.
#[derive(Clone, Copy)]
pub enum Entering {
    /// Enters it for the first time.
    Run,
    /// Enters it after a stop.
    Resume,
}

/// The two ways of leaving an enclave.
#[derive(Clone, Copy)]
pub enum Leaving {
    /// Leaves it stopped, so that it may be resumed.
    Stop,
    /// Leaves it for good.
    Exit,
}

impl Entering {
    /// Returns the stage that is required before.
    fn before(self) -> Stage
        ensures { result ≡ state_before self }
    {
        match self {
            Entering::Run => Stage::Fresh,
            Entering::Resume => Stage::Stopped,
        }
    }
}

impl Leaving {
    /// Returns the stage of the enclave after it is left.
    fn after(self) -> Stage
        ensures { result ≡ state_after self }
    {
        match self {
            Leaving::Stop => Stage::Stopped,
            Leaving::Exit => Stage::Exited,
        }
    }
}

impl Table {
    /// Records that the host enters an enclave, for the first time or after a stop.
    pub fn enter(&mut self, world: World, id: u64, entering: Entering) -> Result<(), Refusal>
        requires { IsCurrent self.old.table world }
        ensures done { OnOk result
            (Enters self.old.table world id (state_before entering) self.new.table) }
        ensures lists { OnOk result (self.new ≡ record self.old { table = self.new.table }) }
        ensures refused { IfErr result (λ refusal.
            FailsFirst (host_checks (λ state. state ≡ state_before entering) self.old.table world
            id)
            refusal) }
        ensures kept { OnErr result (self.new ≡ self.old) }
    {
        if world != World::Host {
            return Err(Refusal::NotHost);
        }
        let Some(enclave) = self.find(id) else {
            return Err(Refusal::BadId);
        };
        if enclave.state != entering.before() {
            return Err(Refusal::BadState);
        }
        self.turn(id, Stage::Running);
        Ok(())
    }

    /// Records that the running enclave is left: stopped, by its own call or by an interrupt, or exited. Returns its
    /// id.
    pub fn leave(&mut self, world: World, leaving: Leaving) -> Result<u64, Refusal>
        requires { IsCurrent self.old.table world }
        ensures done { IfOk result (λ id. Leaves self.old.table world (state_after leaving) id
            self.new.table) }
        ensures lists { OnOk result (self.new ≡ record self.old { table = self.new.table }) }
        ensures refused { IfErr result (λ refusal. FailsFirst (leave_checks world) refusal) }
        ensures kept { OnErr result (self.new ≡ self.old) }
    {
        let World::Enclave(id) = world else {
            return Err(Refusal::NotEnclave);
        };
        let Some(_enclave) = self.find(id) else {
            unreachable!();
        };
        self.turn(id, leaving.after());
        Ok(id)
    }
}
