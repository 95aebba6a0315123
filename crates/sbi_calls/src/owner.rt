//! Attributes traps to the monitor, the host or an enclave.

ghost use Rattle.std.specs.Prelude.{◌≡◌};
ghost use Rattle.sbi_calls.specs.Owners.{owner_of, world_of};

use sbi_decode::World;

/// The cause of machine mode's software interrupt.
const SOFTWARE: u64 = 0x8000_0000_0000_0003;

/// The cause of machine mode's timer interrupt.
const TIMER: u64 = 0x8000_0000_0000_0007;

/// The cause of an environment call from user mode.
const CALL_OF_USER: u64 = 8;

/// The cause of an environment call from supervisor mode.
const CALL_OF_SUPERVISOR: u64 = 9;

/// The source of a trap.
#[derive(Clone, Copy)]
pub enum TrapOwner {
    /// Another hart, which interrupted this one; the world goes on.
    OtherHart,
    /// The host's timer while the host runs.
    HostTimer,
    /// A call from the host's supervisor mode.
    HostCall,
    /// The host, by any other trap: its own handler takes it.
    HostHandler,
    /// A call of an enclave.
    EnclaveCall,
    /// The host's timer while an enclave runs: the enclave stops.
    EnclaveTimer,
    /// An enclave, by any other trap: the enclave stops.
    EnclaveStop,
}

/// Converts a number to a world: 0 is the host, and any other is the id of an enclave.
pub fn world_of(number: u64) -> World
    ensures { result ≡ world_of number }
{
    match number {
        0 => World::Host,
        _ => World::Enclave(number),
    }
}

/// Returns the source of a trap of this cause in the host's world.
fn owner_in_host(cause: u64) -> TrapOwner
    ensures { result ≡ owner_of World.Host cause }
{
    match cause {
        SOFTWARE => TrapOwner::OtherHart,
        TIMER => TrapOwner::HostTimer,
        CALL_OF_SUPERVISOR => TrapOwner::HostCall,
        _ => TrapOwner::HostHandler,
    }
}

/// Returns the source of a trap of this cause in an enclave.
fn owner_in_enclave(cause: u64, id: u64) -> TrapOwner
    ensures { result ≡ owner_of (World.Enclave id) cause }
{
    match cause {
        SOFTWARE => TrapOwner::OtherHart,
        TIMER => TrapOwner::EnclaveTimer,
        CALL_OF_USER => TrapOwner::EnclaveCall,
        _ => TrapOwner::EnclaveStop,
    }
}

/// Returns the source of a trap, by its cause (Privileged Architecture, `mcause`) and the world that trapped. A call
/// from the host's user mode, or from a guest, goes to the host's own handler.
pub fn owner_of(world: World, cause: u64) -> TrapOwner
    ensures { result ≡ owner_of world cause }
{
    match world {
        World::Host => owner_in_host(cause),
        World::Enclave(id) => owner_in_enclave(cause, id),
    }
}

ghost use Rattle.sbi_decode.specs.declared.world.World.{World};
