//! The host's control words in a trap, and the control words that an answer gives.

ghost use Rattle.std.specs.Prelude.{◌≡◌};
ghost use Rattle.trap_server.specs.Given.{words_given};
ghost use Rattle.trap_server.specs.Tables.{enclave_words};

use crate::words::ControlWords;
use sbi_decode::World;

/// In `mstatus`: user mode has 64-bit registers (UXL is 2), and floating point is enabled (FS is 1, Initial).
const WITH_FLOATS: u64 = 0x2_0000_2000;

/// The monitor's interrupts: machine mode's software and timer interrupts.
const MONITORS_INTERRUPTS: u64 = 0x88;

/// The host's interrupts: supervisor mode's software, timer and external interrupts.
const HOSTS_INTERRUPTS: u64 = 0x222;

/// In `scounteren`: user mode may read the time (TM).
const TIME: u64 = 2;

/// The control words of a host on which those of an enclave depend. The host's other words stay with its hart.
#[derive(Clone, Copy)]
pub struct HostWords {
    /// `mie`: the enabled interrupts.
    pub mie: u64,
    /// `scounteren`: the counters that user mode may read.
    pub scounteren: u64,
}

impl HostWords {
    /// Returns the control words of an enclave on a hart whose host has these words. They depend on the host only
    /// through the interrupts that reach machine mode, and whether user mode may read the time.
    pub fn of_enclave(&self) -> ControlWords
        ensures { result ≡ enclave_words self.now }
    {
        ControlWords {
            status: WITH_FLOATS,
            satp: 0,
            mie: MONITORS_INTERRUPTS | (self.mie & HOSTS_INTERRUPTS),
            scounteren: self.scounteren & TIME,
            senvcfg: 0,
            hstatus: 0,
            medeleg: 0,
            mideleg: 0,
            mode: 0,
        }
    }

    /// Returns the control words of the answer to a trap with these words of the host, by the worlds before and after
    /// it: the enclave's if a host enters an enclave. Any other world goes on with the words that its hart has or has
    /// kept for it.
    #[inline(always)]
    pub fn words_given(&self, before: World, after: World) -> Option<ControlWords>
        ensures { result ≡ words_given before after self.now }
    {
        match (before, after) {
            (World::Host, World::Enclave(_)) => Some(self.of_enclave()),
            (World::Host, World::Host) | (World::Enclave(_), _) => None,
        }
    }
}
