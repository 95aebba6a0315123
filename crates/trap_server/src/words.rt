//! The control words of a world.

/// The contents of a hart's control registers while a world runs there (Privileged Architecture, *Machine-Level ISA*
/// and *Supervisor-Level ISA*). A register that the hart lacks is zero.
#[derive(Clone, Copy)]
pub struct ControlWords {
    /// The fields of `mstatus` that supervisor mode sees as `sstatus`.
    pub status: u64,
    /// `satp`: the page table.
    pub satp: u64,
    /// `mie`: the enabled interrupts.
    pub mie: u64,
    /// `scounteren`: the counters that user mode may read.
    pub scounteren: u64,
    /// `senvcfg`: the cache instructions that user mode may execute.
    pub senvcfg: u64,
    /// `hstatus`: user mode's access to a guest.
    pub hstatus: u64,
    /// `medeleg`: the exceptions delegated to supervisor mode.
    pub medeleg: u64,
    /// `mideleg`: the interrupts delegated to supervisor mode.
    pub mideleg: u64,
    /// The fields MPP and MPV of `mstatus`: the mode to which machine mode returns.
    pub mode: u64,
}
