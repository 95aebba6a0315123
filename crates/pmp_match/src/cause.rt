//! Exception codes of failed accesses.

/// The reason why an access fails: an exception code of the RISC-V Privileged Architecture.
#[derive(Clone, Copy, PartialEq, Eq, Debug)]
pub enum Cause {
    FetchMisaligned = 0,
    FetchFault = 1,
    LoadMisaligned = 4,
    LoadFault = 5,
    StoreMisaligned = 6,
    StoreFault = 7,
}

impl Cause {
    ghost use Rattle.std.specs.Prelude.{◌≡◌};
    ghost use Rattle.pmp_match.specs.Causes.{cause_number};

    /// Returns the exception code.
    pub fn number(self) -> u8
        ensures { result ≡ cause_number self }
    {
        self as u8
    }
}
