//! Reasons why no more lines can be read, and why a run over lines ended early.

ghost use Rattle.text_lines.specs.Faults.{run_fault, run_fault_number};

use thiserror::Error;

/// The reason why a reader returns no line.
#[derive(Clone, Copy, Debug, PartialEq, Eq, Error)]
pub enum ReadFault {
    /// The line of this number, from 1, has more than 1023 bytes before its LF.
    #[error("line {0} is too long")]
    LongLine(u64),
    /// The source has more bytes than the reader's limit.
    #[error("too many bytes")]
    TooManyBytes,
    /// The source failed.
    #[error("cannot read")]
    Device,
}

/// The reason why a run over the lines of an input ended early.
#[derive(Clone, Copy, Debug, PartialEq, Eq, Error)]
pub enum RunFault {
    /// The line of this number, from 1, is not understood.
    #[error("line {0} is not understood")]
    Line(u64),
    /// The source has more than 2^40 bytes.
    #[error("too large")]
    TooLong,
    /// The source failed.
    #[error("cannot read")]
    Read,
    /// The sink failed, or accepted none of the bytes of a write.
    #[error("cannot write")]
    Write,
    /// An allocation failed.
    #[error("out of memory")]
    Memory,
}

impl RunFault {
    ghost use Rattle.std.specs.Prelude.{◌≡◌};

    /// Returns the number of the fault, from 1 to 5.
    pub fn number(self) -> u8
        ensures { result ≡ run_fault_number self }
    {
        match self {
            RunFault::Line(_) => 1,
            RunFault::TooLong => 2,
            RunFault::Read => 3,
            RunFault::Write => 4,
            RunFault::Memory => 5,
        }
    }
}

impl From<ReadFault> for RunFault {
    ghost use Rattle.std.specs.Prelude.{◌≡◌};

    ghost from_gives = { λ fault e. e ≡ run_fault fault };

    fn from(fault: ReadFault) -> RunFault {
        match fault {
            ReadFault::LongLine(number) => RunFault::Line(number),
            ReadFault::TooManyBytes => RunFault::TooLong,
            ReadFault::Device => RunFault::Read,
        }
    }
}
