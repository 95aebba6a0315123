//! Failures of a task: the text for standard error, and the program's exit status.

ghost use Rattle.std.specs.Prelude.{◌≡◌};
ghost use Rattle.program_files.specs.Troubles.{map_trouble, run_trouble, trouble_status, source_trouble};

use crate::names::write_named;
use itoa::Buffer;
use map_text::MapFileFault;
use std::alloc::AllocError;
use text_lines::{DeviceFault, Line, RunFault, Sink, SourceFault, write_whole};

/// The failure of a task. Files have the names that the user gave; they are printed without control characters.
#[derive(Drop)]
pub enum Trouble<'a> {
    /// A line of the file, counted from 1, is invalid.
    NotUnderstood {
        /// The map or the trace.
        file: &'a str,
        /// The number of the line.
        line: u64,
    },
    /// The map has more than 4096 ranges after some line.
    TooManyRanges {
        /// The map.
        file: &'a str,
    },
    /// The file is larger than allowed.
    TooLarge {
        /// The platform, the map, the trace or the certificate.
        file: &'a str,
    },
    /// The file is not a platform.
    NotAPlatform {
        /// The platform file.
        file: &'a str,
    },
    /// The file gives no map or platform of a board.
    NoBoardText {
        /// The device tree.
        file: &'a str,
        /// The reason.
        said: Line,
    },
    /// The file is a device tree, but the task needs the permissions of machine mode.
    NoRegisters {
        /// The device tree.
        file: &'a str,
    },
    /// The map has a byte beyond the reach of a hart's address registers.
    TooFar {
        /// The map.
        file: &'a str,
    },
    /// The map, or the host's view of a platform, needs more entries than a hart has.
    NeedsEntries {
        /// The number of entries that it needs.
        needed: u64,
    },
    /// The file could not be opened or read.
    CannotRead {
        /// The platform, the map, the trace or the certificate.
        file: &'a str,
    },
    /// The file could not be created or written.
    CannotWrite {
        /// The certificate.
        file: &'a str,
    },
    /// Standard output could not be written.
    Output,
    /// An allocation failed.
    Memory,
}

impl From<AllocError> for Trouble<'_> {
    ghost use Rattle.std.specs.Prelude.{◌≡◌};
    ghost use Rattle.program_files.specs.declared.trouble.Trouble.TheVariants.{Memory};

    ghost from_gives = { λ error trouble. trouble ≡ Memory };

    fn from(_error: AllocError) -> Self {
        Trouble::Memory
    }
}

/// A device fault without a file comes from standard output: functions that read and write files report their own
/// failures, with the name.
impl From<DeviceFault> for Trouble<'_> {
    ghost use Rattle.std.specs.Prelude.{◌≡◌};
    ghost use Rattle.program_files.specs.declared.trouble.Trouble.TheVariants.{Output};

    ghost from_gives = { λ error trouble. trouble ≡ Output };

    fn from(_error: DeviceFault) -> Self {
        Trouble::Output
    }
}

impl<'a> Trouble<'a> {
    /// Converts a fault of reading a file to its end.
    pub fn of_source(file: &'a str, fault: SourceFault) -> Trouble<'a>
        ensures { result ≡ source_trouble file.entry fault }
    {
        match fault {
            SourceFault::TooLarge => Trouble::TooLarge { file },
            SourceFault::Read => Trouble::CannotRead { file },
            SourceFault::Memory => Trouble::Memory,
        }
    }

    /// Converts a fault of a map file.
    pub fn of_map(file: &'a str, fault: MapFileFault) -> Trouble<'a>
        ensures { result ≡ map_trouble file.entry fault }
    {
        match fault {
            MapFileFault::Line(line) => Trouble::NotUnderstood { file, line },
            MapFileFault::TooManyRanges => Trouble::TooManyRanges { file },
            MapFileFault::Memory => Trouble::Memory,
        }
    }

    /// Converts a fault of running a trace.
    pub fn of_run(file: &'a str, fault: RunFault) -> Trouble<'a>
        ensures { result ≡ run_trouble file.entry fault }
    {
        match fault {
            RunFault::Line(line) => Trouble::NotUnderstood { file, line },
            RunFault::TooLong => Trouble::TooLarge { file },
            RunFault::Read => Trouble::CannotRead { file },
            RunFault::Write => Trouble::Output,
            RunFault::Memory => Trouble::Memory,
        }
    }

    /// Returns the program's exit status: 2 for bad input, 3 for a device, 4 for memory.
    pub fn status(&self) -> u8
        ensures { result ≡ trouble_status self.now }
    {
        match self {
            Trouble::NotUnderstood { .. }
            | Trouble::TooManyRanges { .. }
            | Trouble::TooLarge { .. }
            | Trouble::NotAPlatform { .. }
            | Trouble::NoBoardText { .. }
            | Trouble::NoRegisters { .. }
            | Trouble::TooFar { .. }
            | Trouble::NeedsEntries { .. } => 2,
            Trouble::CannotRead { .. } | Trouble::CannotWrite { .. } | Trouble::Output => 3,
            Trouble::Memory => 4,
        }
    }

    /// Writes the one line of text. Does not allocate.
    pub fn print<E: Sink>(&self, err: &mut E) -> Result<(), DeviceFault> {
        let mut buffer = Buffer::new();
        match self {
            Trouble::NotUnderstood { file, line } => {
                let parts = [": line ", buffer.format(*line), " is not understood\n"];
                write_named(err, "pmpmon: ", *file, &parts)
            }
            Trouble::TooManyRanges { file } => about(*file, ": too many ranges\n", err),
            Trouble::TooLarge { file } => about(*file, ": too large\n", err),
            Trouble::NotAPlatform { file } => about(*file, ": not a platform\n", err),
            Trouble::NoBoardText { file, said } => {
                about(*file, ": ", err)?;
                write_whole(err, said.as_slice())?;
                write_whole(err, b"\n")
            }
            Trouble::NoRegisters { file } => {
                let said = ": a device tree, and '--mode m' is for registers\n";
                about(*file, said, err)
            }
            Trouble::TooFar { file } => about(*file, ": too far: 34 bits\n", err),
            Trouble::NeedsEntries { needed } => {
                write_whole(err, b"pmpmon: needs ")?;
                write_whole(err, buffer.format(*needed).as_bytes())?;
                write_whole(err, b" entries\n")
            }
            Trouble::CannotRead { file } => about(*file, ": cannot read\n", err),
            Trouble::CannotWrite { file } => about(*file, ": cannot write\n", err),
            Trouble::Output => write_whole(err, b"pmpmon: standard output: cannot write\n"),
            Trouble::Memory => write_whole(err, b"pmpmon: out of memory\n"),
        }
    }
}

/// Writes a message about a file.
fn about<E: Sink>(file: &str, said: &str, err: &mut E) -> Result<(), DeviceFault> {
    write_named(err, "pmpmon: ", file, &[said])
}
