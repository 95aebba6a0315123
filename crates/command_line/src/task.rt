//! The program's tasks, and the one table of their subcommands and files. A new task is added here first.

ghost use Rattle.std.specs.Prelude.{◌≡◌, ◌≢◌, ◌↔◌, true, IfSome, None};
ghost use Rattle.command_line.specs.declared.task.Subcommand.{Subcommand};
ghost use Rattle.command_line.specs.Outlines.{outline_of, name_or_none};
ghost use Rattle.command_line.specs.Subcommands.{subcommand_word, usage_words};

use measurement::Layout;
use pmp_encoding::Limit;

/// One command of the program. File names are the words of the command line.
#[derive(Clone, Copy, PartialEq, Eq)]
pub enum Task<'a> {
    /// Boots a platform, runs a trace on it, and reports every answer.
    Run {
        /// The platform file.
        platform: &'a str,
        /// The trace.
        trace: &'a str,
        /// True if the measurement of each live enclave is printed after the report.
        measure: bool,
    },
    /// Plans a map, and writes the certificate if a file for it is named.
    Plan {
        /// The map file.
        map: &'a str,
        /// The file that the certificate is written to.
        cert: Option<&'a str>,
        /// The number of the hart's entries.
        limit: Limit,
    },
    /// Judges the accesses of a trace by a map's entries, or by given registers.
    Judge {
        /// The map file, or the listing of the registers.
        map: &'a str,
        /// The trace.
        trace: &'a str,
        /// The number of the hart's entries.
        limit: Limit,
    },
    /// Checks a certificate against a map.
    Check {
        /// The map file.
        map: &'a str,
        /// The certificate.
        cert: &'a str,
    },
    /// Reports whether registers mean a map.
    Audit {
        /// The map file.
        map: &'a str,
        /// The listing of the registers.
        registers: &'a str,
    },
    /// Prints the map that registers mean, or that of a board's device tree.
    Map {
        /// The listing of the registers, or the device tree.
        file: &'a str,
    },
    /// Reports the faults of a file, line by line.
    Lint {
        /// The file.
        file: &'a str,
        /// The platform file with the number of harts for a trace.
        platform: Option<&'a str>,
    },
    /// Prints a map, or the meaning of registers, as a table of stretches, each with the entry that decides it.
    Show {
        /// The map file, or the listing of the registers.
        map: &'a str,
        /// The number of the hart's entries.
        limit: Limit,
    },
    /// Prints the digest that the monitor measures for an enclave with a file's bytes.
    Measure {
        /// The file of its text and data.
        file: &'a str,
        /// The numbers that are measured besides its pages.
        layout: Layout,
    },
    /// Prints the platform of a board's device tree.
    Platform {
        /// The device tree.
        board: &'a str,
        /// The base and the size of the monitor in bytes, if they are given.
        monitor: Option<(u64, u64)>,
    },
}

/// An outline of a task for all code that does not perform it: its subcommand and the names of its files.
#[derive(Clone, Copy)]
pub struct TaskOutline<'a> {
    /// The subcommand.
    pub subcommand: Subcommand,
    /// The first input.
    pub first: &'a str,
    /// The second input, if there is one.
    pub second: Option<&'a str>,
    /// The certificate file, if the task writes one.
    pub cert: Option<&'a str>,
}

impl<'a> TaskOutline<'a> {
    /// Returns the outline of a task with one or two inputs and no certificate.
    fn reads(subcommand: Subcommand, first: &'a str, second: Option<&'a str>) -> TaskOutline<'a>
        ensures { result ≡ record {
          subcommand = subcommand;
          first = first.entry;
          second = second.entry;
          cert = None;
        } }
    {
        TaskOutline {
            subcommand,
            first,
            second,
            cert: None,
        }
    }
}

/// Returns the outline of a task, from the one table of all tasks.
pub fn outline_of<'a>(task: &Task<'a>) -> TaskOutline<'a>
    ensures { result ≡ outline_of task.now }
{
    match *task {
        Task::Run {
            platform,
            trace,
            ..
        } => TaskOutline::reads(Subcommand::Run, platform, Some(trace)),
        Task::Plan { map, cert, .. } => TaskOutline {
            subcommand: Subcommand::Plan,
            first: map,
            second: None,
            cert,
        },
        Task::Judge { map, trace, .. } => {
            TaskOutline::reads(Subcommand::Judge, map, Some(trace))
        }
        Task::Check { map, cert } => TaskOutline::reads(Subcommand::Check, map, Some(cert)),
        Task::Audit { map, registers } => {
            TaskOutline::reads(Subcommand::Audit, map, Some(registers))
        }
        Task::Map { file } => TaskOutline::reads(Subcommand::Map, file, None),
        Task::Lint { file, platform } => TaskOutline::reads(Subcommand::Lint, file, platform),
        Task::Show { map, .. } => TaskOutline::reads(Subcommand::Show, map, None),
        Task::Measure { file, .. } => TaskOutline::reads(Subcommand::Measure, file, None),
        Task::Platform { board, .. } => TaskOutline::reads(Subcommand::Platform, board, None),
    }
}

/// The name of a file that is not read or written.
pub const NO_FILE: &str = "";

/// Returns the name of a file, or `NO_FILE` if there is no file.
pub fn name_or_none(name: Option<&str>) -> &str
    ensures { result.now ≡ name_or_none name.entry }
{
    name.unwrap_or(NO_FILE)
}

/// A subcommand of the program.
#[derive(Clone, Copy)]
pub enum Subcommand {
    /// `run`.
    Run,
    /// `plan`.
    Plan,
    /// `judge`.
    Judge,
    /// `check`.
    Check,
    /// `show`.
    Show,
    /// `audit`.
    Audit,
    /// `map`.
    Map,
    /// `lint`.
    Lint,
    /// `measure`.
    Measure,
    /// `platform`.
    Platform,
}

/// All subcommands, in the order of the program's help.
pub const SUBCOMMANDS: [Subcommand; 10] = [
    Subcommand::Run,
    Subcommand::Plan,
    Subcommand::Judge,
    Subcommand::Check,
    Subcommand::Show,
    Subcommand::Audit,
    Subcommand::Map,
    Subcommand::Lint,
    Subcommand::Measure,
    Subcommand::Platform,
];

impl Subcommand {
    /// Returns the word that names it.
    pub fn name(self) -> &'static str
        ensures { result.now ≡ subcommand_word self }
    {
        match self {
            Subcommand::Run => "run",
            Subcommand::Plan => "plan",
            Subcommand::Judge => "judge",
            Subcommand::Check => "check",
            Subcommand::Show => "show",
            Subcommand::Audit => "audit",
            Subcommand::Map => "map",
            Subcommand::Lint => "lint",
            Subcommand::Measure => "measure",
            Subcommand::Platform => "platform",
        }
    }

    /// Returns the words with which a user enters it, for its usage.
    pub fn usage_name(self) -> &'static str
        ensures { result.now ≡ usage_words self }
    {
        match self {
            Subcommand::Run => "pmpmon run",
            Subcommand::Plan => "pmpmon plan",
            Subcommand::Judge => "pmpmon judge",
            Subcommand::Check => "pmpmon check",
            Subcommand::Show => "pmpmon show",
            Subcommand::Audit => "pmpmon audit",
            Subcommand::Map => "pmpmon map",
            Subcommand::Lint => "pmpmon lint",
            Subcommand::Measure => "pmpmon measure",
            Subcommand::Platform => "pmpmon platform",
        }
    }

    /// Returns whether a word names it.
    fn is_named(self, word: &str) -> bool
        ensures { (result ≡ true) ↔ (word.now ≡ subcommand_word self) }
    {
        word == self.name()
    }

    /// Returns the subcommand that a word names.
    pub fn of(word: &str) -> Option<Subcommand>
        ensures some { IfSome result (λ subcommand. word.now ≡ subcommand_word subcommand) }
        ensures none { result ≡ None → (subcommand : Subcommand)
            → word.now ≢ subcommand_word subcommand }
    {
        for subcommand in &SUBCOMMANDS {
            if subcommand.is_named(word) {
                return Some(*subcommand);
            }
        }
        None
    }
}
