//! The commands that read a trace, and the reasons why they reject a line.

ghost use Rattle.std.specs.Prelude.{◌≡◌, IfSome, None, Some, false, true};
ghost use Rattle.hart_trace.specs.Faults.{told};
ghost use Rattle.input_files.specs.Traces.{fault_of, is_taken};

use hart_trace::{LineFault, Reason, read_access, read_line};
use text_lines::{LONGEST, without_return};

/// A command that reads the lines of a trace.
#[derive(Clone, Copy)]
pub enum Taker {
    /// `run`, on this many harts.
    Run {
        /// The number of harts.
        harts: u8,
    },
    /// `judge`, which has no harts and accepts only accesses.
    Judge,
}

/// Maximum number of harts.
const MOST_HARTS: u8 = 4;

impl Taker {
    /// Returns the number of harts that a line may name.
    pub(crate) fn harts(self) -> u8 {
        match self {
            Taker::Run { harts } => harts,
            Taker::Judge => MOST_HARTS,
        }
    }
}

/// Returns the fault of a line without its LF, or `None` if it is accepted.
pub(crate) fn fault_of<'a>(taker: Taker, raw: &'a [u8]) -> Option<LineFault<'a>>
    ensures fault { IfSome result (λ fault. fault_of taker raw.now ≡ Some (told fault)) }
    ensures untaken { IfSome result (λ _. is_taken taker raw.now ≡ false) }
    ensures taken { result ≡ None → is_taken taker raw.now ≡ true }
{
    if raw.len() > LONGEST {
        return Some(LineFault {
            before: LONGEST,
            word: &[],
            reason: Reason::LongLine,
        });
    }
    let line = without_return(raw);
    match taker {
        Taker::Run { harts } => match read_line(line, harts) {
            Ok(_) => None,
            Err(fault) => Some(fault),
        },
        Taker::Judge => match read_access(line) {
            Ok(_) => None,
            Err(fault) => Some(fault),
        },
    }
}
