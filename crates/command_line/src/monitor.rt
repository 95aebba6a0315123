//! The range of a platform's monitor, from the command line.

ghost use Rattle.std.specs.Prelude.{◌≡◌, ◌↔◌, true, IfErr, IfOk};
ghost use Rattle.command_line.specs.Faults.{of_monitor, IsFirst};
ghost use Rattle.command_line.specs.Monitors.{AreWholePages, IsMonitor, IsOfPages};
ghost use Rattle.command_line.specs.Given.{flags_of, values_of};

use crate::fault::Fault;
use crate::found::word_in;
use clap::ArgMatches;
use pmp_encoding::PAGE_SIZE;
use text_lines::number;

/// Size of the physical address space in bytes.
const SPACE: u64 = 1 << 56;

/// The name of the size, the second value of `--monitor`. The base has the name of the option.
pub const SIZE_NAME: &str = "SIZE";

/// Returns whether bytes from a base on are whole pages of the space, at least one.
fn are_whole_pages(base: u64, size: u64) -> bool
    ensures { (result ≡ true) ↔ AreWholePages base size }
{
    base % PAGE_SIZE == 0
        && size % PAGE_SIZE == 0
        && size > 0
        && base <= SPACE
        && size <= SPACE - base
}

/// Returns the base and the size from `--monitor`, if it is given.
pub(crate) fn monitor_in<'a>(given: &ArgMatches<'a>) -> Result<Option<(u64, u64)>, Fault<'a>>
    ensures monitor { IfOk result (IsMonitor (values_of given.now)) }
    ensures pages { IfOk result IsOfPages }
    ensures fault { IfErr result (IsFirst (values_of given.now) (flags_of given.now) of_monitor) }
{
    let Some(base_word) = word_in(given, "monitor") else {
        return Ok(None);
    };
    let Some(size_word) = word_in(given, SIZE_NAME) else {
        return Ok(None);
    };
    let Some(base) = number(base_word.as_bytes()) else {
        return Err(Fault::Monitor(base_word));
    };
    let Some(size) = number(size_word.as_bytes()) else {
        return Err(Fault::Monitor(size_word));
    };
    if !are_whole_pages(base, size) {
        return Err(Fault::MonitorPages);
    }
    Ok(Some((base, size)))
}
