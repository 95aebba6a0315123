//! `audit`: compares registers with a map.

ghost use Rattle.std.specs.Prelude.{◌-◌, ◌^◌, ◌<◌};
ghost use Rattle.text_lines.specs.Writings.{writing};
ghost use Rattle.program_files.specs.Reading.{reading};
ghost use Rattle.monitor_cli.specs.Commands.{Ends, IsAudited, IsUnaudited};

use crate::certified_plan::plan_within;
use crate::listings::listing_trouble;
use command_line::Options;
use program_files::{REGISTER_BYTES, Trouble, bytes_in, map_in};
use register_audit::audit;
use std::alloc::Global;
use text_lines::{Sink, Source};

/// Audits registers against a map for a mode, and returns whether they mean it. Prints the first stretch that differs,
/// or with `all` a line for each.
#[inline(never)]
pub(crate) fn do_audit<'a, R: Source, W: Sink>(
    alloc: Global,
    file: &'a str,
    registers: &'a str,
    options: &Options<'a>,
    first: &mut R,
    second: &mut R,
    out: &mut W,
) -> Result<bool, Trouble<'a>>
    ensures { let source = reading R.remaining R.failures in
        let one = source first.old first.new in
        let other = source second.old second.new in
        Ends (IsAudited options.now one other)
        (IsUnaudited file.entry registers.entry options.now one other)
        (writing W.contents W.failures W.stalls out.old out.new) result }
{
    let map = map_in(alloc, file, first)?;
    let listing = bytes_in(alloc, registers, second, REGISTER_BYTES)?;
    let plan = plan_within(alloc, file, &map, options.xlen, None)?;
    let fewest = plan.entries().len() as u64;
    let (mode, xlen, all) = (options.mode, options.xlen, options.all);
    match audit(
        alloc,
        &map,
        fewest,
        mode,
        xlen,
        listing.as_slice(),
        all,
        out,
    ) {
        Ok(means) => Ok(means),
        Err(fault) => Err(listing_trouble(registers, fault)),
    }
}
