//! `show`: prints a map, or the meaning of registers, as a table.

ghost use Rattle.std.specs.Prelude.{◌-◌, ◌^◌, ◌<◌, IfOk, length};
ghost use Rattle.text_lines.specs.Writings.{writing};
ghost use Rattle.permission_map.specs.Runs.{view_of_runs};
ghost use Rattle.program_files.specs.Reading.{reading};
ghost use Rattle.monitor_cli.specs.Commands.{AreRegistersShown, Ends, HasNoListing, IsMapShown, IsMapUnshown, IsShown, ShowsAs};

use crate::certified_plan::plan_within;
use crate::listings::listing_trouble;
use command_line::{Options, TableFormat};
use input_files::push_line_costs;
use map_table::{json_table, picture, table_of};
use permission_map::{Memory, PermissionMap};
use pmp_encoding::{Entry, Limit};
use program_files::{MAP_BYTES, REGISTER_BYTES, Trouble, bytes_in, map_by};
use register_audit::print_registers;
use std::alloc::Global;
use text_lines::{Sink, Source, write_whole};

/// Returns the table of a map as text, followed by the cost of each line, if requested.
fn text_of(
    alloc: Global,
    costs: bool,
    bytes: &[u8],
    map: &PermissionMap,
    entries: &[Entry],
    limit: Limit,
) -> Result<Vec<u8>, Memory>
    requires { length bytes.now < 2 ^ 64 - 1 }
{
    let mut text = table_of(alloc, map, entries, limit)?;
    if costs {
        push_line_costs(alloc, &mut text, bytes)?;
        return Ok(text);
    }
    Ok(text)
}

/// Returns the table of a map in the requested format.
fn shown_as(
    alloc: Global,
    options: &Options<'_>,
    bytes: &[u8],
    map: &PermissionMap,
    entries: &[Entry],
    limit: Limit,
) -> Result<Vec<u8>, Memory>
    requires { length bytes.now < 2 ^ 64 - 1 }
    ensures { IfOk result (λ text.
        IsShown options.now.table (view_of_runs map.now) entries.now limit
        text.items) }
{
    match options.table {
        TableFormat::Text => text_of(alloc, options.costs, bytes, map, entries, limit),
        TableFormat::Svg => picture(alloc, map, entries, limit),
        TableFormat::Json => json_table(alloc, map, entries, limit),
    }
}

/// Prints a map as a table of its stretches, each with the entry that decides it.
#[inline(never)]
fn show_map<'a, R: Source, W: Sink>(
    alloc: Global,
    file: &'a str,
    limit: Limit,
    options: &Options<'a>,
    first: &mut R,
    out: &mut W,
) -> Result<bool, Trouble<'a>>
    ensures { let one = reading R.remaining R.failures first.old first.new in
        Ends (IsMapShown limit options.now one) (IsMapUnshown file.entry options.now one)
        (writing W.contents W.failures W.stalls out.old out.new) result }
{
    let bytes = bytes_in(alloc, file, first, MAP_BYTES)?;
    let map = map_by(alloc, file, bytes.as_slice())?;
    let packed = plan_within(alloc, file, &map, options.xlen, options.at_most)?;
    let plan = packed.unpacked(alloc)?;
    let text = shown_as(
        alloc,
        options,
        bytes.as_slice(),
        &map,
        plan.entries(),
        limit,
    )?;
    write_whole(out, text.as_slice())?;
    Ok(true)
}

/// Prints the permissions that registers grant a mode as such a table, and returns whether they mean anything.
#[inline(never)]
fn show_registers<'a, R: Source, W: Sink>(
    alloc: Global,
    file: &'a str,
    options: &Options<'a>,
    first: &mut R,
    out: &mut W,
) -> Result<bool, Trouble<'a>>
    ensures { let one = reading R.remaining R.failures first.old first.new in
        Ends (AreRegistersShown options.now one) (HasNoListing file.entry options.now.xlen one)
        (writing W.contents W.failures W.stalls out.old out.new) result }
{
    let listing = bytes_in(alloc, file, first, REGISTER_BYTES)?;
    match print_registers(alloc, options.mode, options.xlen, listing.as_slice(), out) {
        Ok(meant) => Ok(meant),
        Err(fault) => Err(listing_trouble(file, fault)),
    }
}

/// Prints a map, or the meaning of registers, as a table, and returns whether there is one.
pub(crate) fn do_show<'a, R: Source, W: Sink>(
    alloc: Global,
    file: &'a str,
    limit: Limit,
    options: &Options<'a>,
    first: &mut R,
    out: &mut W,
) -> Result<bool, Trouble<'a>>
    ensures { ShowsAs options.now.registers file.entry limit options.now
        (reading R.remaining R.failures first.old first.new)
        (writing W.contents W.failures W.stalls out.old out.new) result }
{
    if options.registers {
        return show_registers(alloc, file, options, first, out);
    }
    show_map(alloc, file, limit, options, first, out)
}
