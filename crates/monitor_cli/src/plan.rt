//! `plan`: prints the minimal entries of a map, and writes their certificate.

ghost use Rattle.std.specs.Prelude.{◌≡◌, ◌-◌, ◌^◌, ◌<◌, ℕ, Option, length, option_map};
ghost use Rattle.monitor_cli.specs.CertifiedPlan.{placing, IsWithin};
ghost use Rattle.program_files.specs.Reading.{reading};
ghost use Rattle.monitor_cli.specs.Plan.{most_entries, IsPrinted, Plans};
ghost use Rattle.text_lines.specs.Writings.{writing, PrintsOne};
ghost use Rattle.pmp_encoding.specs.Widths.{AreReached};

use crate::certificate_sink::CertificateSink;
use crate::certified_plan::{plan_within, put_certificate};
use command_line::{Format, Options};
use map_table::{print_asm, print_c, print_json};
use map_text::{print_plan, room_from};
use pmp_encoding::{Limit, PackedEntry};
use program_files::{Trouble, map_in};
use std::alloc::Global;
use text_lines::{DeviceFault, Sink, Source};

/// Returns the maximum number of entries of a plan, if there is one: C and assembly are printed only for lists that fit
/// the hart.
pub(crate) fn most_entries(
    limit: Limit,
    first: u8,
    at_most: Option<u64>,
    format: Format,
) -> Option<u64>
    ensures { result ≡ most_entries limit first at_most format }
{
    match format {
        Format::Text | Format::Json => at_most,
        Format::C | Format::Asm => {
            let entries = room_from(first, limit) as u64;
            match at_most {
                Some(n) => Some(n.min(entries)),
                None => Some(entries),
            }
        }
    }
}

/// Prints a plan according to the options.
fn print_as<W: Sink>(
    map: &str,
    options: &Options<'_>,
    entries: &[PackedEntry],
    limit: Limit,
    out: &mut W,
) -> Result<(), DeviceFault>
    requires reached { AreReached options.now.xlen entries.now }
    requires fits { (at_most : Option ℕ)
        × IsWithin (most_entries limit options.now.first at_most options.now.format)
        (length entries.now) }
    requires small { length entries.now < 2 ^ 32 }
    ensures { PrintsOne (IsPrinted options.now limit map.now entries.now)
        (writing W.contents W.failures W.stalls out.old out.new) result }
{
    let (name, xlen, first) = (options.name, options.xlen, options.first);
    match options.format {
        Format::Text => print_plan(xlen, entries, first, limit, out),
        Format::C => print_c(name, xlen, entries, first, limit, out),
        Format::Asm => print_asm(name, xlen, entries, first, limit, out),
        Format::Json => print_json(map, xlen, entries, first, limit, out),
    }
}

/// Plans a map, writes the certificate if one is requested, and prints the plan.
#[inline(never)]
pub(crate) fn do_plan<'a, R: Source, M, C: CertificateSink<M>, W: Sink>(
    alloc: Global,
    file: &'a str,
    cert: Option<&'a str>,
    limit: Limit,
    options: &Options<'a>,
    source: &mut R,
    certificate: &mut C,
    out: &mut W,
) -> Result<u8, Trouble<'a>>
    ensures { Plans file.entry cert.entry limit options.now
        (reading R.remaining R.failures source.old source.new)
        (placing C.contents C.failures C.stalls C.stands C.is_apart certificate.old certificate.new)
        (writing W.contents W.failures W.stalls out.old out.new) result }
{
    let map = map_in(alloc, file, source)?;
    let most = most_entries(limit, options.first, options.at_most, options.format);
    let plan = plan_within(alloc, file, &map, options.xlen, most)?;
    put_certificate::<M, C>(&map, &plan, limit, cert, certificate)?;
    print_as(file, options, plan.entries(), limit, out)?;
    Ok(0)
}
