//! The layout of an enclave, from the command line.

ghost use Rattle.std.specs.Prelude.{◌≡◌, [], ◌∷◌, IfErr, IfOk};
ghost use Rattle.command_line.specs.Faults.{of_layout, IsFirst};
ghost use Rattle.command_line.specs.Faults.Demand.{has, numbers};
ghost use Rattle.command_line.specs.Layouts.{at_zero, IsEnclave, IsLaidOut, IsNumber};
ghost use Rattle.command_line.specs.Given.{flags_of, values_of};

use crate::fault::Fault;
use crate::values::value_in;
use clap::ArgMatches;
use measurement::{Create, Layout};
use text_lines::number;

/// Returns the value of a numeric option.
fn number_in<'a>(given: &ArgMatches<'a>, option: &'a str) -> Result<u64, Fault<'a>>
    ensures value { IfOk result (IsNumber (values_of given.now option.entry.now)) }
    ensures fault { IfErr result (IsFirst (values_of given.now) (flags_of given.now)
        (has option.entry.now ∷ numbers option.entry.now ∷ [])) }
{
    let word = value_in(given, option)?;
    match number(word.as_bytes()) {
        Some(n) => Ok(n),
        None => Err(Fault::Number { option, word }),
    }
}

/// Returns an enclave with this layout whose pages begin at address 0.
fn at_zero(layout: &Layout) -> Create
    ensures { result ≡ at_zero layout.now }
{
    Create {
        base: 0,
        text_pages: layout.text_pages,
        data_pages: layout.data_pages,
        shared_base: 0,
        shared_count: layout.shared_count,
        entry_offset: layout.entry_offset,
    }
}

/// Returns the layout from `--text`, `--data`, `--shared` and `--entry`.
fn numbers_in<'a>(given: &ArgMatches<'a>) -> Result<Layout, Fault<'a>>
    ensures layout { IfOk result (IsLaidOut (values_of given.now)) }
    ensures fault { IfErr result (IsFirst (values_of given.now) (flags_of given.now) of_layout) }
{
    let text_pages = number_in(given, "text")?;
    let data_pages = number_in(given, "data")?;
    let shared_count = number_in(given, "shared")?;
    let entry_offset = number_in(given, "entry")?;
    Ok(Layout {
        text_pages,
        data_pages,
        shared_count,
        entry_offset,
    })
}

/// Returns the layout from `--text`, `--data`, `--shared` and `--entry`, which must be possible for an enclave.
pub(crate) fn layout_in<'a>(given: &ArgMatches<'a>) -> Result<Layout, Fault<'a>>
    ensures layout { IfOk result (IsLaidOut (values_of given.now)) }
    ensures enclave { IfOk result IsEnclave }
    ensures fault { IfErr result (IsFirst (values_of given.now) (flags_of given.now) of_layout) }
{
    let layout = numbers_in(given)?;
    let parts = at_zero(&layout);
    if !parts.has_counts() {
        return Err(Fault::Pages);
    }
    if !parts.has_entry() {
        return Err(Fault::EntryOffset);
    }
    Ok(layout)
}
