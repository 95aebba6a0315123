//! Readers of a document's tables, which return a range or a device, or the first breach of the table.

ghost use Rattle.std.specs.Prelude.{◌≡◌, ◌↔◌, ◌⊎◌, IfErr, IfOk, IsTrue, Some};
ghost use Rattle.std.specs.List.{All};
ghost use Rattle.std.specs.Option.{option_and_then};
ghost use Rattle.toml.specs.Data.{as_table};
ghost use Rattle.toml.specs.View.{items_view, table_view, view};
ghost use Rattle.platforms.specs.Ranges.{IsRange, device_range};
ghost use Rattle.input_files.specs.Document.{device_of, each, number_at, perm_at, range_in, range_of};
ghost use Rattle.input_files.specs.Breaches.{IsFaultOf, IsFirst, bounds_checks, device_checks, item_checks, key_name, range_checks, table_checks, HasNoNumber, HasNoPerm, Lacks};
ghost use Rattle.input_files.specs.declared.breach.TomlPath.TheVariants.{Device, Ram};

use crate::breach::{Breach, Key, TomlPath};
use crate::document::{number, perm_of, unknown_key, value_at};
use crate::fault::DocumentFault;
use pmp_encoding::{PAGE_SIZE, Perm, SPACE_SIZE};
use std::alloc::Global;
use toml::{Table, Value};

/// Reads the whole number from 0 at a key.
fn read_number<'a>(table: &'a Table, place: TomlPath, key: Key) -> Result<u64, Breach<'a>>
    ensures ok { IfOk result (λ n. number_at (key_name key) (table_view table.now) ≡ Some n) }
    ensures first { IfErr result (λ breach. Lacks place key (table_view table.now) breach
        ⊎ HasNoNumber place key (table_view table.now) breach) }
{
    let Some(value) = value_at(table, key.name()) else {
        return Err(Breach::Missing(place, key));
    };
    match number(value) {
        Some(n) => Ok(n),
        None => Err(Breach::NoNumber(place, key)),
    }
}

/// Reads the permission of a device.
fn read_perm<'a>(table: &'a Table, place: TomlPath) -> Result<Perm, Breach<'a>>
    ensures ok { IfOk result (λ perm. perm_at (table_view table.now) ≡ Some perm) }
    ensures first { IfErr result (λ breach. Lacks place Key.Perm (table_view table.now) breach
        ⊎ HasNoPerm place (table_view table.now) breach) }
{
    let Some(value) = value_at(table, "perm") else {
        return Err(Breach::Missing(place, Key::Perm));
    };
    match perm_of(value) {
        Some(perm) => Ok(perm),
        None => Err(Breach::NoPerm(place)),
    }
}

/// Returns whether a base and a size form whole pages, at least one, below 2^56.
fn is_range(base: u64, size: u64) -> bool
    ensures { IsTrue result ↔ IsRange (base, size) }
{
    let is_whole = base % PAGE_SIZE == 0 && size % PAGE_SIZE == 0;
    is_whole && size > 0 && size <= SPACE_SIZE && base <= SPACE_SIZE - size
}

/// Reads a base and a size, in bytes.
fn read_bounds<'a>(table: &'a Table, place: TomlPath) -> Result<(u64, u64), Breach<'a>>
    ensures ok { IfOk result (λ range. (range_in (table_view table.now) ≡ Some range)
        × IsRange range) }
    ensures first { IfErr result (IsFirst (bounds_checks place (table_view table.now))) }
{
    let base = read_number(table, place, Key::Base)?;
    let size = read_number(table, place, Key::Size)?;
    if !is_range(base, size) {
        return Err(Breach::NoPages(place));
    }
    Ok((base, size))
}

/// Reads the range of the monitor, or one of memory.
pub(crate) fn read_range<'a>(value: &'a Value, place: TomlPath) -> Result<(u64, u64), Breach<'a>>
    ensures ok { IfOk result (λ range.
        (option_and_then range_of (as_table (view value.now)) ≡ Some range) × IsRange range) }
    ensures first { IfErr result (IsFirst (table_checks range_checks place
        (as_table (view value.now)))) }
{
    let Some(table) = value.as_table() else {
        return Err(Breach::NoTable(place));
    };
    if let Some(key) = unknown_key(table, &["base", "size"]) {
        return Err(Breach::Unknown(place, key));
    }
    read_bounds(table, place)
}

/// Reads a device.
fn read_device<'a>(value: &'a Value, place: TomlPath) -> Result<(u64, u64, Perm), Breach<'a>>
    ensures ok { IfOk result (λ device.
        (option_and_then device_of (as_table (view value.now)) ≡ Some device)
        × IsRange (device_range device)) }
    ensures first { IfErr result (IsFirst (table_checks device_checks place
        (as_table (view value.now)))) }
{
    let Some(table) = value.as_table() else {
        return Err(Breach::NoTable(place));
    };
    if let Some(key) = unknown_key(table, &["base", "size", "perm"]) {
        return Err(Breach::Unknown(place, key));
    }
    let (base, size) = read_bounds(table, place)?;
    let perm = read_perm(table, place)?;
    Ok((base, size, perm))
}

/// Reads the ranges of memory.
pub(crate) fn read_ranges<'a>(
    alloc: Global,
    values: &'a [Value],
) -> Result<Vec<(u64, u64)>, DocumentFault<'a>>
    ensures ok { IfOk result (λ ranges.
        (each range_of (items_view values.now) ≡ Some ranges.items)
        × All IsRange ranges.items) }
    ensures first { IfErr result (IsFaultOf (item_checks range_checks Ram 1
        (items_view values.now))) }
{
    let mut ranges = Vec::new(alloc);
    for (i, value) in values.iter().enumerate() {
        let range = read_range(value, TomlPath::Ram(i as u64 + 1))?;
        ranges.push(range)?;
    }
    Ok(ranges)
}

/// Reads the devices.
pub(crate) fn read_devices<'a>(
    alloc: Global,
    values: &'a [Value],
) -> Result<Vec<(u64, u64, Perm)>, DocumentFault<'a>>
    ensures ok { IfOk result (λ devices.
        (each device_of (items_view values.now) ≡ Some devices.items)
        × All (λ device. IsRange (device_range device)) devices.items) }
    ensures first { IfErr result (IsFaultOf (item_checks device_checks Device 1
        (items_view values.now))) }
{
    let mut devices = Vec::new(alloc);
    for (i, value) in values.iter().enumerate() {
        let device = read_device(value, TomlPath::Device(i as u64 + 1))?;
        devices.push(device)?;
    }
    Ok(devices)
}
