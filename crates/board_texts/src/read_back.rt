//! Reads a generated text back, to check that it means what was intended.

ghost use Rattle.std.specs.Prelude.{◌≡◌, ◌-◌, ◌<◌, ◌^◌, Ok, length, true};
ghost use Rattle.map_text.specs.MapFile.{Makes};
ghost use Rattle.board_texts.specs.ReadBack.{IsTextOf};

use input_files::{DocumentFault, PlatformForm, TextFault, read_form};
use map_text::{MapFileFault, map_of};
use permission_map::{PermissionMap, Run};
use pmp_encoding::Perm;
use std::alloc::Global;

/// Returns whether two lists of runs are equal.
fn are_same_runs(runs: &[Run], others: &[Run]) -> bool
    ensures { result ≡ true → runs.now ≡ others.now }
{
    if runs.len() != others.len() {
        return false;
    }
    let mut i = 0;
    while i < runs.len() {
        let one = runs[i];
        let other = others[i];
        if one.first != other.first || one.count != other.count || one.perm != other.perm {
            return false;
        }
        i += 1;
    }
    true
}

/// Returns whether parsing the text gives the map.
pub(crate) fn makes(alloc: Global, text: &[u8], map: &PermissionMap) -> Result<bool, TextFault>
    requires { length text.now < 2 ^ 64 - 1 }
    ensures { result ≡ Ok true → Makes text.now map.now }
{
    match map_of(alloc, text) {
        Ok(made) => Ok(are_same_runs(made.ranges(), map.ranges())),
        Err(MapFileFault::Memory) => Err(TextFault::Memory),
        Err(_) => Ok(false),
    }
}

/// Returns whether two lists of ranges are equal.
fn are_same_ranges(ranges: &[(u64, u64)], others: &[(u64, u64)]) -> bool
    ensures { result ≡ true → ranges.now ≡ others.now }
{
    if ranges.len() != others.len() {
        return false;
    }
    let mut i = 0;
    while i < ranges.len() {
        let one = ranges[i];
        let other = others[i];
        if one.0 != other.0 || one.1 != other.1 {
            return false;
        }
        i += 1;
    }
    true
}

/// Returns whether two lists of devices are equal.
fn are_same_devices(devices: &[(u64, u64, Perm)], others: &[(u64, u64, Perm)]) -> bool
    ensures { result ≡ true → devices.now ≡ others.now }
{
    if devices.len() != others.len() {
        return false;
    }
    let mut i = 0;
    while i < devices.len() {
        let one = devices[i];
        let other = others[i];
        if one.0 != other.0 || one.1 != other.1 || one.2 != other.2 {
            return false;
        }
        i += 1;
    }
    true
}

/// Returns whether a form has these numbers and ranges, and sixteen PMP entries.
fn is_form_of(
    form: &PlatformForm,
    numbers: ((u64, u64), u64),
    ram: &[(u64, u64)],
    devices: &[(u64, u64, Perm)],
) -> bool
    ensures { result ≡ true → (form.now.monitor ≡ numbers.0) × (form.now.harts ≡ numbers.1)
        × (form.now.entries ≡ 16) × (form.now.ram.items ≡ ram.now)
        × (form.now.devices.items ≡ devices.now) }
{
    let (monitor, harts) = numbers;
    form.monitor.0 == monitor.0
        && form.monitor.1 == monitor.1
        && form.harts == harts
        && form.entries == 16
        && are_same_ranges(form.ram.as_slice(), ram)
        && are_same_devices(form.devices.as_slice(), devices)
}

/// Returns whether the text, as its parsed form, is the platform of these numbers and ranges.
pub(crate) fn is_platform(
    alloc: Global,
    text: &[u8],
    numbers: ((u64, u64), u64),
    ram: &[(u64, u64)],
    devices: &[(u64, u64, Perm)],
) -> Result<bool, TextFault>
    ensures { result ≡ Ok true → IsTextOf text.now numbers.0 ram.now devices.now numbers.1 }
{
    let document = match toml::table_from_slice(alloc, text) {
        Ok(document) => document,
        Err(error) if error.is_memory() => return Err(TextFault::Memory),
        Err(_) => return Ok(false),
    };
    match read_form(alloc, &document) {
        Ok(form) => Ok(is_form_of(&form, numbers, ram, devices)),
        Err(DocumentFault::Memory) => Err(TextFault::Memory),
        Err(DocumentFault::Breach(_)) => Ok(false),
    }
}
