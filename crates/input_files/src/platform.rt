//! Reads the platform of a text.

ghost use Rattle.std.specs.Prelude.{◌≡◌, ◌++◌, ◌<◌, ◌≤◌, Err, IfErr, IfOk, Some, codes, map};
ghost use Rattle.std.specs.List.{All};
ghost use Rattle.toml.specs.Data.{get_member};
ghost use Rattle.toml.specs.Parse.{parse_document};
ghost use Rattle.toml.specs.View.{table_view};
ghost use Rattle.platforms.specs.Platform.{PlatformLayout};
ghost use Rattle.platforms.specs.Ranges.{EachApart, IsRange, device_range};
ghost use Rattle.platforms.specs.declared.platform.PlatformFault.TheVariants.{Overlap};
ghost use Rattle.input_files.specs.declared.breach.TomlPath.TheVariants.{File};
ghost use Rattle.input_files.specs.Breaches.{BreaksRule, HasNoNumber, IsBroken, IsFaultOf, IsFirst, device_list_checks, document_checks, form_checks, key_name, monitor_checks, ram_checks};
ghost use Rattle.input_files.specs.Document.{Builds, HasForm, IsPlatformDocument, IsPlatformText, devices_at, monitor_at, number_or, ram_at};

use crate::breach::{Breach, Key, TomlPath};
use crate::document::{number, unknown_key, value_at};
use crate::fault::{DocumentFault, TextFault};
use crate::overlap::{overlap_in, placed_ranges};
use crate::tables::{read_devices, read_range, read_ranges};
use platforms::{Platform, PlatformFault};
use pmp_encoding::Perm;
use std::alloc::{AllocError, Global};
use toml::Table;

/// The ranges and numbers of a document. Its ranges consist of whole pages, but may break the other rules on platforms.
#[derive(Drop)]
pub struct PlatformForm {
    /// The range of the monitor: its base and its size, in bytes.
    pub monitor: (u64, u64),
    /// The ranges of memory.
    pub ram: Vec<(u64, u64)>,
    /// The devices, each with its permission.
    pub devices: Vec<(u64, u64, Perm)>,
    /// The number of harts.
    pub harts: u64,
    /// The number of PMP entries of each hart.
    pub entries: u64,
}

/// Reads the monitor's range.
fn monitor_in<'a>(document: &'a Table) -> Result<(u64, u64), Breach<'a>>
    ensures ok { IfOk result (λ range. (monitor_at (table_view document.now) ≡ Some range)
        × IsRange range) }
    ensures first { IfErr result (IsFirst (monitor_checks
        (get_member (codes "monitor") (table_view document.now)))) }
{
    match value_at(document, "monitor") {
        None => Err(Breach::Missing(TomlPath::File, Key::Monitor)),
        Some(value) => read_range(value, TomlPath::Monitor),
    }
}

/// Reads the ranges of memory.
fn ram_in<'a>(alloc: Global, document: &'a Table) -> Result<Vec<(u64, u64)>, DocumentFault<'a>>
    ensures ok { IfOk result (λ ram. (ram_at (table_view document.now) ≡ Some ram.items)
        × All IsRange ram.items) }
    ensures first { IfErr result (IsFaultOf (ram_checks
        (get_member (codes "ram") (table_view document.now)))) }
{
    let Some(value) = value_at(document, "ram") else {
        return Err(DocumentFault::Breach(Breach::Missing(TomlPath::File, Key::Ram)));
    };
    match value.as_array() {
        None => Err(DocumentFault::Breach(Breach::NoTables(Key::Ram))),
        Some(array) => read_ranges(alloc, array.as_slice()),
    }
}

/// Reads the devices. A missing array has no devices.
fn devices_in<'a>(
    alloc: Global,
    document: &'a Table,
) -> Result<Vec<(u64, u64, Perm)>, DocumentFault<'a>>
    ensures ok { IfOk result (λ devices.
        (devices_at (table_view document.now) ≡ Some devices.items)
        × All (λ device. IsRange (device_range device)) devices.items) }
    ensures first { IfErr result (IsFaultOf (device_list_checks
        (get_member (codes "device") (table_view document.now)))) }
{
    let Some(value) = value_at(document, "device") else {
        return Ok(Vec::new(alloc));
    };
    match value.as_array() {
        None => Err(DocumentFault::Breach(Breach::NoTables(Key::Device))),
        Some(array) => read_devices(alloc, array.as_slice()),
    }
}

/// Reads an optional number of the file.
fn number_in<'a>(document: &'a Table, key: Key, usual: u64) -> Result<u64, Breach<'a>>
    ensures ok { IfOk result (λ n.
        number_or usual (key_name key) (table_view document.now) ≡ Some n) }
    ensures first { IfErr result (HasNoNumber File key (table_view document.now)) }
{
    let Some(value) = value_at(document, key.name()) else {
        return Ok(usual);
    };
    match number(value) {
        Some(n) => Ok(n),
        None => Err(Breach::NoNumber(TomlPath::File, key)),
    }
}

/// Reads the ranges and numbers of a document, or returns its first breach.
pub fn read_form<'a>(alloc: Global, document: &'a Table) -> Result<PlatformForm, DocumentFault<'a>>
    ensures ok { IfOk result (λ form. HasForm (table_view document.now) form.monitor
        form.ram.items form.devices.items form.harts form.entries) }
    ensures whole { IfOk result (λ form. IsRange form.monitor × All IsRange form.ram.items
        × All (λ device. IsRange (device_range device)) form.devices.items) }
    ensures first { IfErr result (IsFaultOf (form_checks (table_view document.now))) }
{
    if let Some(key) = unknown_key(document, &["monitor", "ram", "device", "harts", "entries"]) {
        return Err(DocumentFault::Breach(Breach::Unknown(TomlPath::File, key)));
    }
    let monitor = monitor_in(document)?;
    let ram = ram_in(alloc, document)?;
    let devices = devices_in(alloc, document)?;
    let harts = number_in(document, Key::Harts, 1)?;
    let entries = number_in(document, Key::Entries, 16)?;
    Ok(PlatformForm {
        monitor,
        ram,
        devices,
        harts,
        entries,
    })
}

/// Returns a number as a byte, or 255 if it is larger; 255 is not a valid number of harts or of entries either.
fn byte_of(n: u64) -> u8
    ensures small { n < 256 → result ≡ n }
    ensures large { 256 ≤ n → result ≡ 255 }
{
    if n < 256 { n as u8 } else { 255 }
}

/// Returns the platform of these ranges and numbers, or the first rule that they break.
fn built(
    monitor: (u64, u64),
    ram: &[(u64, u64)],
    devices: &[(u64, u64, Perm)],
    harts: u64,
    entries: u64,
) -> Result<Platform, PlatformFault>
    ensures ok { IfOk result (Builds monitor ram.now devices.now harts entries) }
    ensures fault { IfErr result (BreaksRule monitor ram.now devices.now harts entries) }
{
    Platform::new(monitor, ram, devices)?
        .with_harts(byte_of(harts))?
        .with_entries(byte_of(entries))
}

/// Converts a broken rule on platforms to a breach of a document. An overlap includes the two ranges that have a page
/// in common.
fn breach_by(
    alloc: Global,
    fault: PlatformFault,
    ram: &[(u64, u64)],
    devices: &[(u64, u64, Perm)],
) -> Result<Breach<'static>, AllocError>
    requires { fault ≡ Overlap → EachApart (ram.now ++ map device_range devices.now) → ⊥ }
    ensures { IfOk result (IsBroken fault ram.now devices.now) }
{
    match fault {
        PlatformFault::Overlap => {
            let ranges = placed_ranges(alloc, ram, devices)?;
            let Some((one, other)) = overlap_in(ranges.as_slice()) else {
                unreachable!();
            };
            Ok(Breach::Overlap(one, other))
        }
        PlatformFault::BadRange
        | PlatformFault::MonitorNotRam
        | PlatformFault::BadNumber
        | PlatformFault::BadHarts
        | PlatformFault::BadEntries => Ok(Breach::Rule(fault)),
    }
}

/// Reads a document and builds its platform, or returns the document's first breach.
pub(crate) fn read_platform<'a>(
    alloc: Global,
    document: &'a Table,
) -> Result<(PlatformForm, Platform), DocumentFault<'a>>
    ensures ok { IfOk result (λ read. IsPlatformDocument (table_view document.now) read.1) }
    ensures first { IfErr result (IsFaultOf (document_checks (table_view document.now))) }
{
    let form = read_form(alloc, document)?;
    let ram = form.ram.as_slice();
    let devices = form.devices.as_slice();
    match built(form.monitor, ram, devices, form.harts, form.entries) {
        Ok(platform) => Ok((form, platform)),
        Err(fault) => Err(DocumentFault::Breach(breach_by(alloc, fault, ram, devices)?)),
    }
}

/// Returns the platform of a text: a TOML document with a table `monitor` and an array of tables `ram`, each with a
/// `base` and a `size` in bytes, and optionally an array of tables `device`, each with a `perm` too, the number of
/// `harts`, 1 to 4, and the number of PMP `entries` per hart, 16 or 64. No other key is allowed anywhere, and the
/// ranges must obey the rules of [`Platform::new`].
///
/// Fails with [`TextFault::NotAPlatform`] iff the text is not a platform, and with [`TextFault::Memory`] if an
/// allocation failed.
pub fn platform_of(alloc: Global, text: &str) -> Result<Platform, TextFault>
    ensures ok { IfOk result (IsPlatformText text.now) }
    ensures refused { result ≡ Err TextFault.NotAPlatform → (platform : PlatformLayout)
        → IsPlatformText text.now platform
        → ⊥ }
{
    let document = match toml::table_from_str(alloc, text) {
        Ok(document) => document,
        Err(error) => {
            if error.is_memory() {
                return Err(TextFault::Memory);
            }
            return Err(TextFault::NotAPlatform);
        }
    };
    match read_platform(alloc, &document) {
        Ok((_form, platform)) => Ok(platform),
        Err(DocumentFault::Breach(_)) => Err(TextFault::NotAPlatform),
        Err(DocumentFault::Memory) => Err(TextFault::Memory),
    }
}
