//! Warnings about a map: lines that open DMA-capable devices, and lines that override part of another line.

ghost use Rattle.std.specs.Prelude.{◌-◌, ◌^◌, ◌<◌, length};

use crate::held_masters::holds;
use crate::idle_lines::{Numbered, map_of_both};
use crate::map_settings::settings_in;
use crate::masters::{Master, masters};
use crate::said_words::push_place;
use crate::warnings::push_master;
use permission_map::{Memory, PermissionMap, Run};
use pmp_encoding::PAGE_SIZE;
use std::alloc::Global;
use text_lines::{push, push_number};

/// Maximum number of settings to compare with one another.
const MOST: usize = 512;

/// Returns the first page after those of a setting.
fn end_of(setting: &Run) -> u64 {
    setting.first.saturating_add(setting.count)
}

/// Returns whether the map allows access to a page that both the setting and the master have.
fn is_still_open(map: &PermissionMap, setting: &Run, master: Master) -> bool {
    let first = setting.first.max(master.first / PAGE_SIZE);
    let end = end_of(setting).min((master.last / PAGE_SIZE).saturating_add(1));
    match map.next_run(first) {
        Some(run) => run.first.max(first) < end,
        None => false,
    }
}

/// Returns whether a line opens a byte of a master that no later line closes.
fn opens(map: &PermissionMap, setting: &Run, master: Master) -> bool {
    let base = setting.first.saturating_mul(PAGE_SIZE);
    let size = setting.count.saturating_mul(PAGE_SIZE);
    holds((base, size, setting.perm), master) && is_still_open(map, setting, master)
}

/// Appends a warning for each master that a line opens.
fn push_masters(
    text: &mut Vec<u8>,
    name: &str,
    map: &PermissionMap,
    numbered: &Numbered,
) -> Result<(), Memory> {
    for master in masters() {
        if opens(map, &numbered.setting, *master) {
            push_place(text, name, numbered.line)?;
            push(text, "1: warning: ")?;
            push_master(text, *master)?;
            push(
                text,
                ", which reads and writes any memory by itself; leave these pages out\n",
            )?;
        }
    }
    Ok(())
}

/// Returns whether two settings share pages, each has pages that the other lacks, and their permissions differ.
fn are_crossed(one: &Run, other: &Run) -> bool {
    let (low, high) = if one.first < other.first {
        (one, other)
    } else {
        (other, one)
    };
    low.first < high.first
        && high.first < end_of(low)
        && end_of(low) < end_of(high)
        && low.perm != high.perm
}

/// Returns the last of the earlier settings that a setting crosses.
fn last_crossed<'a>(before: &'a [Numbered], setting: &Run) -> Option<&'a Numbered> {
    let mut found = None;
    for numbered in before {
        if are_crossed(&numbered.setting, setting) {
            found = Some(numbered);
        }
    }
    found
}

/// Appends a note for each setting that crosses an earlier one.
fn push_crossings(text: &mut Vec<u8>, name: &str, settings: &[Numbered]) -> Result<(), Memory> {
    for (i, numbered) in settings.iter().enumerate() {
        if let Some(other) = last_crossed(&settings[..i], &numbered.setting) {
            push_place(text, name, numbered.line)?;
            push(text, "1: note: the line overrides a part of line ")?;
            push_number(text, other.line)?;
            push(text, ", which is ")?;
            push(text, other.setting.perm.word())?;
            push(text, "\n")?;
        }
    }
    Ok(())
}

/// Appends the warnings about a map.
pub(crate) fn push_map_warnings(
    alloc: Global,
    text: &mut Vec<u8>,
    name: &str,
    bytes: &[u8],
) -> Result<(), Memory>
    requires { length bytes.now < 2 ^ 64 - 1 }
{
    let settings = settings_in(alloc, bytes)?;
    let Some(map) = map_of_both(alloc, settings.as_slice(), &[])? else {
        return Ok(());
    };
    for numbered in settings.as_slice() {
        push_masters(text, name, &map, numbered)?;
    }
    push_crossings(text, name, &settings.as_slice()[..settings.len().min(MOST)])
}
