//! The lines of a platform.

ghost use Rattle.std.specs.Prelude.{◌≡◌, ◌++◌, ◌+◌, ◌^◌, ◌≤◌, ℕ, Option, IfOk, OnOk};
ghost use Rattle.permission_map.specs.Runs.{end_of};
ghost use Rattle.device_tree.specs.Meaning.{said_of};
ghost use Rattle.board_texts.specs.Comments.{comments_on};
ghost use Rattle.board_texts.specs.Pages.{all_pages};
ghost use Rattle.board_texts.specs.Platforms.{board_platform_text, entries_text, given_text, harts_text, head_text, keys_text, part_text, platform_head, table_text, tables_text};

use crate::comments::{gives, push_comments, push_lefts, push_reservations};
use crate::harts::{harts_of, harts_used};
use crate::pages::all_pages;
use device_tree::{Found, Kind, Reservation};
use permission_map::{PermissionMap, Run};
use pmp_encoding::{PAGE_SIZE, PageRange};
use std::alloc::{AllocError, Global};
use text_lines::{push, push_address, push_number};

/// Appends a base and a size.
fn push_keys(text: &mut Vec<u8>, base: u64, size: u64) -> Result<(), AllocError>
    ensures { OnOk result (text.new.items ≡ text.old.items ++ keys_text base size) }
{
    push(text, "base = ")?;
    push_address(text, base)?;
    push(text, "\nsize = ")?;
    push_address(text, size)?;
    push(text, "\n")
}

/// Appends the table of a run.
fn push_table(text: &mut Vec<u8>, run: &Run) -> Result<(), AllocError>
    requires { end_of run.now ≤ 2 ^ 44 }
    ensures { OnOk result (text.new.items ≡ text.old.items ++ table_text run.now) }
{
    let base = PAGE_SIZE * run.first;
    let size = PAGE_SIZE * run.count;
    if gives(Kind::Memory, run.perm) {
        push(text, "[[ram]]\n")?;
        return push_keys(text, base, size);
    }
    push(text, "[[device]]\n")?;
    push_keys(text, base, size)?;
    push(text, "perm = \"rw\"\n")
}

/// Appends the comments on the ranges of a run, and its table.
fn push_part<'a>(
    text: &mut Vec<u8>,
    run: &Run,
    found: &[Found<'a>],
    pages: &[PageRange],
) -> Result<(), AllocError>
    requires inside { end_of run.now ≤ 2 ^ 44 }
    requires paged { pages.now ≡ all_pages found.now }
    ensures { OnOk result (text.new.items
        ≡ text.old.items ++ part_text (said_of found.now) run.now) }
{
    push(text, "\n")?;
    push_comments(text, run, found, pages)?;
    push_table(text, run)
}

/// Appends each run: the comments on its ranges, and its table.
fn push_tables<'a>(
    text: &mut Vec<u8>,
    map: &PermissionMap,
    found: &[Found<'a>],
    pages: &[PageRange],
) -> Result<(), AllocError>
    requires { pages.now ≡ all_pages found.now }
    ensures { OnOk result (text.new.items
        ≡ text.old.items ++ tables_text (said_of found.now) map.now) }
{
    for run in map.ranges() {
        push_part(text, run, found, pages)?;
    }
    Ok(())
}

/// Appends the numbers of harts.
fn push_harts(text: &mut Vec<u8>, used: u64, harts: u64) -> Result<(), AllocError>
    ensures { OnOk result (text.new.items ≡ text.old.items ++ harts_text used harts) }
{
    push(text, "harts = ")?;
    push_number(text, used)?;
    push(text, " # the tree has ")?;
    push_number(text, harts)?;
    push(text, " in use\n")
}

/// Returns the comment on the origin of the monitor's range.
fn given_text(given: Option<(u64, u64)>) -> &'static str
    ensures { result.now ≡ given_text given }
{
    match given {
        Some(_) => "# as it was given\n",
        None => "# the no-map node in which memory begins\n",
    }
}

/// Returns the first lines of a platform.
#[tactic(auto, unfolding(crate::specs::Platforms::platform_head))]
fn platform_head() -> &'static str
    ensures { result.now ≡ platform_head }
{
    "# The platform of a device tree. It does not name nodes that are not in use,\n# /reserved-memory without no-map or reg, and what is reached through PCI.\n# A device that reads or writes memory by itself reaches all of it: take out the\n# table of each that the host is not to have.\n"
}

/// Returns the line with the number of PMP entries, and the header of the monitor's table.
#[tactic(auto, unfolding(crate::specs::Platforms::entries_text))]
fn entries_text() -> &'static str
    ensures { result.now ≡ entries_text }
{
    "entries = 16 # a tree does not say how many: 16 or 64\n\n[monitor]\n"
}

/// Appends the harts, the entries and the monitor.
fn push_head<'a>(
    text: &mut Vec<u8>,
    given: Option<(u64, u64)>,
    monitor: (u64, u64),
    found: &[Found<'a>],
) -> Result<(), AllocError>
    ensures { OnOk result (text.new.items ≡ text.old.items
        ++ head_text given monitor (said_of found.now)) }
{
    push(text, platform_head())?;
    push_harts(text, u64::from(harts_used(found)), harts_of(found))?;
    push(text, entries_text())?;
    push(text, given_text(given))?;
    push_keys(text, monitor.0, monitor.1)
}

/// Returns the text of a platform. The only error is a failed allocation.
pub(crate) fn platform_lines<'a>(
    alloc: Global,
    given: Option<(u64, u64)>,
    monitor: (u64, u64),
    board: (&PermissionMap, &[Found<'a>], &[Reservation]),
) -> Result<Vec<u8>, AllocError>
    ensures { IfOk result (λ text. text.items
        ≡ board_platform_text given monitor (said_of board.entry.1.now) board.entry.2.now
        board.entry.0.now) }
{
    let (map, found, reservations) = board;
    let mut text = Vec::new(alloc);
    push_head(&mut text, given, monitor, found)?;
    let pages = all_pages(alloc, found)?;
    push_tables(&mut text, map, found, pages.as_slice())?;
    push(&mut text, "\n")?;
    push_lefts(&mut text, map.ranges(), found)?;
    push_reservations(&mut text, reservations)?;
    Ok(text)
}
