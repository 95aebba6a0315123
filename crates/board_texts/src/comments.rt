//! Comments on ranges: the node, the location, and the reason if a range is left out.

ghost use Rattle.std.specs.Prelude.{◌≡◌, ◌≤◌, ◌++◌, ◌&&◌, OnOk, length, map, take};
ghost use Rattle.std.specs.List.{list_any};
ghost use Rattle.device_tree.specs.Meaning.{said_of};
ghost use Rattle.board_texts.specs.Pages.{all_pages, pages_of, range_of};
ghost use Rattle.board_texts.specs.Comments.{comment_text, comments_on, extent_text, gives, is_from, is_left, is_paged, kind_text, left_out_text, left_reason, left_text, lefts_text, meets, name_text, named_text, pages_text, plain, range_text, reservation_text, reservations_text, rest_text};

use crate::pages::pages_of;
use device_tree::{Extent, Found, Kind, Reservation};
use permission_map::Run;
use pmp_encoding::{PAGE_SIZE, PageRange, Perm};
use std::alloc::AllocError;
use text_lines::{push, push_address};

/// Maximum number of bytes of a name to print.
const SHOWN: usize = 32;

/// Replaces a byte that is not visible ASCII by `?`.
fn plain(byte: u8) -> u8
    ensures { result ≡ plain byte }
{
    if byte > 32 && byte < 127 {
        return byte;
    }
    b'?'
}

/// Appends bytes of a name in printable form.
fn push_plain(text: &mut Vec<u8>, name: &[u8]) -> Result<(), AllocError>
    ensures { OnOk result (text.new.items ≡ text.old.items ++ map plain name.now) }
{
    for byte in name {
        text.push(plain(*byte))?;
    }
    Ok(())
}

/// Returns the first 32 bytes of a name.
fn beginning(name: &[u8]) -> &[u8]
    requires { 32 ≤ length name.now }
    ensures { result.now ≡ take 32 name.now }
{
    &name[..SHOWN]
}

/// Appends a name, truncated if it is long.
fn push_name(text: &mut Vec<u8>, name: &[u8]) -> Result<(), AllocError>
    ensures { OnOk result (text.new.items ≡ text.old.items ++ name_text name.now) }
{
    if name.len() > SHOWN {
        push_plain(text, beginning(name))?;
        return push(text, "..");
    }
    push_plain(text, name)
}

/// Returns the word for a kind of range.
fn kind_text(kind: Kind) -> &'static str
    ensures { result.now ≡ kind_text kind }
{
    match kind {
        Kind::Memory => "memory",
        Kind::Device => "device",
        Kind::Machine => "machine mode's",
        Kind::Reserved => "no-map",
        Kind::Hart => "hart",
        Kind::Untranslated => "on its bus",
    }
}

/// Returns whether an extent begins and ends at page boundaries.
fn is_paged(extent: Extent) -> bool
    ensures { result ≡ is_paged extent }
{
    extent.base % PAGE_SIZE == 0 && extent.size % PAGE_SIZE == 0
}

/// Returns the note on a range that does not consist of whole pages.
fn rest_text(kind: Kind) -> &'static str
    ensures { result.now ≡ rest_text kind }
{
    match kind {
        Kind::Memory => ", of it the whole pages",
        Kind::Device => ", with the rest of its pages",
        Kind::Machine => ", with the rest of its pages",
        Kind::Reserved => ", with the rest of its pages",
        Kind::Hart => "",
        Kind::Untranslated => "",
    }
}

/// Returns the note on the pages of a range, which is empty if it consists of whole pages.
fn pages_text<'a>(found: &Found<'a>) -> &'static str
    ensures { result.now ≡ pages_text (range_of found.now) }
{
    if is_paged(found.extent) {
        return "";
    }
    rest_text(found.kind)
}

/// Appends a base and a size.
fn push_extent(text: &mut Vec<u8>, extent: Extent) -> Result<(), AllocError>
    ensures { OnOk result (text.new.items ≡ text.old.items ++ extent_text extent) }
{
    push_address(text, extent.base)?;
    push(text, " ")?;
    push_address(text, extent.size)
}

/// Appends the description of a range: its node, kind and extent.
#[tactic(auto, unfolding(crate::specs::Comments::range_text))]
fn push_range<'a>(text: &mut Vec<u8>, found: &Found<'a>) -> Result<(), AllocError>
    ensures { OnOk result (text.new.items ≡ text.old.items ++ range_text (range_of found.now)) }
{
    push_name(text, found.name)?;
    push(text, ": ")?;
    push(text, kind_text(found.kind))?;
    push(text, " ")?;
    push_extent(text, found.extent)?;
    push(text, pages_text(found))
}

/// Returns whether runs of this permission come from ranges of this kind.
pub(crate) fn gives(kind: Kind, perm: Perm) -> bool
    ensures { result ≡ gives kind perm }
{
    match (kind, perm) {
        (Kind::Memory, Perm::ReadWriteExecute) => true,
        (Kind::Device, Perm::ReadWrite) => true,
        _ => false,
    }
}

/// Returns whether a run contains one of the pages.
fn meets(pages: PageRange, run: &Run) -> bool
    ensures { result ≡ meets pages run.now }
{
    let from_run = pages.first < run.first || pages.first - run.first < run.count;
    let from_pages = run.first < pages.first || run.first - pages.first < pages.count;
    pages.count > 0 && from_run && from_pages
}

/// Returns whether a run contains some of the pages of a range of this kind.
fn has_pages(run: &Run, kind: Kind, pages: PageRange) -> bool
    ensures { result ≡ (gives kind run.now.perm && meets pages run.now) }
{
    gives(kind, run.perm) && meets(pages, run)
}

/// Returns whether the run contains pages of the range.
fn is_from<'a>(run: &Run, found: &Found<'a>) -> bool
    ensures { result ≡ is_from run.now (range_of found.now) }
{
    has_pages(run, found.kind, pages_of(found))
}

/// Appends the comment on a range.
fn push_named<'a>(text: &mut Vec<u8>, found: &Found<'a>) -> Result<(), AllocError>
    ensures { OnOk result (text.new.items ≡ text.old.items ++ named_text (range_of found.now)) }
{
    push(text, "# ")?;
    push_range(text, found)?;
    push(text, "\n")
}

/// Appends the comment on a range if the run contains pages of it.
fn push_comment<'a>(text: &mut Vec<u8>, run: &Run, found: &Found<'a>) -> Result<(), AllocError>
    ensures { OnOk result (text.new.items
        ≡ text.old.items ++ comment_text run.now (range_of found.now)) }
{
    if is_from(run, found) {
        return push_named(text, found);
    }
    Ok(())
}

/// Appends the comment on a range with these pages, if the run contains some of them. Most ranges are left here, by their pages alone.
#[inline(always)]
#[tactic(auto, using(crate::proofs::PagesMet::kept))]
fn push_comment_by<'a>(
    text: &mut Vec<u8>,
    run: &Run,
    found: &Found<'a>,
    pages: PageRange,
) -> Result<(), AllocError>
    requires { pages ≡ pages_of (range_of found.now) }
    ensures { OnOk result (text.new.items
        ≡ text.old.items ++ comment_text run.now (range_of found.now)) }
{
    if !meets(pages, run) {
        return Ok(());
    }
    push_comment(text, run, found)
}

/// Appends the comments on all ranges that have pages in a run.
pub(crate) fn push_comments<'a>(
    text: &mut Vec<u8>,
    run: &Run,
    found: &[Found<'a>],
    pages: &[PageRange],
) -> Result<(), AllocError>
    requires { pages.now ≡ all_pages found.now }
    ensures { OnOk result (text.new.items
        ≡ text.old.items ++ comments_on run.now (said_of found.now)) }
{
    for (i, pages) in pages.iter().enumerate() {
        push_comment_by(text, run, &found[i], *pages)?;
    }
    Ok(())
}

/// Returns the reason why a range is left out.
#[tactic(auto, unfolding(crate::specs::Comments::left_reason))]
fn left_reason(kind: Kind) -> &'static str
    ensures { result.now ≡ left_reason kind }
{
    match kind {
        Kind::Memory => "; no whole page of it is left\n",
        Kind::Device => "; it has no page that is neither memory nor denied\n",
        Kind::Machine => "; it is the timer of harts or interrupts them\n",
        Kind::Reserved => "; nothing else is to map it\n",
        Kind::Hart => "\n",
        Kind::Untranslated => "; no bus translates it to an address of the root\n",
    }
}

/// Returns whether one of the runs contains pages of the range.
fn is_in_runs<'a>(runs: &[Run], found: &Found<'a>) -> bool
    ensures { result ≡ list_any (λ run. is_from run (range_of found.now)) runs.now }
{
    let pages = pages_of(found);
    let kind = found.kind;
    for run in runs {
        if has_pages(run, kind, pages) {
            return true;
        }
    }
    false
}

/// Returns whether the range is left out, that is, no run contains a page of it. A hart is never left out.
fn is_left<'a>(runs: &[Run], found: &Found<'a>) -> bool
    ensures { result ≡ is_left runs.now found.now.kind (range_of found.now) }
{
    match found.kind {
        Kind::Hart => false,
        Kind::Memory => !is_in_runs(runs, found),
        Kind::Device => !is_in_runs(runs, found),
        Kind::Machine => true,
        Kind::Reserved => true,
        Kind::Untranslated => true,
    }
}

/// Appends the comment that a range is left out, with the reason.
fn push_left_out<'a>(text: &mut Vec<u8>, found: &Found<'a>) -> Result<(), AllocError>
    ensures { OnOk result (text.new.items
        ≡ text.old.items ++ left_out_text (range_of found.now)) }
{
    push(text, "# left out: ")?;
    push_range(text, found)?;
    push(text, left_reason(found.kind))?;
    Ok(())
}

/// Appends this comment if the range is left out.
fn push_left<'a>(text: &mut Vec<u8>, runs: &[Run], found: &Found<'a>) -> Result<(), AllocError>
    ensures { OnOk result (text.new.items
        ≡ text.old.items ++ left_text runs.now (range_of found.now)) }
{
    if is_left(runs, found) {
        return push_left_out(text, found);
    }
    Ok(())
}

/// Appends a comment on each range that is left out.
pub(crate) fn push_lefts<'a>(
    text: &mut Vec<u8>,
    runs: &[Run],
    found: &[Found<'a>],
) -> Result<(), AllocError>
    ensures { OnOk result (text.new.items
        ≡ text.old.items ++ lefts_text runs.now (said_of found.now)) }
{
    for one in found {
        push_left(text, runs, one)?;
    }
    Ok(())
}

/// Appends a memory reservation.
fn push_reservation(text: &mut Vec<u8>, one: &Reservation) -> Result<(), AllocError>
    ensures { OnOk result (text.new.items ≡ text.old.items ++ reservation_text one.now) }
{
    push(text, "# not left out: /memreserve/ ")?;
    push_address(text, one.address)?;
    push(text, " ")?;
    push_address(text, one.size)?;
    push(text, "; a kernel keeps off it by itself\n")
}

/// Appends the memory reservations.
pub(crate) fn push_reservations(
    text: &mut Vec<u8>,
    reservations: &[Reservation],
) -> Result<(), AllocError>
    ensures { OnOk result (text.new.items
        ≡ text.old.items ++ reservations_text reservations.now) }
{
    for one in reservations {
        push_reservation(text, one)?;
    }
    Ok(())
}
