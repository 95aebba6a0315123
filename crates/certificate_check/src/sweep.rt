//! Compares a list of entries with a map by a sweep over the pages, from change to change.

ghost use Rattle.std.specs.Prelude.{◌≡◌, ℕ, ◌<◌, ◌≤◌, ◌^◌, ◌↔◌, List, IsTrue, IfSome, IfNone, length};
ghost use Rattle.pmp_encoding.specs.declared.region.Entry.{Entry};
ghost use Rattle.pmp_match.specs.Meaning.{Means};
ghost use Rattle.certificate_format.specs.Spelling.{SpellsEntries, AreNoSubPages};
ghost use Rattle.permission_map.specs.Runs.{view_of_runs};
ghost use Rattle.certificate_check.specs.declared.entries.Span.{Span};
ghost use Rattle.certificate_check.specs.Spans.{ReadsAs, Decides, RiseTo, AreBlocks, AreChains, count_in};
ghost use Rattle.certificate_check.specs.InOrder.{AreBegun, HaveEndedBut, NoneBegins};
ghost use Rattle.certificate_check.specs.Later.{AreLaterRuns};

use crate::begun::{Begun, NONE, begin, piece_of_begun};
use crate::chains::{BEFORE, chains_of, piece_of_chains};
use crate::entries::{Entries, SIZES};
use crate::keys::{END, Keys, first_of, gather, number_of};
use crate::runs::{piece_of_runs, runs_from};
use crate::sizes::Sizes;
use permission_map::{PermissionMap, Run};
use pmp_encoding::SPACE_PAGES;

/// Returns whether entries in chains with these ends give the runs' permission at each page of the space.
fn agrees_in_chains(entries: &Entries, ends: &[usize], runs: &[Run]) -> bool
    requires later { AreLaterRuns runs.now }
    requires few { length ends.now ≤ 45 }
    requires rise { RiseTo 0 ends.now (count_in entries.now) }
    requires chains { (spans : ℕ → Span) → ReadsAs entries.now spans
        → AreChains spans 0 ends.now (count_in entries.now) }
    ensures { (spans : ℕ → Span) → ReadsAs entries.now spans
        → IsTrue result
        ↔ ((page : ℕ) → page < 2 ^ 44
        → Decides spans (count_in entries.now) page (view_of_runs runs.now page)) }
{
    let mut places = [BEFORE; SIZES];
    let mut rest = runs;
    let mut page = 0;
    while page < SPACE_PAGES {
        rest = runs_from(rest, page);
        let wanted = piece_of_runs(rest, page);
        let given = piece_of_chains(entries, ends, &mut places, page);
        if given.perm != wanted.perm {
            return false;
        }
        page = given.end.min(wanted.end);
    }
    true
}

/// Returns the later runs if the begun entries give the runs' permissions on the pages `from..to`, in which no other
/// entry begins.
fn agreed<'a>(
    slots: &[Begun; SIZES],
    sizes: &mut Sizes,
    runs: &'a [Run],
    from: u64,
    to: u64,
) -> Option<&'a [Run]>
    requires order { from ≤ to }
    requires few { sizes.old.bits < 2 ^ 45 }
    requires ended { HaveEndedBut sizes.old from slots.now }
    requires inside { to ≤ 2 ^ 44 }
    requires later { AreLaterRuns runs.now }
    ensures later { IfSome result (λ rest. AreLaterRuns rest.now) }
    ensures same { IfSome result (λ rest.
        (at : ℕ) → to ≤ at → view_of_runs rest.now at ≡ view_of_runs runs.now at) }
    ensures few { sizes.new.bits < 2 ^ 45 }
    ensures ended { HaveEndedBut sizes.new to slots.now }
    ensures given { IfSome result
        (λ _.
        (spans : ℕ → Span) (count below : ℕ) → AreBlocks spans count
        → AreBegun spans count below from slots.now
        → NoneBegins spans count below to → (at : ℕ) → from ≤ at → at < to
        → Decides spans count at (view_of_runs runs.now at)) }
    ensures differs { IfNone result ((spans : ℕ → Span) (count below : ℕ)
        → AreBlocks spans count
        → AreBegun spans count below from slots.now → NoneBegins spans count below to
        → (at : ℕ) × (from ≤ at) × (at < to)
        × (Decides spans count at (view_of_runs runs.now at) → ⊥)) }
{
    let mut rest = runs;
    let mut page = from;
    while page < to {
        rest = runs_from(rest, page);
        let wanted = piece_of_runs(rest, page);
        let given = piece_of_begun(slots, sizes, page, to);
        if given.perm != wanted.perm {
            return None;
        }
        page = wanted.end.min(given.end);
    }
    Some(rest)
}

/// Returns whether entries in any order give the runs' permission at each page of the space. Visits them by ascending
/// first page, with room for `ROOM` keys at once. (It is not inlined, so that the keys are not part of the caller's
/// stack frame, all of whose pages are touched.)
#[inline(never)]
fn agrees_in_any_order<const ROOM: usize>(entries: &Entries, runs: &[Run]) -> bool
    requires some { 2 ≤ ROOM }
    requires most { ROOM ≤ 2 ^ 19 }
    requires few { count_in entries.now < 2 ^ 19 }
    requires later { AreLaterRuns runs.now }
    ensures { (spans : ℕ → Span) → ReadsAs entries.now spans
        → IsTrue result
        ↔ ((page : ℕ) → page < 2 ^ 44
        → Decides spans (count_in entries.now) page (view_of_runs runs.now page)) }
{
    let mut keys: Keys<ROOM> = Keys::new();
    let mut slots = [NONE; SIZES];
    let mut sizes = Sizes::new();
    let mut rest = runs;
    let mut page = 0;
    let mut low = 0;
    while low < END {
        low = gather(entries, low, &mut keys);
        for key in keys.iter() {
            let first = first_of(*key);
            let Some(later) = agreed(&slots, &mut sizes, rest, page, first) else {
                return false;
            };
            rest = later;
            page = first;
            let number = number_of(*key);
            begin(&mut slots, &mut sizes, page, number, entries.span(number));
        }
    }
    agreed(&slots, &mut sizes, rest, page, SPACE_PAGES).is_some()
}

/// As above, with room for the keys of all entries if there are at most 131,072. Fewer entries get a smaller frame,
/// because all pages of the frame are touched.
fn agrees_by_keys(entries: &Entries, runs: &[Run]) -> bool
    requires few { count_in entries.now < 2 ^ 19 }
    requires later { AreLaterRuns runs.now }
    ensures { (spans : ℕ → Span) → ReadsAs entries.now spans
        → IsTrue result
        ↔ ((page : ℕ) → page < 2 ^ 44
        → Decides spans (count_in entries.now) page (view_of_runs runs.now page)) }
{
    match entries.len() {
        0..=8192 => agrees_in_any_order::<8193>(entries, runs),
        8193..=65536 => agrees_in_any_order::<65537>(entries, runs),
        _ => agrees_in_any_order::<131073>(entries, runs),
    }
}

/// Returns whether the first entry that covers a page has the runs' permission, for each page of the space.
pub(crate) fn agrees(entries: &Entries, runs: &[Run]) -> bool
    requires few { count_in entries.now < 2 ^ 19 }
    requires later { AreLaterRuns runs.now }
    ensures { (spans : ℕ → Span) → ReadsAs entries.now spans
        → IsTrue result
        ↔ ((page : ℕ) → page < 2 ^ 44
        → Decides spans (count_in entries.now) page (view_of_runs runs.now page)) }
{
    match chains_of(entries) {
        Some(ends) => agrees_in_chains(entries, ends.as_slice(), runs),
        None => agrees_by_keys(entries, runs),
    }
}

/// Returns whether the entries mean the map.
pub(crate) fn means(entries: &Entries, map: &PermissionMap) -> bool
    requires { count_in entries.now < 2 ^ 19 }
    ensures { (es : List Entry) → SpellsEntries entries.now es → AreNoSubPages es
        → IsTrue result ↔ Means es (view_of_runs map.now) }
{
    agrees(entries, map.ranges())
}
