//! Chains of entries: those of one size, by ascending address.

use crate::entries::{Entries, SIZES, Span};
use crate::piece::Piece;
use arrayvec::ArrayVec;
use pmp_encoding::{Perm, SPACE_PAGES};

/// A position in a chain: the last span that was read, and the number of the next one.
#[derive(Clone, Copy)]
pub(crate) struct ChainCursor {
    pub(crate) next: usize,
    pub(crate) span: Span,
}

/// The position before every chain: no span has been read.
pub(crate) const BEFORE: ChainCursor = ChainCursor {
    next: 0,
    span: Span {
        first: 0,
        end: 0,
        size: 0,
        perm: Perm::NoAccess,
    },
};

ghost use Rattle.std.specs.Prelude.{◌≡◌, ℕ, ◌+◌, ◌*◌, ◌<◌, ◌≤◌, ◌^◌, List, length, slice_index, slice_index_or, IfSome};
ghost use Rattle.certificate_check.specs.declared.entries.Span.{Span};
ghost use Rattle.certificate_check.specs.Spans.{ReadsAs, Decides, RiseTo, AreChains, count_in};
ghost use Rattle.certificate_check.specs.declared.chains.ChainCursor.{ChainCursor};
ghost use Rattle.certificate_check.specs.Places.{IsPlace, start_of, ArePlaces};

/// Returns a copy of the span, made field by field. A copy of the whole struct includes its padding, in pieces that
/// overlap recent stores, which stalls the processor.
#[inline(always)]
fn taken_apart(span: Span) -> Span
    ensures { result ≡ span }
{
    Span {
        first: span.first,
        end: span.end,
        size: span.size,
        perm: span.perm,
    }
}

/// Returns the number of the first entry of a chain.
fn start_of(ends: &[usize], i: usize) -> usize
    requires { i < length ends.now }
    ensures { result ≡ start_of ends.now i }
{
    if i == 0 {
        return 0;
    }
    ends[i - 1]
}

/// Advances in the chain of the entries `from..to` to the first span that ends after the page.
fn next_in_chain(
    entries: &Entries,
    place: ChainCursor,
    from: usize,
    to: usize,
    page: u64,
) -> ChainCursor
    requires inside { to ≤ count_in entries.now }
    ensures all { result.span.end ≤ page → to ≤ result.next }
    ensures value { (spans : ℕ → Span) → ReadsAs entries.now spans
        → IsPlace spans from to page place
        → IsPlace spans from to page result }
{
    let mut next = place.next.max(from);
    let mut span = place.span;
    while span.end <= page && next < to {
        span = entries.span(next);
        next += 1;
    }
    ChainCursor {
        next,
        span: taken_apart(span),
    }
}

/// Advances in a chain if the span of its position has ended. (An unchanged position is not copied, because that takes
/// most of the time of a sweep.)
fn go_on(
    entries: &Entries,
    places: &mut [ChainCursor; SIZES],
    i: usize,
    from: usize,
    to: usize,
    page: u64,
)
    requires place { i < 45 }
    requires inside { to ≤ count_in entries.now }
    ensures all { (d : ChainCursor) → (slice_index_or places.new i d).span.end ≤ page
        → to ≤ (slice_index_or places.new i d).next }
    ensures value { (spans : ℕ → Span) → ReadsAs entries.now spans → (ends : List ℕ)
        → start_of ends i ≡ from
        → slice_index ends i ≡ to → i < length ends → ArePlaces spans ends page places.old
        → ArePlaces spans ends page places.new }
{
    if places[i].span.end <= page {
        places[i] = next_in_chain(entries, places[i], from, to, page);
    }
}

/// Returns the piece from the page on that entries in chains with these ends give. Advances the positions.
pub(crate) fn piece_of_chains(
    entries: &Entries,
    ends: &[usize],
    places: &mut [ChainCursor; SIZES],
    page: u64,
) -> Piece
    requires few { length ends.now ≤ 45 }
    requires page { page < 2 ^ 44 }
    requires rise { RiseTo 0 ends.now (count_in entries.now) }
    requires chains { (spans : ℕ → Span) → ReadsAs entries.now spans
        → AreChains spans 0 ends.now (count_in entries.now) }
    requires placed { (spans : ℕ → Span) → ReadsAs entries.now spans
        → ArePlaces spans ends.now page places.old }
    ensures some { page < result.end }
    ensures inside { result.end ≤ 2 ^ 44 }
    ensures value { (spans : ℕ → Span) → ReadsAs entries.now spans → (at : ℕ)
        → page ≤ at → at < result.end
        → Decides spans (count_in entries.now) at result.perm }
    ensures places { (spans : ℕ → Span) → ReadsAs entries.now spans
        → ArePlaces spans ends.now page places.new }
{
    let mut end = SPACE_PAGES;
    for i in 0..ends.len() {
        if page < places[i].span.first {
            end = end.min(places[i].span.first);
        } else {
            go_on(entries, places, i, start_of(ends, i), ends[i], page);
            if page < places[i].span.end {
                if places[i].span.first <= page {
                    return Piece {
                        end: end.min(places[i].span.end),
                        perm: places[i].span.perm,
                    };
                }
                end = end.min(places[i].span.first);
            }
        }
    }
    Piece {
        end,
        perm: Perm::NoAccess,
    }
}

/// Returns the ends of the entries' chains, if there are at most as many chains as sizes. That is true of a planner's
/// list, which is sorted by size and address.
pub(crate) fn chains_of(entries: &Entries) -> Option<ArrayVec<usize, SIZES>>
    ensures few { IfSome result (λ ends. length ends.items ≤ 45) }
    ensures rise { IfSome result (λ ends. RiseTo 0 ends.items (count_in entries.now)) }
    ensures chains { IfSome result (λ ends.
        (spans : ℕ → Span) → ReadsAs entries.now spans
        → AreChains spans 0 ends.items (count_in entries.now)) }
{
    let mut ends = ArrayVec::new();
    let mut last = 0;
    for i in 0..entries.len() {
        let bounds = entries.bounds(i);
        if bounds.first < last {
            let Ok(()) = ends.try_push(i) else {
                return None;
            };
        }
        last = bounds.end;
    }
    let Ok(()) = ends.try_push(entries.len()) else {
        return None;
    };
    Some(ends)
}
