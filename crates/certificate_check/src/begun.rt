//! The entries that have begun at or before a page and have not ended, one for each size.

use crate::entries::{SIZES, Span};
use crate::piece::Piece;
use crate::sizes::Sizes;
use pmp_encoding::Perm;

/// An entry that has begun.
#[derive(Clone, Copy)]
pub(crate) struct Begun {
    pub(crate) number: usize,
    pub(crate) span: Span,
}

/// An empty slot: no entry of its size has begun.
pub(crate) const NONE: Begun = Begun {
    number: 0,
    span: Span {
        first: 0,
        end: 0,
        size: 0,
        perm: Perm::NoAccess,
    },
};

ghost use Rattle.std.specs.Prelude.{◌≡◌, ℕ, ◌*◌, ◌<◌, ◌≤◌, ◌^◌, ◌⊎◌, slice_index_or, IfSome, IfNone};
ghost use Rattle.certificate_check.specs.declared.entries.Span.{Span};
ghost use Rattle.certificate_check.specs.declared.begun.Begun.{Begun};
ghost use Rattle.certificate_check.specs.Spans.{Decides, AreBlocks};
ghost use Rattle.certificate_check.specs.InOrder.{key_of, AreBegun, HaveEndedBut, NoneBegins};

/// Begins an entry at the page. Of several entries with the same pages, only the first in the list is kept, because it
/// decides there. Two entries of one size have either the same pages or none in common.
pub(crate) fn begin(
    slots: &mut [Begun; SIZES],
    sizes: &mut Sizes,
    page: u64,
    number: usize,
    span: Span,
)
    requires small { span.size < 45 }
    requires some { span.first < span.end }
    ensures begun { (spans : ℕ → Span) (count below later : ℕ) → AreBlocks spans count
        → AreBegun spans count below page slots.old → number < count → span ≡ spans number
        → span.first ≡ page
        → ((j : ℕ) → j < count → key_of spans j < later
        → (key_of spans j < below) ⊎ (j ≡ number))
        → AreBegun spans count later page slots.new }
    ensures few { sizes.old.bits < 2 ^ 45 → sizes.new.bits < 2 ^ 45 }
    ensures ended { HaveEndedBut sizes.old page slots.old
        → HaveEndedBut sizes.new page slots.new }
{
    sizes.insert(span.size);
    let slot = slots[span.size];
    if slot.span.end <= page || number < slot.number {
        slots[span.size] = Begun { number, span };
    }
}

/// Returns the first entry in the list that has begun and ends after the page. Removes the sizes of ended entries from
/// the set.
fn first_open(slots: &[Begun; SIZES], sizes: &mut Sizes, page: u64) -> Option<Begun>
    requires few { sizes.old.bits < 2 ^ 45 }
    requires ended { HaveEndedBut sizes.old page slots.now }
    ensures open { IfSome result (λ entry. page < entry.span.end) }
    ensures one { IfSome result (λ entry.
        (k : ℕ) × (k < 45) × ((d : Begun) → slice_index_or slots.now k d ≡ entry)) }
    ensures least { IfSome result (λ entry.
        (k : ℕ) (d : Begun) → k < 45 → page < (slice_index_or slots.now k d).span.end
        → entry.number ≤ (slice_index_or slots.now k d).number) }
    ensures none { IfNone result
        ((k : ℕ) (d : Begun) → k < 45 → (slice_index_or slots.now k d).span.end ≤ page) }
    ensures few { sizes.new.bits < 2 ^ 45 }
    ensures ended { HaveEndedBut sizes.new page slots.now }
{
    let mut open: Option<Begun> = None;
    let mut left = *sizes;
    while let Some(size) = left.least() {
        left.remove(size);
        let slot = slots[size];
        let is_first = match open {
            Some(other) => slot.number < other.number,
            None => true,
        };
        if slot.span.end <= page {
            sizes.remove(size);
        } else if is_first {
            open = Some(slot);
        }
    }
    open
}

/// Returns the piece from the page on that the begun entries give, if no other entry begins before `to`.
pub(crate) fn piece_of_begun(slots: &[Begun; SIZES], sizes: &mut Sizes, page: u64, to: u64) -> Piece
    requires order { page < to }
    requires few { sizes.old.bits < 2 ^ 45 }
    requires ended { HaveEndedBut sizes.old page slots.now }
    ensures some { page < result.end }
    ensures inside { result.end ≤ to }
    ensures value { (spans : ℕ → Span) (count below : ℕ) → AreBlocks spans count
        → AreBegun spans count below page slots.now → NoneBegins spans count below to → (at : ℕ)
        → page ≤ at → at < result.end → Decides spans count at result.perm }
    ensures few { sizes.new.bits < 2 ^ 45 }
    ensures ended { HaveEndedBut sizes.new page slots.now }
{
    match first_open(slots, sizes, page) {
        Some(open) => Piece {
            end: to.min(open.span.end),
            perm: open.span.perm,
        },
        None => Piece {
            end: to,
            perm: Perm::NoAccess,
        },
    }
}
