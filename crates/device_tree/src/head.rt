//! The first node of a list of pieces: its name, its properties, and the pieces that follow them.

ghost use Rattle.std.specs.Prelude.{◌≡◌, ◌+◌, ◌≤◌, ◌<◌, ◌++◌, ◌∷◌, ℕ, List, [], IfSome, MatchOption, drop, length, map};
ghost use Rattle.device_tree.specs.Pieces.{Part, Setting, begins, ends, has, part_of, parts_of};
ghost use Rattle.device_tree.specs.Nodes.{BeginsNoNode, HasNoProperty};
ghost use Rattle.device_tree.specs.declared.pieces.PlacedPiece.{PlacedPiece};

use crate::{Piece, PlacedPiece};

/// The start of a node, with its properties and the pieces after them.
#[derive(Clone, Copy)]
pub struct Head<'a> {
    pub offset: usize,
    pub name: &'a [u8],
    pub properties: &'a [PlacedPiece<'a>],
    pub inner: &'a [PlacedPiece<'a>],
}

/// Returns the pieces after the first `n`, of which there are at least `n`.
fn after<'a>(pieces: &'a [PlacedPiece<'a>], n: usize) -> &'a [PlacedPiece<'a>]
    requires { n ≤ length pieces.now }
    ensures pieces { result.now ≡ drop n pieces.now }
    ensures parts { parts_of result.now ≡ drop n (parts_of pieces.now) }
    ensures len { n + length result.now ≡ length pieces.now }
{
    &pieces[n..]
}

/// Returns the first piece and the rest.
fn first_of<'a>(pieces: &'a [PlacedPiece<'a>]) -> Option<(Piece<'a>, &'a [PlacedPiece<'a>])>
    ensures { MatchOption result (parts_of pieces.now ≡ []) (λ x.
        parts_of pieces.now ≡ part_of x.0 ∷ parts_of x.1.now) }
{
    let (first, later) = pieces.split_first()?;
    Some((first.piece, later))
}

/// Returns the pieces after a property, if one is first.
fn after_property<'a>(pieces: &'a [PlacedPiece<'a>]) -> Option<&'a [PlacedPiece<'a>]>
    ensures { MatchOption result (HasNoProperty (parts_of pieces.now))
        (λ later. (property : Setting)
        × (parts_of pieces.now ≡ has property ∷ parts_of later.now)) }
{
    match first_of(pieces) {
        Some((Piece::Has(_, _), later)) => Some(later),
        _ => None,
    }
}

/// Counts the properties at the front.
fn properties_len<'a>(pieces: &'a [PlacedPiece<'a>]) -> usize
    ensures within { result ≤ length pieces.now }
    ensures properties { (properties : List Setting) × (parts_of pieces.now
        ≡ map has properties ++ drop result (parts_of pieces.now)) }
    ensures no_more { HasNoProperty (drop result (parts_of pieces.now)) }
{
    let mut at = 0;
    'properties: loop {
        match after_property(after(pieces, at)) {
            Some(_) => at += 1,
            None => break 'properties,
        }
    }
    at
}

/// Splits the pieces into the properties at the front and the rest.
fn split_properties<'a>(
    pieces: &'a [PlacedPiece<'a>],
) -> (&'a [PlacedPiece<'a>], &'a [PlacedPiece<'a>])
    ensures properties { (properties : List Setting)
        × (parts_of pieces.now ≡ map has properties ++ parts_of result.1.now)
        × (parts_of result.0.now ≡ map has properties) }
    ensures no_more { HasNoProperty (parts_of result.1.now) }
    ensures pieces { pieces.now ≡ result.0.now ++ result.1.now }
    ensures len { length result.1.now ≤ length pieces.now }
{
    let count = properties_len(pieces);
    (&pieces[..count], after(pieces, count))
}

/// Returns the first node, if the pieces begin with one.
pub fn head_of<'a>(pieces: &'a [PlacedPiece<'a>]) -> Option<Head<'a>>
    ensures parts { MatchOption result (BeginsNoNode (parts_of pieces.now))
        (λ head. (properties : List Setting)
        × (parts_of pieces.now
        ≡ begins head.name.now ∷ (map has properties ++ parts_of head.inner.now))
        × (parts_of head.properties.now ≡ map has properties)
        × HasNoProperty (parts_of head.inner.now)) }
    ensures pieces { IfSome result (λ head. (first : PlacedPiece)
        × (pieces.now ≡ first ∷ (head.properties.now ++ head.inner.now))
        × (first.offset ≡ head.offset)) }
    ensures shorter { IfSome result (λ head. length head.inner.now < length pieces.now) }
{
    let (first, later) = pieces.split_first()?;
    let Piece::Begins(name) = first.piece else {
        return None;
    };
    let (properties, inner) = split_properties(later);
    Some(Head {
        offset: first.offset,
        name,
        properties,
        inner,
    })
}

/// Returns the pieces after the end of a node, which must be the first piece.
pub fn after_end<'a>(pieces: &'a [PlacedPiece<'a>]) -> &'a [PlacedPiece<'a>]
    ensures parts { (later : List Part) → parts_of pieces.now ≡ ends ∷ later
        → parts_of result.now ≡ later }
    ensures pieces { (before : List PlacedPiece) × (pieces.now ≡ before ++ result.now) }
    ensures len { length result.now ≤ length pieces.now }
{
    if pieces.is_empty() {
        return pieces;
    }
    after(pieces, 1)
}
