//! The nesting of nodes: checks that the pieces form a tree.

ghost use Rattle.std.specs.Prelude.{◌≡◌, ℕ, List, [], ◌∷◌, ◌++◌, IfErr, IfOk, IfSome, OnErr, OnOk, MatchOption, ◌≤◌, drop, length, map};
ghost use Rattle.device_tree.specs.Pieces.{Part, Setting, begins, ends, has, part_of, parts_of};
ghost use Rattle.device_tree.specs.Nodes.{AreNodesBefore, BeginsNoNode, HasNoProperty, IsTreeOf, Nodes, Tree};
ghost use Rattle.device_tree.specs.Refusals.{IsNestingFault, IsShapeFault, IsWrongAt, offset_of, open_reason};

use crate::fault::{TreeFault, TreeReason};
use crate::pieces::{Piece, PlacedPiece};

/// Maximum nesting depth below the root.
const LEVELS: usize = 63;

/// Returns the first piece and the rest.
fn first_of<'a>(pieces: &'a [PlacedPiece<'a>]) -> Option<(Piece<'a>, &'a [PlacedPiece<'a>])>
    ensures parts { MatchOption result (parts_of pieces.now ≡ []) (λ x.
        parts_of pieces.now ≡ part_of x.0 ∷ parts_of x.1.now) }
    ensures rest { IfSome result (λ x. x.1.now ≡ drop 1 pieces.now) }
{
    let (first, later) = pieces.split_first()?;
    Some((first.piece, later))
}

/// Returns the pieces after the start of a node, if it is first.
fn after_begin<'a>(pieces: &'a [PlacedPiece<'a>]) -> Option<&'a [PlacedPiece<'a>]>
    ensures parts { MatchOption result (BeginsNoNode (parts_of pieces.now))
        (λ later. (name : List ℕ)
        × (parts_of pieces.now ≡ begins name ∷ parts_of later.now)) }
    ensures rest { IfSome result (λ later. later.now ≡ drop 1 pieces.now) }
{
    match first_of(pieces) {
        Some((Piece::Begins(_), later)) => Some(later),
        _ => None,
    }
}

/// Returns the pieces after the start of a root, whose name is empty, if it is first.
fn after_root<'a>(pieces: &'a [PlacedPiece<'a>]) -> Option<&'a [PlacedPiece<'a>]>
    ensures parts { MatchOption result
        ((later : List Part) → parts_of pieces.now ≡ begins [] ∷ later → ⊥)
        (λ later. parts_of pieces.now ≡ begins [] ∷ parts_of later.now) }
    ensures rest { IfSome result (λ later. later.now ≡ drop 1 pieces.now) }
{
    match first_of(pieces) {
        Some((Piece::Begins(name), later)) => {
            if name.is_empty() {
                return Some(later);
            }
            None
        }
        _ => None,
    }
}

/// Returns the pieces after the end of a node, if it is first.
fn after_end<'a>(pieces: &'a [PlacedPiece<'a>]) -> Option<&'a [PlacedPiece<'a>]>
    ensures parts { MatchOption result
        ((later : List Part) → parts_of pieces.now ≡ ends ∷ later → ⊥)
        (λ later. parts_of pieces.now ≡ ends ∷ parts_of later.now) }
    ensures rest { IfSome result (λ later. later.now ≡ drop 1 pieces.now) }
{
    match first_of(pieces) {
        Some((Piece::Ends, later)) => Some(later),
        _ => None,
    }
}

/// Returns the pieces after a property, if it is first.
fn after_property<'a>(pieces: &'a [PlacedPiece<'a>]) -> Option<&'a [PlacedPiece<'a>]>
    ensures { MatchOption result (HasNoProperty (parts_of pieces.now))
        (λ later. (property : Setting)
        × (parts_of pieces.now ≡ has property ∷ parts_of later.now)) }
{
    match first_of(pieces) {
        Some((Piece::Has(_, _), later)) => Some(later),
        _ => None,
    }
}

/// Returns the pieces after the first `n`, of which there are at least `n`.
fn after<'a>(pieces: &'a [PlacedPiece<'a>], n: usize) -> &'a [PlacedPiece<'a>]
    requires { n ≤ length pieces.now }
    ensures parts { parts_of result.now ≡ drop n (parts_of pieces.now) }
    ensures pieces { result.now ≡ drop n pieces.now }
{
    &pieces[n..]
}

/// Counts the properties at the front.
fn properties_len<'a>(pieces: &'a [PlacedPiece<'a>]) -> usize
    ensures within { result ≤ length pieces.now }
    ensures properties { (properties : List Setting) × (parts_of pieces.now
        ≡ map has properties ++ drop result (parts_of pieces.now)) }
    ensures no_more { HasNoProperty (drop result (parts_of pieces.now)) }
{
    let mut at = 0;
    'properties: loop {
        match after_property(after(pieces, at)) {
            Some(_) => at += 1,
            None => break 'properties,
        }
    }
    at
}

/// Returns the offset of the first piece, or `end` if there is none.
fn offset_of<'a>(pieces: &'a [PlacedPiece<'a>], end: usize) -> usize
    ensures { result ≡ offset_of pieces.now end }
{
    match pieces.first() {
        Some(placed) => placed.offset,
        None => end,
    }
}

/// Returns the fault for nodes that are nested too deeply, from the first of these pieces on.
fn too_deep<'a>(pieces: &'a [PlacedPiece<'a>], end: usize) -> TreeFault
    ensures reason { result.reason ≡ TreeReason.TooDeep }
    ensures offset { result.offset ≡ offset_of pieces.now end }
{
    TreeFault {
        reason: TreeReason::TooDeep,
        offset: offset_of(pieces, end),
    }
}

/// Returns the fault for a node that does not end before the first of these pieces.
fn not_ended<'a>(pieces: &'a [PlacedPiece<'a>], end: usize) -> TreeFault
    ensures reason { result.reason ≡ open_reason (parts_of pieces.now) }
    ensures offset { result.offset ≡ offset_of pieces.now end }
{
    let reason = if pieces.is_empty() {
        TreeReason::UnendedNode
    } else {
        TreeReason::LateProperty
    };
    TreeFault {
        reason,
        offset: offset_of(pieces, end),
    }
}

/// Counts the pieces of the nodes at the front, which have at most `levels` levels.
fn nodes_len<'a>(
    pieces: &'a [PlacedPiece<'a>],
    levels: usize,
    end: usize,
) -> Result<usize, TreeFault>
    ensures within { IfOk result (λ n. n ≤ length pieces.now) }
    ensures ok { IfOk result (λ n. (nodes : Nodes)
        × AreNodesBefore levels (parts_of pieces.now) nodes (drop n (parts_of pieces.now))) }
    ensures refused { OnErr result ((nodes : Nodes) (later : List Part)
        → AreNodesBefore levels (parts_of pieces.now) nodes later → ⊥) }
    ensures reason { IfErr result (IsWrongAt (IsNestingFault levels) pieces.now end) }
{
    let mut at = 0;
    'nodes: loop {
        let Some(inner) = after_begin(after(pieces, at)) else {
            break 'nodes;
        };
        if levels == 0 {
            return Err(too_deep(after(pieces, at), end));
        }
        let properties = properties_len(inner);
        let children = after(inner, properties);
        let len = match nodes_len(children, levels - 1, end) {
            Ok(len) => len,
            Err(fault) => return Err(fault),
        };
        let behind = after(children, len);
        let Some(_) = after_end(behind) else {
            return Err(not_ended(behind, end));
        };
        at += properties + len + 2;
    }
    Ok(at)
}

/// Checks that the pieces, which end at offset `end`, form a tree.
pub(crate) fn check_tree<'a>(pieces: &'a [PlacedPiece<'a>], end: usize) -> Result<(), TreeFault>
    ensures ok { OnOk result ((tree : Tree) × IsTreeOf (parts_of pieces.now) tree) }
    ensures refused { OnErr result ((tree : Tree) → IsTreeOf (parts_of pieces.now) tree → ⊥) }
    ensures reason { IfErr result (IsWrongAt IsShapeFault pieces.now end) }
{
    let Some(inner) = after_root(pieces) else {
        return Err(TreeFault {
            reason: TreeReason::NoRoot,
            offset: offset_of(pieces, end),
        });
    };
    let properties = properties_len(inner);
    let children = after(inner, properties);
    let len = match nodes_len(children, LEVELS, end) {
        Ok(len) => len,
        Err(fault) => return Err(fault),
    };
    let behind = after(children, len);
    let Some(later) = after_end(behind) else {
        return Err(not_ended(behind, end));
    };
    if !later.is_empty() {
        return Err(TreeFault {
            reason: TreeReason::PieceBehindRoot,
            offset: offset_of(later, end),
        });
    }
    Ok(())
}
