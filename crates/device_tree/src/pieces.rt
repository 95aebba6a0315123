//! The pieces of the structure block.

ghost use Rattle.std.specs.Prelude.{◌≡◌, ◌+◌, ◌<◌, ◌≤◌, ◌^◌, ◌≢◌, ℕ, List, IfOk, IfErr, MatchResult, length, drop};
ghost use Rattle.device_tree.specs.declared.pieces.Token.{Token};
ghost use Rattle.device_tree.specs.Words.{BeginsWith, BeginsWithText, Leaves, padded};
ghost use Rattle.device_tree.specs.Pieces.{IsStep, NoPart, Part, SpellsPart, SpellsParts, part_of, parts_of, token_number};
ghost use Rattle.device_tree.specs.Places.{ArePlaced, block_at};
ghost use Rattle.device_tree.specs.Refusals.{IsTokenFault, IsTokenFaultIn};

use crate::fault::{TreeFault, TreeReason};
use crate::words::{after, behind, padded, text_in};
use byteorder::{BigEndian, ByteOrder};
use std::alloc::Global;

/// The token at the start of a piece.
#[derive(Clone, Copy)]
pub(crate) enum Token {
    BeginNode,
    EndNode,
    Property,
    Nop,
    End,
}

/// A piece of the structure block.
#[derive(Clone, Copy)]
pub enum Piece<'a> {
    /// The start of a node, with its name and unit address.
    Begins(&'a [u8]),
    /// A property of the current node: its name and its value.
    Has(&'a [u8], &'a [u8]),
    /// The end of the current node.
    Ends,
}

/// Reads the token at the front.
fn token_in(bytes: &[u8]) -> Result<Token, TreeReason>
    ensures token { MatchResult result (λ token. BeginsWith bytes.now (token_number token))
        (λ _. (token : Token) → BeginsWith bytes.now (token_number token) → ⊥) }
    ensures reason { IfErr result (λ reason. (strings : List ℕ)
        → IsTokenFault strings bytes.now reason) }
{
    if bytes.len() < 4 {
        return Err(TreeReason::NoToken);
    }
    match BigEndian::read_u32(bytes) {
        1 => Ok(Token::BeginNode),
        2 => Ok(Token::EndNode),
        3 => Ok(Token::Property),
        4 => Ok(Token::Nop),
        9 => Ok(Token::End),
        _ => Err(TreeReason::UnknownToken),
    }
}

/// Reads the start of a node at the front, and returns the rest.
fn node_in<'a>(strings: &[u8], bytes: &'a [u8]) -> Result<(Piece<'a>, &'a [u8]), TreeReason>
    requires { BeginsWith bytes.now 1 }
    ensures part { MatchResult result (λ x.
        SpellsPart strings.now bytes.now (part_of x.0) x.1.now)
        (λ _. NoPart strings.now bytes.now) }
    ensures reason { IfErr result (IsTokenFault strings.now bytes.now) }
{
    let Some(name) = text_in(after(bytes, 4)) else {
        return Err(TreeReason::UnendedName);
    };
    let Some(rest) = behind(bytes, 4 + padded(name.len() + 1)) else {
        return Err(TreeReason::PastBlock);
    };
    Ok((Piece::Begins(name), rest))
}

/// Reads a property at the front, and returns the rest.
fn property_in<'a>(strings: &'a [u8], bytes: &'a [u8]) -> Result<(Piece<'a>, &'a [u8]), TreeReason>
    requires { BeginsWith bytes.now 3 }
    ensures part { MatchResult result (λ x.
        SpellsPart strings.now bytes.now (part_of x.0) x.1.now)
        (λ _. NoPart strings.now bytes.now) }
    ensures reason { IfErr result (IsTokenFault strings.now bytes.now) }
{
    if bytes.len() < 12 {
        return Err(TreeReason::PastBlock);
    }
    let len = BigEndian::read_u32(after(bytes, 4)) as usize;
    let place = BigEndian::read_u32(after(bytes, 8)) as usize;
    let Some(names) = behind(strings, place) else {
        return Err(TreeReason::NoPropertyName);
    };
    let Some(name) = text_in(names) else {
        return Err(TreeReason::NoPropertyName);
    };
    let Some(rest) = behind(bytes, 12 + padded(len)) else {
        return Err(TreeReason::PastBlock);
    };
    let (value, _) = after(bytes, 12).split_at(len);
    Ok((Piece::Has(name, value), rest))
}

/// The next token of the block: the end, one without a piece, or one with a piece.
enum Step<'a> {
    Stop,
    Skip(&'a [u8]),
    Take(Piece<'a>, &'a [u8]),
}

/// Reads the piece of a token, and returns the rest.
fn part_in<'a>(strings: &'a [u8], bytes: &'a [u8], token: Token) -> Result<Step<'a>, TreeReason>
    requires { BeginsWith bytes.now (token_number token) }
    ensures step { MatchResult result (IsStep strings.now bytes.now)
        (λ _. (parts : List Part) → SpellsParts strings.now bytes.now parts → ⊥) }
    ensures reason { IfErr result (IsTokenFault strings.now bytes.now) }
{
    match token {
        Token::BeginNode => {
            let (piece, rest) = node_in(strings, bytes)?;
            Ok(Step::Take(piece, rest))
        }
        Token::EndNode => Ok(Step::Take(Piece::Ends, after(bytes, 4))),
        Token::Property => {
            let (piece, rest) = property_in(strings, bytes)?;
            Ok(Step::Take(piece, rest))
        }
        Token::Nop => Ok(Step::Skip(after(bytes, 4))),
        Token::End => {
            if bytes.len() > 4 {
                return Err(TreeReason::BytesBehindEnd);
            }
            Ok(Step::Stop)
        }
    }
}

/// Reads the next token with its piece.
#[tactic(auto, using(crate::proofs::TreeParts::no_token))]
fn step_in<'a>(strings: &'a [u8], bytes: &'a [u8]) -> Result<Step<'a>, TreeReason>
    ensures step { MatchResult result (IsStep strings.now bytes.now)
        (λ _. (parts : List Part) → SpellsParts strings.now bytes.now parts → ⊥) }
    ensures reason { IfErr result (IsTokenFault strings.now bytes.now) }
{
    match token_in(bytes) {
        Ok(token) => part_in(strings, bytes, token),
        Err(reason) => Err(reason),
    }
}

/// A piece, and the offset of its first byte in the tree.
#[derive(Clone, Copy)]
pub struct PlacedPiece<'a> {
    pub offset: usize,
    pub piece: Piece<'a>,
}

/// Reads the pieces of a structure block at offset `start`.
pub(crate) fn pieces_in<'a>(
    alloc: Global,
    strings: &'a [u8],
    block: &'a [u8],
    start: usize,
) -> Result<Vec<PlacedPiece<'a>>, TreeFault>
    requires { start + length block.now < 2 ^ 64 }
    ensures ok { IfOk result (λ pieces.
        SpellsParts strings.now block.now (parts_of pieces.items)) }
    ensures refused { IfErr result (λ fault. fault.reason ≢ TreeReason.Memory
        → (parts : List Part) → SpellsParts strings.now block.now parts → ⊥) }
    ensures places { IfOk result (λ pieces.
        ArePlaced (block_at strings.now block.now start) pieces.items) }
    ensures reason { IfErr result (λ fault. fault.reason ≢ TreeReason.Memory
        → IsTokenFaultIn (block_at strings.now block.now start) fault) }
{
    let mut pieces = Vec::new(alloc);
    let mut rest = block;
    'pieces: loop {
        let offset = start + (block.len() - rest.len());
        match step_in(strings, rest) {
            Err(reason) => return Err(TreeFault { reason, offset }),
            Ok(Step::Stop) => break 'pieces,
            Ok(Step::Skip(later)) => rest = later,
            Ok(Step::Take(piece, later)) => {
                let Ok(()) = pieces.push(PlacedPiece { offset, piece }) else {
                    return Err(TreeFault {
                        reason: TreeReason::Memory,
                        offset,
                    });
                };
                rest = later;
            }
        }
    }
    Ok(pieces)
}
