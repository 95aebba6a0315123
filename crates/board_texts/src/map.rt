//! The map of a board, as text.

ghost use Rattle.std.specs.Prelude.{◌≡◌, ◌≢◌, ◌++◌, ◌+◌, ◌^◌, ◌<◌, ◌≤◌, ℕ, List, IfErr, IfOk, OnOk, true};
ghost use Rattle.permission_map.specs.Runs.{AreRuns, end_of};
ghost use Rattle.device_tree.specs.declared.reservations.Reservation.{Reservation};
ghost use Rattle.device_tree.specs.Pieces.{parts_of};
ghost use Rattle.device_tree.specs.Nodes.{Tree, parts_of_tree};
ghost use Rattle.device_tree.specs.Places.{ArePlaced, Block};
ghost use Rattle.device_tree.specs.Trees.{ReadsAs};
ghost use Rattle.device_tree.specs.Meaning.{Range, TreeSays, said_of};
ghost use Rattle.board_texts.specs.Boards.{IsBoardMap, IsLateFault, IsMapOfTree, IsNoMap, IsReadFault, board_map_text, item_text, lines_text, map_head, run_text};
ghost use Rattle.board_texts.specs.Comments.{comments_on};
ghost use Rattle.board_texts.specs.Pages.{all_pages};

use crate::comments::{push_comments, push_lefts, push_reservations};
use crate::fault::BoardTextFault;
use crate::pages::all_pages;
use crate::read_back::makes;
use crate::view::{NOWHERE, board_map};
use device_tree::{Found, PlacedPiece, Reservation, ranges_of, read_tree};
use permission_map::{MapFault, PermissionMap, Run};
use pmp_encoding::{PAGE_SIZE, PageRange};
use std::alloc::{AllocError, Global};
use text_lines::{push, push_address};

/// Appends the line of a run.
fn push_run(text: &mut Vec<u8>, run: &Run) -> Result<(), AllocError>
    requires { end_of run.now ≤ 2 ^ 44 }
    ensures { OnOk result (text.new.items ≡ text.old.items ++ run_text run.now) }
{
    push_address(text, PAGE_SIZE * run.first)?;
    push(text, " ")?;
    push_address(text, PAGE_SIZE * run.count)?;
    push(text, " ")?;
    push(text, run.perm.word())?;
    push(text, "\n")
}

/// Appends a run after the comments on its ranges.
fn push_item<'a>(
    text: &mut Vec<u8>,
    run: &Run,
    found: &[Found<'a>],
    pages: &[PageRange],
) -> Result<(), AllocError>
    requires inside { end_of run.now ≤ 2 ^ 44 }
    requires paged { pages.now ≡ all_pages found.now }
    ensures { OnOk result (text.new.items
        ≡ text.old.items ++ item_text (said_of found.now) run.now) }
{
    push_comments(text, run, found, pages)?;
    push_run(text, run)
}

/// Appends the runs of a map, each after the comments on its ranges.
fn push_lines<'a>(
    text: &mut Vec<u8>,
    map: &PermissionMap,
    found: &[Found<'a>],
    pages: &[PageRange],
) -> Result<(), AllocError>
    requires { pages.now ≡ all_pages found.now }
    ensures { OnOk result (text.new.items
        ≡ text.old.items ++ lines_text (said_of found.now) map.now) }
{
    for run in map.ranges() {
        push_item(text, run, found, pages)?;
    }
    Ok(())
}

/// Returns the first lines of a map.
#[tactic(auto, unfolding(crate::specs::Boards::map_head))]
fn map_head() -> &'static str
    ensures { result.now ≡ map_head }
{
    "# The map of a device tree: memory rwx, devices rw. It does not name nodes that are\n# not in use, /reserved-memory without no-map or reg, and what is reached through PCI.\n"
}

/// Returns the text of a map. The only error is a failed allocation.
fn text_of<'a>(
    alloc: Global,
    map: &PermissionMap,
    found: &[Found<'a>],
    reservations: &[Reservation],
) -> Result<Vec<u8>, AllocError>
    ensures { IfOk result (λ text. text.items
        ≡ board_map_text (said_of found.now) reservations.now map.now) }
{
    let mut text = Vec::new(alloc);
    push(&mut text, map_head())?;
    let pages = all_pages(alloc, found)?;
    push_lines(&mut text, map, found, pages.as_slice())?;
    push_lefts(&mut text, map.ranges(), found)?;
    push_reservations(&mut text, reservations)?;
    Ok(text)
}

/// Returns the map of a board as text.
fn map_of_board<'a>(
    alloc: Global,
    found: &[Found<'a>],
    reservations: &[Reservation],
) -> Result<Vec<u8>, BoardTextFault>
    ensures ok { IfOk result (λ text.
        IsBoardMap (said_of found.now) reservations.now text.items) }
    ensures refused { IfErr result IsLateFault }
{
    let map = match board_map(alloc, found, NOWHERE) {
        Ok(map) => map,
        Err(MapFault::Memory) => return Err(BoardTextFault::Memory),
        Err(_) => return Err(BoardTextFault::TooManyRanges),
    };
    let Ok(text) = text_of(alloc, &map, found, reservations) else {
        return Err(BoardTextFault::Memory);
    };
    match makes(alloc, text.as_slice(), &map) {
        Ok(true) => Ok(text),
        Ok(false) => Err(BoardTextFault::NotReadBack),
        Err(_) => Err(BoardTextFault::Memory),
    }
}

/// Returns the map of the board whose tree has these pieces, as text.
fn map_of_pieces<'a>(
    alloc: Global,
    pieces: &'a [PlacedPiece<'a>],
    reservations: &[Reservation],
) -> Result<Vec<u8>, BoardTextFault>
    ensures ok { IfOk result (λ text. (tree : Tree) → parts_of pieces.now ≡ parts_of_tree tree
        → (ranges : List Range) × TreeSays tree ranges
        × IsBoardMap ranges reservations.now text.items) }
    ensures refused { IfErr result (λ fault. (block : Block) (tree : Tree)
        → parts_of pieces.now ≡ parts_of_tree tree → ArePlaced block pieces.now
        → IsReadFault block tree fault) }
{
    let found = match ranges_of(alloc, pieces) {
        Ok(found) => found,
        Err(fault) => return Err(BoardTextFault::Ranges(fault)),
    };
    match map_of_board(alloc, found.as_slice(), reservations) {
        Ok(text) => Ok(text),
        Err(fault) => Err(fault),
    }
}

/// Returns the map of a board as text, given bytes that begin with its flattened device tree.
///
/// Fails if the bytes do not begin with a tree, if the tree gives no valid ranges, if the map has more than 4096, or if
/// an allocation fails.
pub fn map_text_of(alloc: Global, bytes: &[u8]) -> Result<Vec<u8>, BoardTextFault>
    ensures ok { IfOk result (λ text. IsMapOfTree bytes.now text.items) }
    ensures refused { IfErr result (IsNoMap bytes.now) }
{
    let tree = match read_tree(alloc, bytes) {
        Ok(tree) => tree,
        Err(fault) => return Err(BoardTextFault::Tree(fault)),
    };
    match map_of_pieces(alloc, tree.pieces.as_slice(), tree.reservations.as_slice()) {
        Ok(text) => Ok(text),
        Err(fault) => Err(fault),
    }
}
