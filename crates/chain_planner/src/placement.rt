//! The pass down the tree that places the entries and the changes of the chain.

ghost use Rattle.std.specs.Prelude.{◌≡◌, ◌+◌, ◌≤◌, ◌<◌, ◌^◌, ◌++◌, IfOk, OnOk};
ghost use Rattle.prefix_tree.specs.Counts.{last_perm};
ghost use Rattle.prefix_tree.specs.Trees.{Fits, Split};
ghost use Rattle.entry_planner.specs.Placement.{ArePages};
ghost use Rattle.chain_planner.specs.Choices.{IsCosted, tree_in};
ghost use Rattle.chain_planner.specs.Placed.{AddsBegun, AddsBlock, AddsHalves, AddsPassed, AddsPlaced};
ghost use Rattle.chain_planner.specs.Turns.{turn_to, turns_in};

use crate::costed::{Costed, Parts};
use crate::costs::{is_followed, perm_at};
use crate::turns::Turn;
use entry_planner::{PageBlock, entry_of};
use pmp_encoding::{Entry, Perm};
use std::alloc::AllocError;

/// The entry under which a chain begins, and the permission with which it does.
#[derive(Clone, Copy)]
pub struct Beginning {
    pub entry: Entry,
    pub perm: Perm,
}

/// Adds the change of a chain at a page, where there is one.
fn push_turn(page: u64, from: Perm, to: Perm, turns: &mut Vec<Turn>) -> Result<(), AllocError>
    ensures { OnOk result (turns.new.items ≡ turns.old.items ++ turn_to page from to) }
{
    if from != to {
        turns.push(Turn { page, perm: to })?;
    }
    Ok(())
}

/// Adds the entries of a block that inherits a permission, without a chain.
fn place_own(
    block: &Costed,
    pages: PageBlock,
    inherited: Perm,
    entries: &mut Vec<Entry>,
) -> Result<(), AllocError>
    requires fits { Fits pages.log2 (tree_in block.now) }
    requires choices { IsCosted block.now }
    requires pages { ArePages pages.log2 pages.first }
    ensures { OnOk result (AddsPlaced pages.log2 pages.first inherited (tree_in block.now)
        entries.old.items entries.new.items) }
{
    match block.parts() {
        Parts::Leaf(perm) => {
            if perm != inherited {
                entries.push(entry_of(pages, perm))?;
            }
            Ok(())
        }
        Parts::Halves(lower, upper, choices) => {
            if choices.own.at(inherited) == 0 {
                place_own(lower, pages.lower(), inherited, entries)?;
                place_own(upper, pages.upper(), inherited, entries)?;
                return Ok(());
            }
            let cover = choices.cover;
            place_own(lower, pages.lower(), cover, entries)?;
            place_own(upper, pages.upper(), cover, entries)?;
            entries.push(entry_of(pages, cover))?;
            Ok(())
        }
    }
}

/// Adds the entries of the two halves of a block where both inherit a permission.
fn place_halves(
    lower: &Costed,
    upper: &Costed,
    pages: PageBlock,
    inherited: Perm,
    entries: &mut Vec<Entry>,
) -> Result<(), AllocError>
    requires fits { Fits pages.log2 (Split (tree_in lower.now) (tree_in upper.now)) }
    requires lower { IsCosted lower.now }
    requires upper { IsCosted upper.now }
    requires pages { ArePages pages.log2 pages.first }
    ensures { OnOk result (AddsHalves pages.log2 pages.first inherited
        (tree_in lower.now) (tree_in upper.now) entries.old.items entries.new.items) }
{
    place_own(lower, pages.lower(), inherited, entries)?;
    place_own(upper, pages.upper(), inherited, entries)?;
    Ok(())
}

/// Adds an entry of a whole block and the change of the chain that it hides.
fn place_cover(
    pages: PageBlock,
    perm: Perm,
    from: Perm,
    to: Perm,
    entries: &mut Vec<Entry>,
    turns: &mut Vec<Turn>,
) -> Result<(), AllocError>
    requires { ArePages pages.log2 pages.first }
    ensures entries { OnOk result (AddsBlock pages.log2 pages.first perm
        entries.old.items entries.new.items) }
    ensures turns { OnOk result (turns.new.items
        ≡ turns.old.items ++ turn_to pages.first from to) }
{
    entries.push(entry_of(pages, perm))?;
    push_turn(pages.first, from, to, turns)?;
    Ok(())
}

/// Adds the entries and the changes of a block that a chain passes, with a permission at its lower and one at its upper edge.
pub fn place_through(
    block: &Costed,
    pages: PageBlock,
    from: Perm,
    to: Perm,
    entries: &mut Vec<Entry>,
    turns: &mut Vec<Turn>,
) -> Result<(), AllocError>
    requires fits { Fits pages.log2 (tree_in block.now) }
    requires choices { IsCosted block.now }
    requires pages { ArePages pages.log2 pages.first }
    ensures { OnOk result (AddsPassed pages.log2 pages.first from to (tree_in block.now)
        entries.old.items entries.new.items turns.old.items turns.new.items) }
{
    match block.parts() {
        Parts::Leaf(perm) => {
            if is_followed(perm, from, to) {
                return Ok(());
            }
            place_cover(pages, perm, from, to, entries, turns)?;
            Ok(())
        }
        Parts::Halves(lower, upper, choices) => {
            let choice = choices.through.at(from).at(to) as u32;
            if choice < 48 {
                let below = perm_at(choice / 8);
                let above = perm_at(choice % 8);
                let high = pages.upper();
                place_through(lower, pages.lower(), from, below, entries, turns)?;
                push_turn(high.first, below, above, turns)?;
                place_through(upper, high, above, to, entries, turns)?;
                return Ok(());
            }
            place_halves(lower, upper, pages, choices.cover, entries)?;
            place_cover(pages, choices.cover, from, to, entries, turns)?;
            Ok(())
        }
    }
}

/// Adds the entries and the changes of a block in which a chain begins, but for the entry under which it does.
pub fn place_beginning(
    block: &Costed,
    pages: PageBlock,
    to: Perm,
    entries: &mut Vec<Entry>,
    turns: &mut Vec<Turn>,
) -> Result<Beginning, AllocError>
    requires fits { Fits pages.log2 (tree_in block.now) }
    requires choices { IsCosted block.now }
    requires pages { ArePages pages.log2 pages.first }
    ensures { IfOk result (λ b. AddsBegun pages.log2 pages.first to (tree_in block.now)
        b.entry b.perm entries.old.items entries.new.items turns.old.items turns.new.items) }
{
    match block.parts() {
        Parts::Leaf(perm) => Ok(Beginning {
            entry: entry_of(pages, perm),
            perm: to,
        }),
        Parts::Halves(lower, upper, choices) => {
            let choice = choices.begins.at(to) as u32;
            if choice < 48 {
                let below = perm_at(choice / 8);
                let above = perm_at(choice % 8);
                let high = pages.upper();
                let beginning = place_beginning(lower, pages.lower(), below, entries, turns)?;
                push_turn(high.first, below, above, turns)?;
                place_through(upper, high, above, to, entries, turns)?;
                return Ok(beginning);
            }
            if choice == 48 {
                place_halves(lower, upper, pages, choices.cover, entries)?;
                return Ok(Beginning {
                    entry: entry_of(pages, choices.cover),
                    perm: to,
                });
            }
            place_own(lower, pages.lower(), Perm::NoAccess, entries)?;
            let beginning = place_beginning(upper, pages.upper(), to, entries, turns)?;
            Ok(beginning)
        }
    }
}

/// Adds the changes of a chain that follows a block, and answers the permission of its last page.
pub fn place_alone(
    block: &Costed,
    pages: PageBlock,
    from: Perm,
    turns: &mut Vec<Turn>,
) -> Result<Perm, AllocError>
    requires fits { Fits pages.log2 (tree_in block.now) }
    requires choices { IsCosted block.now }
    requires pages { ArePages pages.log2 pages.first }
    ensures last { IfOk result (λ perm. perm ≡ last_perm (tree_in block.now)) }
    ensures turns { OnOk result (turns.new.items ≡ turns.old.items
        ++ turns_in pages.log2 pages.first from (tree_in block.now)) }
{
    match block.parts() {
        Parts::Leaf(perm) => {
            push_turn(pages.first, from, perm, turns)?;
            Ok(perm)
        }
        Parts::Halves(lower, upper, _) => {
            let middle = place_alone(lower, pages.lower(), from, turns)?;
            let last = place_alone(upper, pages.upper(), middle, turns)?;
            Ok(last)
        }
    }
}
