//! The pass down the tree, which chooses the blocks that get an entry.

use crate::costs::SplitCost;
use crate::shelves::Shelves;
use crate::sibling::sibling_of;
use pmp_encoding::{Entry, PAGE_SIZE, PackedEntry, Perm, Region, pages_of};
use prefix_tree::{Chain, Halving};
use std::alloc::AllocError;

/// An aligned block of 2^log2 pages.
#[derive(Clone, Copy)]
pub struct PageBlock {
    pub first: u64,
    pub log2: u32,
}

ghost use Rattle.std.specs.Prelude.{◌≡◌, ◌+◌, ◌-◌, ◌*◌, ◌%◌, ◌≤◌, ◌<◌, ◌^◌, ◌++◌, List, [], ◌∷◌, false, IfOk, OnOk, IfSome, IfNone, reverse};
ghost use Rattle.pmp_encoding.specs.declared.region.Entry.{Entry};
ghost use Rattle.prefix_tree.specs.Chains.{chained};
ghost use Rattle.prefix_tree.specs.Trees.{PermTree, Fits};
ghost use Rattle.entry_planner.specs.declared.costs.SplitCost.{SplitCost};
ghost use Rattle.entry_planner.specs.Choice.{AddsChosen, AddsOwn, handed_on};
ghost use Rattle.entry_planner.specs.Placement.{ArePages, IsBlockOf, IsOwn, place_at};
ghost use Rattle.entry_planner.specs.SplitCosts.{split_cost, splits_in};
ghost use Rattle.entry_planner.specs.Shelves.{is_free};

impl PageBlock {
    /// Its lower half.
    pub fn lower(self) -> PageBlock
        requires split { 0 < self.log2 }
        requires pages { ArePages self.log2 self.first }
        ensures first { result.first ≡ self.first }
        ensures log2 { result.log2 + 1 ≡ self.log2 }
        ensures pages { ArePages result.log2 result.first }
    {
        PageBlock {
            first: self.first,
            log2: self.log2 - 1,
        }
    }

    /// Returns one of the equal parts after halving the block `levels` times, by the number of parts that precede it.
    #[inline(always)]
    fn part(self, levels: u32, place: u64) -> PageBlock
        requires levels { levels ≤ self.log2 }
        requires place { place < 2 ^ levels }
        requires pages { ArePages self.log2 self.first }
        ensures first { result.first ≡ self.first + place * 2 ^ result.log2 }
        ensures log2 { result.log2 + levels ≡ self.log2 }
        ensures pages { ArePages result.log2 result.first }
    {
        let log2 = self.log2 - levels;
        PageBlock {
            first: self.first + place * pages_of(log2),
            log2,
        }
    }

    /// Its upper half.
    pub fn upper(self) -> PageBlock
        requires split { 0 < self.log2 }
        requires pages { ArePages self.log2 self.first }
        ensures first { result.first ≡ self.first + 2 ^ (self.log2 - 1) }
        ensures log2 { result.log2 + 1 ≡ self.log2 }
        ensures pages { ArePages result.log2 result.first }
    {
        PageBlock {
            first: self.first + pages_of(self.log2 - 1),
            log2: self.log2 - 1,
        }
    }
}

/// Returns the permission that the halves of a split block inherit: the first that is best for both, if there is one
/// and the permission that the block inherits is best for neither; otherwise the inherited one.
fn halves_perm(cost: SplitCost, inherited: Perm) -> Perm
    ensures { (low high : PermTree) → cost ≡ split_cost low high
        → result ≡ handed_on low high inherited }
{
    if cost.either.contains(inherited) {
        return inherited;
    }
    match cost.both.first() {
        Some(perm) => perm,
        None => inherited,
    }
}

/// Returns the entry that gives a block a permission.
#[inline(always)]
pub fn entry_of(pages: PageBlock, perm: Perm) -> Entry
    requires { ArePages pages.log2 pages.first }
    ensures { IsBlockOf pages.log2 pages.first perm result }
{
    Entry {
        region: Region {
            base: pages.first * PAGE_SIZE,
            log2: pages.log2 + 12,
        },
        perm,
    }
}

/// Returns the entry that gives a block its permission, unless that is the inherited one.
#[inline(always)]
fn own_entry(pages: PageBlock, inherited: Perm, perm: Perm) -> Option<PackedEntry>
    requires { ArePages pages.log2 pages.first }
    ensures some { IfSome result (λ e. IsOwn pages.log2 pages.first inherited perm (e ∷ [])) }
    ensures none { IfNone result (IsOwn pages.log2 pages.first inherited perm []) }
    ensures whole { IfSome result (λ e. is_free e ≡ false) }
{
    if perm != inherited {
        return Some(PackedEntry::new(entry_of(pages, perm)));
    }
    None
}

/// Adds the entry that gives a block its permission, unless that is the inherited one. The entry of a lower half goes
/// before that of the upper half.
#[inline(always)]
fn push_entry_in_order(
    pages: PageBlock,
    inherited: Perm,
    perm: Perm,
    entries: &mut Shelves,
) -> Result<(), AllocError>
    requires { ArePages pages.log2 pages.first }
    ensures { OnOk result (AddsOwn pages.log2 pages.first inherited perm entries.old entries.new) }
{
    if let Some(entry) = own_entry(pages, inherited, perm) {
        entries.push_in_order(entry)?;
    }
    Ok(())
}

/// As above, for the half beside the next block of a chain. No entry of its size has a higher address, so it goes last.
#[inline(always)]
fn push_entry(
    pages: PageBlock,
    inherited: Perm,
    perm: Perm,
    entries: &mut Shelves,
) -> Result<(), AllocError>
    requires { ArePages pages.log2 pages.first }
    ensures { OnOk result (AddsOwn pages.log2 pages.first inherited perm entries.old entries.new) }
{
    if let Some(entry) = own_entry(pages, inherited, perm) {
        entries.push(entry)?;
    }
    Ok(())
}

/// Returns the number of blocks of its size that precede the block of a chain after `depth` halvings.
#[inline(always)]
fn place_at(chain: Chain, depth: u32) -> u64
    requires depth { depth ≤ chain.levels }
    requires most { chain.levels ≤ 44 }
    ensures { result ≡ place_at chain depth }
{
    chain.place / pages_of(chain.levels - depth)
}

/// Returns the position of the other half, given that of one.
#[inline(always)]
fn sibling_index(place: u64) -> u64
    requires { place < 2 ^ 44 }
    ensures upper { place % 2 ≡ 1 → result + 1 ≡ place }
    ensures lower { place % 2 ≡ 0 → result ≡ place + 1 }
{
    if place % 2 == 1 { place - 1 } else { place + 1 }
}

/// Adds the entries of the largest block of a chain, as [`place_entries`] does.
#[cycle(placing)]
fn place_chain<'a, H: Halving>(
    chain: Chain,
    smallest: &H,
    pages: PageBlock,
    inherited: Perm,
    costs: &'a [SplitCost],
    entries: &mut Shelves,
) -> Result<&'a [SplitCost], AllocError>
    requires chain { chain.place < 2 ^ chain.levels }
    requires most { chain.levels ≤ 44 }
    requires fits { Fits pages.log2 (chained chain (H.shape smallest.now)) }
    requires pages { ArePages pages.log2 pages.first }
    requires costs { (rest : List SplitCost)
        × (costs.now ≡ rest ++ reverse (splits_in (chained chain (H.shape smallest.now)))) }
    ensures rest { IfOk result (λ rest.
        costs.now ≡ rest.now ++ reverse (splits_in (chained chain (H.shape smallest.now)))) }
    ensures placed { OnOk result
        (AddsChosen pages.log2 pages.first inherited (chained chain (H.shape smallest.now))
        entries.old entries.new) }
{
    let mut from = inherited;
    let mut left = costs;
    for depth in 0..chain.levels {
        let [others @ .., cost] = left else {
            unreachable!();
        };
        let perm = halves_perm(*cost, from);
        push_entry_in_order(
            pages.part(depth, place_at(chain, depth)),
            from,
            perm,
            entries,
        )?;
        let place = place_at(chain, depth + 1);
        let half = pages.part(depth + 1, sibling_index(place));
        let own = sibling_of(place, chain.before, chain.behind);
        push_entry(half, perm, own, entries)?;
        from = perm;
        left = others;
    }
    let block = pages.part(chain.levels, chain.place);
    let others = place_entries(smallest, block, from, left, entries)?;
    Ok(others)
}

/// Adds the entries of a block that inherits a permission. The costs of its split blocks are the last of the list, in
/// reverse preorder; the costs before them are returned.
#[cycle(placing)]
pub fn place_entries<'a, H: Halving>(
    block: &H,
    pages: PageBlock,
    inherited: Perm,
    costs: &'a [SplitCost],
    entries: &mut Shelves,
) -> Result<&'a [SplitCost], AllocError>
    requires fits { Fits pages.log2 (H.shape block.now) }
    requires pages { ArePages pages.log2 pages.first }
    requires costs { (rest : List SplitCost)
        × (costs.now ≡ rest ++ reverse (splits_in (H.shape block.now))) }
    ensures rest { IfOk result (λ rest. costs.now ≡ rest.now
        ++ reverse (splits_in (H.shape block.now))) }
    ensures placed { OnOk result (AddsChosen pages.log2 pages.first inherited (H.shape block.now)
        entries.old entries.new) }
{
    if let Some(perm) = block.one_perm() {
        push_entry_in_order(pages, inherited, perm, entries)?;
        return Ok(costs);
    }
    if let Some((chain, smallest)) = block.chain() {
        if chain.before == inherited && chain.behind == inherited {
            // No entry is placed on the path down.
            let others = &costs[..costs.len() - chain.levels as usize];
            let block = pages.part(chain.levels, chain.place);
            let rest = place_entries(&smallest, block, inherited, others, entries)?;
            return Ok(rest);
        }
        let rest = place_chain(chain, &smallest, pages, inherited, costs, entries)?;
        return Ok(rest);
    }
    let (lower, upper) = block.halves();
    let [rest @ .., cost] = costs else {
        unreachable!();
    };
    let perm = halves_perm(*cost, inherited);
    let rest = place_entries(&lower, pages.lower(), perm, rest, entries)?;
    let rest = place_entries(&upper, pages.upper(), perm, rest, entries)?;
    push_entry_in_order(pages, inherited, perm, entries)?;
    Ok(rest)
}
