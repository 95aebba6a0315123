//! Plans with a chain.

ghost use Rattle.std.specs.Prelude.{◌≡◌, ◌+◌, ◌-◌, ◌*◌, ◌≤◌, ◌^◌, ◌<◌, ◌==◌, ◌&&◌, ℕ, IfOk, if◌then◌else◌};
ghost use Rattle.pmp_encoding.specs.Views.{View};
ghost use Rattle.pmp_encoding.specs.declared.perm.Perm.TheVariants.{NoAccess};
ghost use Rattle.permission_map.specs.Runs.{view_of_runs};
ghost use Rattle.pmp_encoding.specs.Perms.{perm_eq};
ghost use Rattle.prefix_tree.specs.Counts.{first_perm, last_perm, splits};
ghost use Rattle.prefix_tree.specs.Trees.{Fits, PermTree, TreeMeansAt};
ghost use Rattle.entry_planner.specs.Placement.{ArePages};
ghost use Rattle.entry_planner.specs.Reach.{HasNoneBehind};
ghost use Rattle.chain_planner.specs.ChainCosts.{changes_in};
ghost use Rattle.chain_planner.specs.Choices.{AreCosts, AreSmall, IsCosted, tree_in};
ghost use Rattle.chain_planner.specs.Chained.{IsFewestChained, length_of, space_log2};
ghost use Rattle.chain_planner.specs.ChainPlans.{IsAlone, IsBeginning, IsKind, IsPassedKey, IsPassing, list_of};
ghost use Rattle.chain_planner.specs.Turns.{TurnsWithin, base_of, tops_from, tops_of};

use crate::costed::{Costed, with_choices};
use crate::costs::{Costs, perm_at};
use crate::keys::change;
use crate::placement::{place_alone, place_beginning, place_through};
use crate::six::{Six, least, smaller};
use crate::tops::Top;
use crate::turns::Turn;
use entry_planner::PageBlock;
use permission_map::{Memory, PermissionMap};
use pmp_encoding::{Entry, Perm, Xlen};
use prefix_tree::{Halving, MapBlock};
use std::alloc::{AllocError, Global};

/// Entries that mean a view: NA4 and NAPOT first, then at most one that is OFF, then one chain of TOR.
#[derive(Drop)]
pub struct ChainPlan {
    /// The NA4 and NAPOT entries, in the order in which they go into registers.
    pub blocks: Vec<Entry>,
    /// The address register of the OFF entry, at which the chain begins. Without one the chain begins at the address of the last
    /// block, which hides its beginning, or at 0 where there is no block.
    pub off: Option<u64>,
    /// The TOR entries, by rising address.
    pub tops: Vec<Top>,
}

/// The beginning of a chain.
#[derive(Clone, Copy)]
enum Kind {
    /// At address 0, without other entries.
    Alone,
    /// With an OFF entry. It has this permission at address 0.
    Passes(Perm),
    /// Under the last of the entries before it.
    Begins,
}

/// Returns the number of times that the pages within reach of the address registers are halved, down to one page.
fn space_log2(xlen: Xlen) -> u32
    ensures value { result ≡ space_log2 xlen }
    ensures most { result ≤ 44 }
{
    match xlen {
        Xlen::Rv32 => 22,
        Xlen::Rv64 => 44,
    }
}

/// Halves a block that many times and returns its lowest part.
fn lowest_part<H: Halving>(block: H, levels: u32) -> H
    ensures means { (view : View) (k : ℕ) → TreeMeansAt view (levels + k) 0 (H.shape block)
        → TreeMeansAt view k 0 (H.shape result) }
    ensures splits { splits (H.shape result) ≤ splits (H.shape block) }
{
    if levels == 0 {
        return block;
    }
    if let Some(_) = block.one_perm() {
        return block;
    }
    let (lower, _) = block.halves();
    lowest_part(lower, levels - 1)
}

/// Returns the key of a chain that begins with an OFF entry: eight times its cost, plus the place of its permission at address 0.
fn passed_key(costs: &Costs) -> u32
    requires { AreSmall (2 ^ 22) costs.now }
    ensures { (tree : PermTree) → AreCosts costs.now tree → IsPassedKey tree result }
{
    let key = least(&Six {
        none: 8 * costs.through.none.none,
        read: 8 * costs.through.read.none + 9,
        read_write: 8 * costs.through.read_write.none + 10,
        execute: 8 * costs.through.execute.none + 11,
        read_execute: 8 * costs.through.read_execute.none + 12,
        all: 8 * costs.through.all.none + 13,
    });
    key
}

/// Returns the cost of a chain that is the whole list. Such a chain must begin at entry 0, and no TOR entry reaches the end of the
/// space; otherwise the cost is more than any other.
fn alone_cost(costs: &Costs, place: usize) -> u32
    ensures { (tree : PermTree) → AreCosts costs.now tree
        → result ≡ (if place == 0 && perm_eq (last_perm tree) NoAccess
        then changes_in tree else 2 ^ 31) }
{
    if place != 0 {
        return 1 << 31;
    }
    if change(costs.last, Perm::NoAccess) != 0 {
        return 1 << 31;
    }
    costs.changes
}

/// Returns the cheapest way to begin, from the costs of the whole space.
fn cheapest(costs: &Costs, place: usize) -> Kind
    requires { AreSmall (2 ^ 22) costs.now }
    ensures { (tree : PermTree) → AreCosts costs.now tree → IsKind place tree result }
{
    let key = passed_key(costs);
    let least = smaller(key / 8, costs.begins.none);
    if alone_cost(costs, place) <= least {
        return Kind::Alone;
    }
    if key / 8 <= costs.begins.none {
        return Kind::Passes(perm_at(key % 8));
    }
    Kind::Begins
}

/// The TOR entries of a chain that has a permission before its first change.
fn tops_from(alloc: Global, perm: Perm, turns: &[Turn]) -> Result<Vec<Top>, AllocError>
    requires { TurnsWithin 0 (2 ^ 44) turns.now }
    ensures { IfOk result (λ tops. tops.items ≡ tops_from perm turns.now) }
{
    let mut tops = Vec::with_capacity(alloc, turns.len())?;
    let mut perm = perm;
    for turn in turns {
        let address = turn.page * 1024;
        tops.push(Top { address, perm })?;
        perm = turn.perm;
    }
    Ok(tops)
}

/// Returns the OFF entry and the TOR entries of a chain that begins with an OFF entry.
fn chain_of(
    alloc: Global,
    first: Perm,
    turns: &[Turn],
) -> Result<(Option<u64>, Vec<Top>), AllocError>
    requires { TurnsWithin 0 (2 ^ 44) turns.now }
    ensures off { IfOk result (λ r. r.0 ≡ base_of first turns.now) }
    ensures tops { IfOk result (λ r. r.1.items ≡ tops_of first turns.now) }
{
    if change(Perm::NoAccess, first) != 0 {
        let tops = tops_from(alloc, first, turns)?;
        return Ok((Some(0), tops));
    }
    let [turn, rest @ ..] = turns else {
        return Ok((None, Vec::new(alloc)));
    };
    let off = turn.page * 1024;
    let tops = tops_from(alloc, turn.perm, rest)?;
    Ok((Some(off), tops))
}

/// The plan of a chain that is the whole list.
fn alone(alloc: Global, block: &Costed, log2: u32, first: Perm) -> Result<ChainPlan, AllocError>
    requires most { log2 ≤ 44 }
    requires fits { Fits log2 (tree_in block.now) }
    requires choices { IsCosted block.now }
    requires first { first ≡ first_perm (tree_in block.now) }
    ensures { IfOk result (λ plan. IsAlone log2 (tree_in block.now) (list_of plan)) }
{
    let mut turns = Vec::new(alloc);
    let _ = place_alone(block, PageBlock { first: 0, log2 }, first, &mut turns)?;
    let tops = tops_from(alloc, first, turns.as_slice())?;
    Ok(ChainPlan {
        blocks: Vec::new(alloc),
        off: None,
        tops,
    })
}

/// The plan of a chain that begins with an OFF entry, and has a permission at address 0.
fn passing(alloc: Global, block: &Costed, log2: u32, first: Perm) -> Result<ChainPlan, AllocError>
    requires most { log2 ≤ 44 }
    requires fits { Fits log2 (tree_in block.now) }
    requires choices { IsCosted block.now }
    ensures { IfOk result (λ plan. IsPassing log2 first (tree_in block.now) (list_of plan)) }
{
    let space = PageBlock { first: 0, log2 };
    let mut blocks = Vec::new(alloc);
    let mut turns = Vec::new(alloc);
    place_through(block, space, first, Perm::NoAccess, &mut blocks, &mut turns)?;
    let (off, tops) = chain_of(alloc, first, turns.as_slice())?;
    Ok(ChainPlan { blocks, off, tops })
}

/// The plan of a chain that begins under the last entry before it.
fn beginning(alloc: Global, block: &Costed, log2: u32) -> Result<ChainPlan, AllocError>
    requires most { log2 ≤ 44 }
    requires fits { Fits log2 (tree_in block.now) }
    requires choices { IsCosted block.now }
    ensures { IfOk result (λ plan. IsBeginning log2 (tree_in block.now) (list_of plan)) }
{
    let space = PageBlock { first: 0, log2 };
    let mut blocks = Vec::new(alloc);
    let mut turns = Vec::new(alloc);
    let start = place_beginning(block, space, Perm::NoAccess, &mut blocks, &mut turns)?;
    blocks.push(start.entry)?;
    let tops = tops_from(alloc, start.perm, turns.as_slice())?;
    Ok(ChainPlan {
        blocks,
        off: None,
        tops,
    })
}

impl ChainPlan {
    /// The number of entries, the OFF entry included.
    pub fn needed(&self) -> usize
        ensures { result ≡ length_of (list_of self.now) }
    {
        let before = self.blocks.len() + usize::from(self.off.is_some());
        before + self.tops.len()
    }

    /// Plans a map for registers of that width, from an entry of a hart on.
    ///
    /// The list lets supervisor and user do exactly what the map lets them do, at every naturally aligned access in the space. No
    /// list of NA4 and NAPOT entries in any order, then at most one OFF entry, then TOR entries by rising address, that does so is
    /// shorter; the OFF entry counts. For RV32 the map must be empty above the 2^34 bytes within reach of the address registers. The
    /// chain never begins at the address of an entry before the first. The only error is out of memory. (RISC-V Privileged Architecture, Physical Memory Protection: address matching)
    pub fn of(
        alloc: Global,
        map: &PermissionMap,
        xlen: Xlen,
        place: usize,
    ) -> Result<ChainPlan, Memory>
        ensures { HasNoneBehind (space_log2 xlen) (view_of_runs map.now)
            → IfOk result (λ plan.
            IsFewestChained xlen place (view_of_runs map.now) (list_of plan)) }
    {
        let log2 = space_log2(xlen);
        let space = lowest_part(MapBlock::of(map), 44 - log2);
        let (block, costs) = with_choices(alloc, &space)?;
        match cheapest(&costs, place) {
            Kind::Alone => {
                let plan = alone(alloc, &block, log2, costs.first)?;
                Ok(plan)
            }
            Kind::Passes(first) => {
                let plan = passing(alloc, &block, log2, first)?;
                Ok(plan)
            }
            Kind::Begins => {
                let plan = beginning(alloc, &block, log2)?;
                Ok(plan)
            }
        }
    }
}
