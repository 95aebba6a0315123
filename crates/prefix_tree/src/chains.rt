//! Chains of nested blocks.

ghost use Rattle.std.specs.Prelude.{◌≡◌, ◌+◌, ◌^◌, ◌<◌, ◌≤◌, ◌∷◌, [], None};
ghost use Rattle.permission_map.specs.Runs.{end_of, view_of_runs};
ghost use Rattle.prefix_tree.specs.Chains.{AreEdges, HasEdges};
ghost use Rattle.prefix_tree.specs.Joined.{one_perm};
ghost use Rattle.prefix_tree.specs.Slices.{AreBlockRuns};
ghost use Rattle.prefix_tree.specs.TreeOf.{tree_at};

use permission_map::Run;
use pmp_encoding::{Perm, pages_of};

/// Nested blocks: each except the smallest splits into a half that contains the next one and a uniform half.
#[derive(Clone, Copy)]
pub struct Chain {
    /// The number of blocks that split in this way.
    pub levels: u32,
    /// The number of blocks of the smallest one's size that precede it in the largest.
    pub place: u64,
    /// The permission of the pages before the smallest block.
    pub before: Perm,
    /// The permission of the pages after the smallest block.
    pub behind: Perm,
}

impl Chain {
    ghost use Rattle.prefix_tree.specs.Chains.{goes_up, smaller};

    /// Returns whether the next smaller block is the upper half of the largest.
    pub fn goes_up(self) -> bool
        requires some { 0 < self.levels }
        requires most { self.levels ≤ 44 }
        ensures { result ≡ goes_up self }
    {
        pages_of(self.levels - 1) <= self.place
    }

    /// Returns the chain without its largest block.
    pub fn smaller(self) -> Chain
        requires some { 0 < self.levels }
        requires most { self.levels ≤ 44 }
        ensures { result ≡ smaller self }
    {
        let levels = self.levels - 1;
        let half = pages_of(levels);
        if half <= self.place {
            let place = self.place - half;
            return Chain {
                levels,
                place,
                ..self
            };
        }
        Chain { levels, ..self }
    }
}

/// The first and the last page of a block that differ from the page before them, with the permissions before the first
/// and from the last on.
#[derive(Clone, Copy)]
pub struct Edges {
    pub low: u64,
    pub high: u64,
    pub before: Perm,
    pub behind: Perm,
}

/// A part of a block: one of the equal parts that remain after halving the block `levels` times.
#[derive(Clone, Copy)]
pub struct Part {
    pub levels: u32,
    /// The number of parts of this size that precede it in the block.
    pub place: u64,
    pub first: u64,
}

/// Returns the edges inside the 2^height pages from `first` on, which meet only this run.
pub fn edges_of(run: &Run, first: u64, height: u32) -> Edges
    requires block { AreBlockRuns (run.now ∷ []) first height }
    requires cut { one_perm (tree_at (view_of_runs (run.now ∷ [])) height first) ≡ None }
    ensures edges { AreEdges (view_of_runs (run.now ∷ [])) first (first + 2 ^ height) result }
    ensures low { result.low ≤ end_of run.now }
    ensures high { run.now.first ≤ result.high }
{
    let stop = run.first + run.count;
    if run.first <= first {
        return Edges {
            low: stop,
            high: stop,
            before: run.perm,
            behind: Perm::NoAccess,
        };
    }
    if stop < first + pages_of(height) {
        return Edges {
            low: run.first,
            high: stop,
            before: Perm::NoAccess,
            behind: Perm::NoAccess,
        };
    }
    Edges {
        low: run.first,
        high: run.first,
        before: Perm::NoAccess,
        behind: run.perm,
    }
}

/// Returns the smallest part of the 2^height pages from `first` on that contains all the edges inside. The page before
/// the first edge and the page at the last lie in one part iff their positions in the block differ only in lower
/// digits.
pub fn part_around(first: u64, height: u32, edges: Edges) -> Part
    requires height { height ≤ 44 }
    requires space { first + 2 ^ height ≤ 2 ^ 44 }
    requires low { first < edges.low }
    requires rising { edges.low ≤ edges.high }
    requires high { edges.high < first + 2 ^ height }
    ensures { HasEdges first height edges result }
{
    let before = edges.low - first - 1;
    let last = edges.high - first;
    let log2 = u64::BITS - (before ^ last).leading_zeros();
    let size = pages_of(log2);
    let place = last / size;
    Part {
        levels: height - log2,
        place,
        first: first + place * size,
    }
}
