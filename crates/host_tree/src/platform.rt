//! Adapts the firmware's platform to a board, which may have less.

ghost use Rattle.std.specs.Prelude.{◌≡◌, ◌++◌, ◌∷◌, MatchOption, OnErr, OnOk, IfErr, IfOk, List, [], ℕ, suc, ◌*◌, ◌≤◌, drop, length};
ghost use Rattle.device_tree.specs.declared.rows.Extent.{Extent};
ghost use Rattle.host_tree.specs.Platforms.{IsClipped, IsFound, clipped_one, flat_words, pairs_in, triples_in};
ghost use Rattle.host_tree.specs.Refusals.{IsBoardOfFault};

use crate::board::{Board, board_of};
use crate::fault::{HostTreeFault, MakeFault};
use crate::there::{harts_there, memory_there};
use crate::write_fault::WriteFault;
use device_tree::Extent;
use std::alloc::Global;

/// A platform in the firmware's layout: 64-bit numbers, as in `firmware/frames.h`.
#[repr(C)]
#[derive(Clone, Copy)]
pub struct PlatformWords {
    pub tag: u64,
    pub harts: u64,
    pub entries: u64,
    pub monitor_base: u64,
    pub monitor_size: u64,
    pub ram_count: u64,
    pub device_count: u64,
    /// Base and size of each range of memory.
    pub ram: [u64; 64],
    /// Base, size and permission of each device.
    pub device: [u64; 96],
}

/// Appends an extent.
fn push(list: &mut Vec<Extent>, extent: Extent) -> Result<(), MakeFault>
    ensures put { OnOk result (list.new.items ≡ list.old.items ++ extent ∷ []) }
    ensures refused { IfErr result (λ fault. fault ≡ MakeFault.NotWritten WriteFault.Memory) }
{
    let Ok(()) = list.push(extent) else {
        return Err(MakeFault::NotWritten(WriteFault::Memory));
    };
    Ok(())
}

/// Returns the words after the first `n`.
fn behind(words: &[u64], n: usize) -> &[u64]
    requires { n ≤ length words.now }
    ensures { result.now ≡ drop n words.now }
{
    &words[n..]
}

/// Splits off the first pair of base and size.
#[tactic(auto, using(crate::proofs::Pairs::no_pair, crate::proofs::Pairs::one_pair))]
fn first_pair(words: &[u64]) -> Option<(Extent, &[u64])>
    ensures { MatchOption result ((count : ℕ) → pairs_in count words.now ≡ [])
        (λ x. (count : ℕ) → pairs_in (suc count) words.now ≡ x.0 ∷ pairs_in count x.1.now) }
{
    if words.len() < 2 {
        return None;
    }
    let extent = Extent {
        base: words[0],
        size: words[1],
    };
    Some((extent, behind(words, 2)))
}

/// Splits off the first triple of base, size and another number, which is dropped.
#[tactic(auto, using(crate::proofs::Pairs::no_triple, crate::proofs::Pairs::one_triple))]
fn first_triple(words: &[u64]) -> Option<(Extent, &[u64])>
    ensures { MatchOption result ((count : ℕ) → triples_in count words.now ≡ [])
        (λ x. (count : ℕ) → triples_in (suc count) words.now ≡ x.0 ∷ triples_in count x.1.now) }
{
    if words.len() < 3 {
        return None;
    }
    let extent = Extent {
        base: words[0],
        size: words[1],
    };
    Some((extent, behind(words, 3)))
}

/// Appends the extents of the first `count` pairs, or of all if there are fewer.
fn put_pairs(list: &mut Vec<Extent>, words: &[u64], count: u64) -> Result<(), MakeFault>
    ensures put { OnOk result (list.new.items ≡ list.old.items ++ pairs_in count words.now) }
    ensures refused { IfErr result (λ fault. fault ≡ MakeFault.NotWritten WriteFault.Memory) }
{
    let mut left = count;
    let mut rest = words;
    'pairs: while left > 0 {
        let Some((extent, later)) = first_pair(rest) else {
            break 'pairs;
        };
        push(list, extent)?;
        rest = later;
        left -= 1;
    }
    Ok(())
}

/// Appends the extents of the first `count` triples, or of all if there are fewer.
fn put_triples(list: &mut Vec<Extent>, words: &[u64], count: u64) -> Result<(), MakeFault>
    ensures put { OnOk result (list.new.items ≡ list.old.items ++ triples_in count words.now) }
    ensures refused { IfErr result (λ fault. fault ≡ MakeFault.NotWritten WriteFault.Memory) }
{
    let mut left = count;
    let mut rest = words;
    'triples: while left > 0 {
        let Some((extent, later)) = first_triple(rest) else {
            break 'triples;
        };
        push(list, extent)?;
        rest = later;
        left -= 1;
    }
    Ok(())
}

impl PlatformWords {
    /// Returns the ranges of memory.
    fn memory(&self, alloc: Global) -> Result<Vec<Extent>, MakeFault>
        ensures ok { IfOk result
            (λ list. list.items ≡ pairs_in self.now.ram_count self.now.ram) }
        ensures refused { IfErr result
            (λ fault. fault ≡ MakeFault.NotWritten WriteFault.Memory) }
    {
        let mut list = Vec::new(alloc);
        put_pairs(&mut list, self.ram.as_slice(), self.ram_count)?;
        Ok(list)
    }

    /// Returns the ranges of addresses that the host may use: memory and devices.
    pub fn ranges(&self, alloc: Global) -> Result<Vec<Extent>, MakeFault>
        ensures ok { IfOk result (λ list. list.items ≡ pairs_in self.now.ram_count self.now.ram
            ++ triples_in self.now.device_count self.now.device) }
        ensures refused { IfErr result
            (λ fault. fault ≡ MakeFault.NotWritten WriteFault.Memory) }
    {
        let mut list = Vec::new(alloc);
        put_pairs(&mut list, self.ram.as_slice(), self.ram_count)?;
        put_triples(&mut list, self.device.as_slice(), self.device_count)?;
        Ok(list)
    }
}

/// Appends the part of a range that a board with this memory has, if any.
fn put_clipped(list: &mut Vec<Extent>, memory: &[Extent], range: Extent) -> Result<(), MakeFault>
    ensures put { OnOk result ((kept : List Extent)
        × (list.new.items ≡ list.old.items ++ kept) × clipped_one memory.now range kept) }
    ensures refused { IfErr result (λ fault. fault ≡ MakeFault.NotWritten WriteFault.Memory) }
{
    let size = memory_there(memory, range.base, range.size);
    if size == 0 {
        return Ok(());
    }
    push(
        list,
        Extent {
            base: range.base,
            size,
        },
    )
}

/// Clips each range to a board with this memory.
fn clipped(alloc: Global, memory: &[Extent], ranges: &[Extent]) -> Result<Vec<Extent>, MakeFault>
    ensures ok { IfOk result (λ list. IsClipped memory.now ranges.now list.items) }
    ensures refused { IfErr result (λ fault. fault ≡ MakeFault.NotWritten WriteFault.Memory) }
{
    let mut list = Vec::new(alloc);
    for range in ranges {
        put_clipped(&mut list, memory, *range)?;
    }
    Ok(list)
}

/// Appends a base and a size.
fn put_words(words: &mut Vec<u64>, range: Extent) -> Result<(), MakeFault>
    ensures put { OnOk result (words.new.items
        ≡ words.old.items ++ range.base ∷ range.size ∷ []) }
    ensures refused { IfErr result (λ fault. fault ≡ MakeFault.NotWritten WriteFault.Memory) }
{
    let Ok(()) = words.push(range.base) else {
        return Err(MakeFault::NotWritten(WriteFault::Memory));
    };
    let Ok(()) = words.push(range.size) else {
        return Err(MakeFault::NotWritten(WriteFault::Memory));
    };
    Ok(())
}

/// Concatenates the words of ranges.
fn flat_words(alloc: Global, ranges: &[Extent]) -> Result<Vec<u64>, MakeFault>
    ensures ok { IfOk result (λ words. words.items ≡ flat_words ranges.now) }
    ensures len { IfOk result (λ words. length words.items ≡ 2 * length ranges.now) }
    ensures refused { IfErr result (λ fault. fault ≡ MakeFault.NotWritten WriteFault.Memory) }
{
    let mut words = Vec::new(alloc);
    for range in ranges {
        put_words(&mut words, *range)?;
    }
    Ok(words)
}

/// Replaces the first words of `old` with those of the ranges. A platform has at most 32 ranges.
fn words_of(alloc: Global, ranges: &[Extent], old: &[u64; 64]) -> Result<[u64; 64], MakeFault>
    requires { length ranges.now ≤ 32 }
    ensures ok { IfOk result
        (λ words. words ≡ flat_words ranges.now ++ drop (2 * length ranges.now) old.now) }
    ensures refused { IfErr result (λ fault. fault ≡ MakeFault.NotWritten WriteFault.Memory) }
{
    let flat = flat_words(alloc, ranges)?;
    let mut words = *old;
    words[..flat.len()].copy_from_slice(flat.as_slice());
    Ok(words)
}

/// Clips the ranges of a platform's memory to the board, and returns their number and their words.
fn left_of(
    alloc: Global,
    board: &Board,
    platform: &PlatformWords,
) -> Result<(u64, [u64; 64]), MakeFault>
    ensures ok { IfOk result (λ left. (ranges : List Extent)
        × IsClipped board.now.memory.items (pairs_in platform.now.ram_count platform.now.ram) ranges
        × (left.0 ≡ length ranges)
        × (left.1 ≡ flat_words ranges ++ drop (2 * length ranges) platform.now.ram)) }
    ensures refused { IfErr result (λ fault. fault ≡ MakeFault.NotWritten WriteFault.Memory) }
{
    let ranges = platform.memory(alloc)?;
    let left = clipped(alloc, board.memory.as_slice(), ranges.as_slice())?;
    let words = words_of(alloc, left.as_slice(), &platform.ram)?;
    Ok((left.as_slice().len() as u64, words))
}

/// Clips the platform to the board whose tree `bytes` begin with: to the harts from hart 0 on, and to whole pages from
/// the start of each range of memory.
///
/// Fails, and leaves the platform unchanged, if the bytes begin with no tree or if the cells or rows of a node cannot
/// be read. Allocations can fail.
pub fn find_platform(
    alloc: Global,
    bytes: &[u8],
    platform: &mut PlatformWords,
) -> Result<(), HostTreeFault>
    ensures found { OnOk result (IsFound bytes.now platform.old platform.new) }
    ensures kept { OnErr result (platform.new ≡ platform.old) }
    ensures refused { IfErr result (IsBoardOfFault bytes.now) }
{
    let board = match board_of(alloc, bytes) {
        Ok(board) => board,
        Err(fault) => return Err(fault),
    };
    let (count, words) = match left_of(alloc, &board, platform) {
        Ok(left) => left,
        Err(fault) => return Err(HostTreeFault::NotMade(fault)),
    };
    platform.harts = harts_there(board.harts.as_slice(), platform.harts);
    platform.ram_count = count;
    platform.ram = words;
    Ok(())
}
