//! The registers of a plan's entries.

ghost use Rattle.std.specs.Prelude.{◌≡◌, ◌++◌, IfOk, OnOk};
ghost use Rattle.chain_planner.specs.ChainPlans.{list_of};
ghost use Rattle.chain_planner.specs.Spelled.{block_pairs, off_pairs, pairs_in, top_pairs};

use crate::chain_plan::ChainPlan;
use crate::tops::Top;
use pmp_encoding::Entry;
use std::alloc::{AllocError, Global};

/// Adds the pairs of NA4 and NAPOT entries.
fn push_blocks(blocks: &[Entry], pairs: &mut Vec<(u8, u64)>) -> Result<(), AllocError>
    ensures { OnOk result (pairs.new.items ≡ pairs.old.items ++ block_pairs blocks.now) }
{
    for entry in blocks {
        let (cfg, address) = entry.encode();
        pairs.push((cfg, address))?;
    }
    Ok(())
}

/// Adds the pair of an OFF entry, if there is one.
fn push_off(off: Option<u64>, pairs: &mut Vec<(u8, u64)>) -> Result<(), AllocError>
    ensures { OnOk result (pairs.new.items ≡ pairs.old.items ++ off_pairs off) }
{
    if let Some(address) = off {
        pairs.push((0, address))?;
    }
    Ok(())
}

/// Adds the pairs of TOR entries.
fn push_tops(tops: &[Top], pairs: &mut Vec<(u8, u64)>) -> Result<(), AllocError>
    ensures { OnOk result (pairs.new.items ≡ pairs.old.items ++ top_pairs tops.now) }
{
    for top in tops {
        let cfg = 8 + top.perm.bits();
        pairs.push((cfg, top.address))?;
    }
    Ok(())
}

impl ChainPlan {
    /// Returns the configuration byte and the address register of each entry, in order. The only error is out of memory.
    pub fn pairs(&self, alloc: Global) -> Result<Vec<(u8, u64)>, AllocError>
        ensures { IfOk result (λ pairs. pairs.items ≡ pairs_in (list_of self.now)) }
    {
        let mut pairs = Vec::with_capacity(alloc, self.needed())?;
        push_blocks(self.blocks.as_slice(), &mut pairs)?;
        push_off(self.off, &mut pairs)?;
        push_tops(self.tops.as_slice(), &mut pairs)?;
        Ok(pairs)
    }
}
