//! Writes the certificate piece by piece to a sink.

ghost use Rattle.std.specs.Prelude.{◌≡◌, ◌+◌, ◌-◌, ◌*◌, ◌≤◌, ◌<◌, ◌^◌, ◌∷◌, ◌++◌, ℕ, List, [], IfOk, IfErr, OnOk, length};
ghost use Rattle.std.specs.List.{flat_map};
ghost use Rattle.text_lines.specs.Writings.{writing, Prints};
ghost use Rattle.pmp_encoding.specs.declared.perm.Perm.{Perm};
ghost use Rattle.prefix_tree.specs.Chains.{IsChain};
ghost use Rattle.prefix_tree.specs.Counts.{splits};
ghost use Rattle.prefix_tree.specs.Trees.{Fits};
ghost use Rattle.entry_planner.specs.Plans.{cost_in, costed};
ghost use Rattle.certificate_format.specs.Costs.{cost_of, six_of};
ghost use Rattle.certificate_format.specs.Spelling.{costs_bytes, header_bytes, version_bytes, node_bytes, FitsNode};
ghost use Rattle.plan_certificate.specs.ChainBytes.{head_bytes, leaves_bytes, tail_bytes};
ghost use Rattle.plan_certificate.specs.Pieces.{taken, IsPut, IsCut};
ghost use Rattle.plan_certificate.specs.Written.{version_for, entry_bytes, certificate_for};

use crate::written_plan::WrittenPlan;
use arrayvec::ArrayVec;
use byteorder::{ByteOrder, LittleEndian};
use certificate_format::{Header, SixCosts, Version};
use entry_planner::SplitCosts;
use pmp_encoding::{Limit, Perm};
use prefix_tree::{Chain, Halving};
use text_lines::{DeviceFault, Sink, write_whole};

/// Maximum number of bytes that go to a sink at a time.
const PIECE: usize = 16384;

fn version_for(limit: Limit) -> Version
    ensures { result ≡ version_for limit }
{
    match limit {
        Limit::Sixteen => Version::One,
        Limit::SixtyFour => Version::Two(limit),
    }
}

/// Appends bytes to the current piece, which has room for them.
fn hold(piece: &mut ArrayVec<u8, PIECE>, bytes: &[u8])
    requires { length piece.old.items + length bytes.now ≤ 16384 }
    ensures { piece.new.items ≡ piece.old.items ++ bytes.now }
{
    let Ok(()) = piece.try_extend_from_slice(bytes) else {
        unreachable!();
    };
}

/// Appends the version to the current piece.
fn hold_version(piece: &mut ArrayVec<u8, PIECE>, version: Version)
    requires { length piece.old.items ≤ 16382 }
    ensures { piece.new.items ≡ piece.old.items ++ version_bytes version }
{
    match version {
        Version::One => hold(piece, [1].as_slice()),
        Version::Two(limit) => hold(piece, [2, limit.number() as u8].as_slice()),
    }
}

/// Returns the header's bytes.
#[tactic(auto, unfolding(crate::specs::Spelling::u32_bytes))]
fn header_piece(header: Header) -> ArrayVec<u8, PIECE>
    ensures { result.items ≡ header_bytes header }
{
    let mut piece = ArrayVec::new();
    hold(&mut piece, b"PMPC".as_slice());
    hold_version(&mut piece, header.version);
    hold(&mut piece, header.count.to_le_bytes().as_slice());
    piece
}

/// Returns the costs of the i-th split block.
fn costs_of(costs: &SplitCosts, i: usize) -> SixCosts
    requires { i < length costs.now }
    ensures costs { result ≡ six_of (cost_in costs.now i) }
    ensures fits { (perm : Perm) → cost_in costs.now i perm < 2 ^ 32 }
{
    SixCosts {
        no_access: costs.cost(i, Perm::NoAccess),
        read: costs.cost(i, Perm::Read),
        read_write: costs.cost(i, Perm::ReadWrite),
        execute: costs.cost(i, Perm::Execute),
        read_execute: costs.cost(i, Perm::ReadExecute),
        read_write_execute: costs.cost(i, Perm::ReadWriteExecute),
    }
}

/// Returns a branch's tag and its costs.
#[tactic(auto, unfolding(crate::specs::Spelling::u32_bytes))]
fn front_of(costs: SixCosts) -> [u8; 25]
    ensures bytes { result ≡ 1 ∷ costs_bytes (cost_of costs) }
    ensures size { length result ≡ 25 }
{
    let mut bytes = [1; 25];
    LittleEndian::write_u32(&mut bytes[1..5], costs.no_access);
    LittleEndian::write_u32(&mut bytes[5..9], costs.read);
    LittleEndian::write_u32(&mut bytes[9..13], costs.read_write);
    LittleEndian::write_u32(&mut bytes[13..17], costs.execute);
    LittleEndian::write_u32(&mut bytes[17..21], costs.read_execute);
    LittleEndian::write_u32(&mut bytes[21..25], costs.read_write_execute);
    bytes
}

/// Makes room for `room` more bytes in the piece, which goes to the sink first if it is too full.
fn make_room<W: Sink>(
    piece: &mut ArrayVec<u8, PIECE>,
    room: usize,
    sink: &mut W,
) -> Result<(), DeviceFault>
    requires small { room ≤ 16384 }
    ensures room { OnOk result (length piece.new.items + room ≤ 16384) }
    ensures put { IfOk result (λ _.
        IsPut piece.old.items piece.new.items (taken W.contents W.failures W.stalls sink.old)
        (taken W.contents W.failures W.stalls sink.new) []) }
    ensures cut { IfErr result (λ _.
        (bytes : List ℕ)
        → IsCut piece.old.items (taken W.contents W.failures W.stalls sink.old)
        (taken W.contents W.failures W.stalls sink.new) bytes) }
{
    if room <= piece.remaining_capacity() {
        return Ok(());
    }
    let Ok(()) = write_whole(sink, piece.as_slice()) else {
        return Err(DeviceFault);
    };
    piece.clear();
    Ok(())
}

/// Appends bytes to the piece, which goes to the sink first if they do not fit.
fn put<W: Sink>(
    piece: &mut ArrayVec<u8, PIECE>,
    bytes: &[u8],
    sink: &mut W,
) -> Result<(), DeviceFault>
    requires small { length bytes.now ≤ 16384 }
    ensures put { IfOk result (λ _.
        IsPut piece.old.items piece.new.items (taken W.contents W.failures W.stalls sink.old)
        (taken W.contents W.failures W.stalls sink.new) bytes.now) }
    ensures cut { IfErr result (λ _.
        IsCut piece.old.items (taken W.contents W.failures W.stalls sink.old)
        (taken W.contents W.failures W.stalls sink.new) bytes.now) }
{
    let Ok(()) = make_room(piece, bytes.len(), sink) else {
        return Err(DeviceFault);
    };
    hold(piece, bytes);
    Ok(())
}

/// Writes the entries of a plan.
fn put_entries<P: WrittenPlan, W: Sink>(
    piece: &mut ArrayVec<u8, PIECE>,
    plan: &P,
    sink: &mut W,
) -> Result<(), DeviceFault>
    ensures put { IfOk result (λ _.
        IsPut piece.old.items piece.new.items (taken W.contents W.failures W.stalls sink.old)
        (taken W.contents W.failures W.stalls sink.new)
        (flat_map entry_bytes (P.planned plan.now).entries)) }
    ensures cut { IfErr result (λ _.
        IsCut piece.old.items (taken W.contents W.failures W.stalls sink.old)
        (taken W.contents W.failures W.stalls sink.new)
        (flat_map entry_bytes (P.planned plan.now).entries)) }
{
    for i in 0..plan.count() as usize {
        let Ok(()) = put(piece, plan.pair(i).as_slice(), sink) else {
            return Err(DeviceFault);
        };
    }
    Ok(())
}

/// Appends the part before the node of a chain's smallest block: the branches, and the leaves of the pages before that
/// block. Returns the number of leaves after the node.
fn hold_heads(piece: &mut ArrayVec<u8, PIECE>, chain: Chain, costs: &SplitCosts, i: usize) -> usize
    requires chain { chain.place < 2 ^ chain.levels }
    requires most { chain.levels ≤ 44 }
    requires room { length piece.old.items + 27 * chain.levels ≤ 16384 }
    requires counted { i + chain.levels ≤ length costs.now }
    requires small { length costs.now < 2 ^ 64 }
    ensures held { piece.new.items
        ≡ piece.old.items ++ head_bytes costs.now i chain.levels chain.place chain.before }
    ensures fits { (m : ℕ) → i ≤ m → m < i + chain.levels → (perm : Perm)
        → cost_in costs.now m perm < 2 ^ 32 }
    ensures tails { (behind : Perm)
        → leaves_bytes result behind ≡ tail_bytes chain.levels chain.place behind }
    ensures few { result ≤ chain.levels }
{
    let leaf = [0, chain.before.bits()];
    let bytes = leaf.as_slice();
    let mut rest = chain;
    let mut next = i;
    let mut behind = 0;
    while rest.levels > 0 {
        let front = front_of(costs_of(costs, next));
        let smaller = rest.smaller();
        hold(piece, front.as_slice());
        if rest.goes_up() {
            hold(piece, bytes);
        } else {
            behind += 1;
        }
        next += 1;
        rest = smaller;
    }
    behind
}

/// Appends `count` leaves.
fn hold_leaves(piece: &mut ArrayVec<u8, PIECE>, count: usize, perm: Perm)
    requires room { length piece.old.items + 2 * count ≤ 16384 }
    ensures { piece.new.items ≡ piece.old.items ++ leaves_bytes count perm }
{
    let leaf = [0, perm.bits()];
    let bytes = leaf.as_slice();
    let mut left = count;
    while left > 0 {
        hold(piece, bytes);
        left -= 1;
    }
}

/// Writes the part before the node of a chain's smallest block, and returns the number of leaves after the node.
fn put_heads<W: Sink>(
    piece: &mut ArrayVec<u8, PIECE>,
    chain: Chain,
    costs: &SplitCosts,
    i: usize,
    sink: &mut W,
) -> Result<usize, DeviceFault>
    requires chain { IsChain chain }
    requires counted { i + chain.levels ≤ length costs.now }
    requires small { length costs.now < 2 ^ 64 }
    ensures put { IfOk result (λ _.
        IsPut piece.old.items piece.new.items (taken W.contents W.failures W.stalls sink.old)
        (taken W.contents W.failures W.stalls sink.new)
        (head_bytes costs.now i chain.levels chain.place chain.before)) }
    ensures cut { IfErr result (λ _.
        (bytes : List ℕ)
        → IsCut piece.old.items (taken W.contents W.failures W.stalls sink.old)
        (taken W.contents W.failures W.stalls sink.new) bytes) }
    ensures fits { OnOk result ((m : ℕ) → i ≤ m → m < i + chain.levels → (perm : Perm)
        → cost_in costs.now m perm < 2 ^ 32) }
    ensures tails { IfOk result (λ count. (behind : Perm)
        → leaves_bytes count behind ≡ tail_bytes chain.levels chain.place behind) }
    ensures few { IfOk result (λ count. count ≤ chain.levels) }
{
    let Ok(()) = make_room(piece, 27 * chain.levels as usize, sink) else {
        return Err(DeviceFault);
    };
    let behind = hold_heads(piece, chain, costs, i);
    Ok(behind)
}

/// Writes the part after that node: `count` leaves.
fn put_tails<W: Sink>(
    piece: &mut ArrayVec<u8, PIECE>,
    count: usize,
    perm: Perm,
    sink: &mut W,
) -> Result<(), DeviceFault>
    requires few { count ≤ 44 }
    ensures put { IfOk result (λ _.
        IsPut piece.old.items piece.new.items (taken W.contents W.failures W.stalls sink.old)
        (taken W.contents W.failures W.stalls sink.new) (leaves_bytes count perm)) }
    ensures cut { IfErr result (λ _.
        (bytes : List ℕ)
        → IsCut piece.old.items (taken W.contents W.failures W.stalls sink.old)
        (taken W.contents W.failures W.stalls sink.new) bytes) }
{
    let Ok(()) = make_room(piece, 2 * count, sink) else {
        return Err(DeviceFault);
    };
    hold_leaves(piece, count, perm);
    Ok(())
}

/// Writes the node of a block whose split blocks have the numbers from i on, and returns the next number.
fn put_node<H: Halving, W: Sink>(
    piece: &mut ArrayVec<u8, PIECE>,
    block: &H,
    costs: &SplitCosts,
    i: usize,
    sink: &mut W,
) -> Result<usize, DeviceFault>
    requires counted { i + splits (H.shape block.now) ≤ length costs.now }
    requires small { length costs.now < 2 ^ 64 }
    ensures next { IfOk result (λ next. next ≡ i + splits (H.shape block.now)) }
    ensures put { IfOk result (λ _.
        IsPut piece.old.items piece.new.items (taken W.contents W.failures W.stalls sink.old)
        (taken W.contents W.failures W.stalls sink.new)
        (node_bytes (costed costs.now i (H.shape block.now)))) }
    ensures cut { IfErr result (λ _.
        IsCut piece.old.items (taken W.contents W.failures W.stalls sink.old)
        (taken W.contents W.failures W.stalls sink.new)
        (node_bytes (costed costs.now i (H.shape block.now)))) }
    ensures fits { OnOk result ((k : ℕ) → Fits k (H.shape block.now)
        → FitsNode k (costed costs.now i (H.shape block.now))) }
{
    if let Some(perm) = block.one_perm() {
        let Ok(()) = put(piece, [0, perm.bits()].as_slice(), sink) else {
            return Err(DeviceFault);
        };
        return Ok(i);
    }
    if let Some((chain, smallest)) = block.chain() {
        let Ok(behind) = put_heads(piece, chain, costs, i, sink) else {
            return Err(DeviceFault);
        };
        let inside = i + chain.levels as usize;
        let Ok(next) = put_node(piece, &smallest, costs, inside, sink) else {
            return Err(DeviceFault);
        };
        let Ok(()) = put_tails(piece, behind, chain.behind, sink) else {
            return Err(DeviceFault);
        };
        return Ok(next);
    }
    let (lower, upper) = block.halves();
    let front = front_of(costs_of(costs, i));
    let Ok(()) = put(piece, front.as_slice(), sink) else {
        return Err(DeviceFault);
    };
    let Ok(middle) = put_node(piece, &lower, costs, i + 1, sink) else {
        return Err(DeviceFault);
    };
    let Ok(next) = put_node(piece, &upper, costs, middle, sink) else {
        return Err(DeviceFault);
    };
    Ok(next)
}

/// Sends the certificate of the space to a sink, for a plan with the same number of split blocks.
pub(crate) fn send<H: Halving, P: WrittenPlan, W: Sink>(
    root: &H,
    plan: &P,
    limit: Limit,
    sink: &mut W,
) -> Result<(), DeviceFault>
    requires splits { splits (H.shape root.now) ≡ length (P.planned plan.now).costs }
    requires small { length (P.planned plan.now).costs < 2 ^ 64 }
    ensures prints { Prints (certificate_for limit (P.planned plan.now) (H.shape root.now))
        (writing W.contents W.failures W.stalls sink.old sink.new) result }
    ensures fits { OnOk result ((k : ℕ) → Fits k (H.shape root.now)
        → FitsNode k (costed (P.planned plan.now).costs 0 (H.shape root.now))) }
{
    let header = Header {
        version: version_for(limit),
        count: plan.count(),
    };
    let mut piece = header_piece(header);
    let Ok(()) = put_entries(&mut piece, plan, sink) else {
        return Err(DeviceFault);
    };
    let Ok(_) = put_node(&mut piece, root, plan.split_costs(), 0, sink) else {
        return Err(DeviceFault);
    };
    let Ok(()) = write_whole(sink, piece.as_slice()) else {
        return Err(DeviceFault);
    };
    Ok(())
}
