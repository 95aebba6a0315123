//! The block of addresses of a region.

ghost use Rattle.std.specs.Prelude.{◌≡◌, ◌≢◌, ℕ, ◌+◌, ◌-◌, ◌^◌, ◌<◌, ◌≤◌, IfNone, IfSome, option_map, nat_le, false};
ghost use Rattle.pmp_encoding.specs.Block.{IsBlock};
ghost use Rattle.pmp_encoding.specs.declared.xlen.Xlen.{Xlen};
ghost use Rattle.pmp_encoding.specs.Widths.{space_end, xlen_bits};
ghost use Rattle.register_audit.specs.Blocks.{IsBlockOf, IsExponentBelow, block_at, block_from, exponent_from, exponent_of, is_all, space_log2};

use pmp_encoding::{Region, Xlen};

fn power(log2: u32) -> u64
    requires { log2 ≤ 56 }
    ensures { result ≡ 2 ^ log2 }
{
    1 << log2
}

/// Returns the exponent of a size that is a power of two, from 2 up to before `end`.
fn exponent_below(end: u32, size: u64) -> Option<u32>
    requires least { 2 ≤ end }
    requires most { end ≤ 57 }
    ensures value { result ≡ exponent_from 2 (end - 2) size }
    ensures some { IfSome result (λ log2. IsExponentBelow end size log2) }
    ensures none { IfNone result ((log2 : ℕ) → ¬ IsExponentBelow end size log2) }
{
    for log2 in 2..end {
        if size == power(log2) {
            return Some(log2);
        }
    }
    None
}

/// Returns the exponent of a size that is a power of two, from four bytes to the whole space.
fn exponent_of(size: u64) -> Option<u32>
    ensures value { result ≡ exponent_of size }
    ensures some { IfSome result (λ log2. IsExponentBelow 57 size log2) }
    ensures none { IfNone result ((log2 : ℕ) → ¬ IsExponentBelow 57 size log2) }
{
    exponent_below(57, size)
}

/// Returns the highest number that a register holds.
fn highest(xlen: Xlen) -> u64
    ensures { result ≡ 2 ^ xlen_bits xlen - 1 }
{
    match xlen {
        Xlen::Rv32 => 0xffff_ffff,
        Xlen::Rv64 => u64::MAX,
    }
}

fn is_all(xlen: Xlen, first: u64, last: u64) -> bool
    ensures { result ≡ is_all xlen first last }
{
    first == 0 && (last == highest(xlen) || last == u64::MAX)
}

/// Returns the exponent of the size of the space.
fn space_log2(xlen: Xlen) -> u32
    ensures value { result ≡ space_log2 xlen }
    ensures most { result ≤ 56 }
{
    match xlen {
        Xlen::Rv32 => 34,
        Xlen::Rv64 => 56,
    }
}

/// Returns the number of bytes from a first to a last address.
fn size_of(first: u64, last: u64) -> Option<u64>
    requires { (x : Xlen) × (is_all x first last ≡ false) }
    ensures some { IfSome result (λ size. first + size ≡ last + 1) }
    ensures none { IfNone result (last < first) }
{
    let span = last.checked_sub(first)?;
    span.checked_add(1)
}

/// Returns whether a block ends in the space.
fn is_inside(xlen: Xlen, base: u64, log2: u32) -> bool
    requires base { base < 2 ^ 56 }
    requires most { log2 ≤ 56 }
    ensures { result ≡ nat_le (base + 2 ^ log2) (space_end xlen) }
{
    base + power(log2) <= xlen.space_end()
}

/// Returns the block with a base and an exponent.
fn block_at(xlen: Xlen, base: u64, log2: u32) -> Option<Region>
    requires least { 2 ≤ log2 }
    requires most { log2 ≤ 56 }
    ensures value { option_map (λ r. (r.base, r.log2)) result ≡ block_at xlen base log2 }
    ensures some { IfSome result (λ r. (r.base ≡ base) × (r.log2 ≡ log2)) }
    ensures none { IfNone result (IsBlock base log2 → space_end xlen < base + 2 ^ log2) }
{
    let region = Region::new(base, log2)?;
    if is_inside(xlen, base, log2) {
        Some(region)
    } else {
        None
    }
}

/// Returns the block from a first to a last address, inside the space. If the last address is the highest number of a
/// register, or 2^64 - 1, it is the whole space, in OpenSBI's notation.
#[tactic(auto, using(crate::proofs::Exponents::none_before))]
pub fn block_from(xlen: Xlen, first: u64, last: u64) -> Option<Region>
    ensures value { option_map (λ r. (r.base, r.log2)) result ≡ block_from xlen first last }
    ensures some { IfSome result (IsBlockOf xlen first last) }
    ensures none { IfNone result ((log2 : ℕ) → IsBlock first log2
        → first + 2 ^ log2 ≡ last + 1 → space_end xlen ≤ last) }
{
    if is_all(xlen, first, last) {
        return Region::new(0, space_log2(xlen));
    }
    let size = size_of(first, last)?;
    let log2 = exponent_of(size)?;
    block_at(xlen, first, log2)
}
