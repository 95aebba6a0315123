//! The memory reservation block.

ghost use Rattle.std.specs.Prelude.{◌≡◌, ◌≢◌, ◌≤◌, ◌+◌, ◌<◌, ◌^◌, ℕ, List, IfErr, IfOk, IsTrue, ◌↔◌, length};
ghost use Rattle.device_tree.specs.Words.{double_word_at};
ghost use Rattle.device_tree.specs.Trees.{BeginsWithReservations};
ghost use Rattle.device_tree.specs.Refusals.{IsUnended};
ghost use Rattle.device_tree.specs.declared.reservations.Reservation.{Reservation};

use crate::fault::{TreeFault, TreeReason};
use crate::words::after;
use byteorder::{BigEndian, ByteOrder};
use std::alloc::Global;

/// Memory that the boot program reserves: its first byte and its size.
#[derive(Clone, Copy, Debug, PartialEq, Eq)]
pub struct Reservation {
    pub address: u64,
    pub size: u64,
}

/// Reads the pair at the front.
fn pair_in(bytes: &[u8]) -> Reservation
    requires { 16 ≤ length bytes.now }
    ensures address { result.address ≡ double_word_at bytes.now 0 }
    ensures size { result.size ≡ double_word_at bytes.now 8 }
{
    Reservation {
        address: BigEndian::read_u64(after(bytes, 0)),
        size: BigEndian::read_u64(after(bytes, 8)),
    }
}

/// Returns whether this is the pair of zeros that ends the reservations.
fn is_end(pair: Reservation) -> bool
    ensures { IsTrue result ↔ ((pair.address ≡ 0) × (pair.size ≡ 0)) }
{
    pair.address == 0 && pair.size == 0
}

/// Reads the reservations at the front of bytes that begin at offset `start`.
pub(crate) fn reservations_in(
    alloc: Global,
    bytes: &[u8],
    start: usize,
) -> Result<Vec<Reservation>, TreeFault>
    requires { start + length bytes.now < 2 ^ 64 }
    ensures ok { IfOk result (λ list. BeginsWithReservations bytes.now list.items) }
    ensures refused { IfErr result (λ fault. fault.reason ≢ TreeReason.Memory
        → (list : List Reservation) → BeginsWithReservations bytes.now list → ⊥) }
    ensures reason { IfErr result (λ fault. fault.reason ≢ TreeReason.Memory
        → (fault.reason ≡ TreeReason.UnendedReservations)
        × (read : ℕ) × IsUnended bytes.now read × (fault.offset ≡ start + read)) }
{
    let mut list = Vec::new(alloc);
    let mut at = 0;
    'pairs: loop {
        let offset = start + at;
        if bytes.len() - at < 16 {
            return Err(TreeFault {
                reason: TreeReason::UnendedReservations,
                offset,
            });
        }
        let pair = pair_in(after(bytes, at));
        if is_end(pair) {
            break 'pairs;
        }
        let Ok(()) = list.push(pair) else {
            return Err(TreeFault {
                reason: TreeReason::Memory,
                offset,
            });
        };
        at += 16;
    }
    Ok(list)
}
