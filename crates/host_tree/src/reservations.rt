//! The memory reservation block.

ghost use Rattle.std.specs.Prelude.{◌≡◌, ◌↔◌, ◌⊎◌, ◌≤◌, ◌*◌, ◌+◌, ◌++◌, ◌∷◌, IsTrue, IfErr, OnOk, List, [], ℕ, length};
ghost use Rattle.device_tree.specs.Trees.{BeginsWithReservations};
ghost use Rattle.device_tree.specs.declared.reservations.Reservation.{Reservation};
ghost use Rattle.host_tree.specs.Refusals.{HasEmpty};

use crate::bytes::put_double_word;
use crate::write_fault::WriteFault;
use device_tree::Reservation;

/// Returns whether this is the pair of zeros that terminates the list.
fn is_end(address: u64, size: u64) -> bool
    ensures { IsTrue result ↔ ((address ≡ 0) × (size ≡ 0)) }
{
    address == 0 && size == 0
}

/// Appends a reservation.
fn put_reservation(out: &mut Vec<u8>, address: u64, size: u64) -> Result<(), WriteFault>
    ensures put { OnOk result ((added : List ℕ) × (out.new.items ≡ out.old.items ++ added)
        × (length added ≡ 16)
        × ((rest : List ℕ) (one : Reservation) (later : List Reservation)
        → one.address ≡ address → one.size ≡ size → BeginsWithReservations rest later
        → BeginsWithReservations (added ++ rest) (one ∷ later))) }
    ensures refused { IfErr result (λ fault. (fault ≡ WriteFault.Memory)
        ⊎ ((fault ≡ WriteFault.EmptyReservation) × (address ≡ 0) × (size ≡ 0))) }
{
    if is_end(address, size) {
        return Err(WriteFault::EmptyReservation);
    }
    put_double_word(out, address)?;
    put_double_word(out, size)?;
    Ok(())
}

/// Appends the pair of zeros that terminates the list.
fn put_end(out: &mut Vec<u8>) -> Result<(), WriteFault>
    ensures put { OnOk result ((added : List ℕ) × (out.new.items ≡ out.old.items ++ added)
        × (length added ≡ 16)
        × ((rest : List ℕ) → BeginsWithReservations (added ++ rest) [])) }
    ensures refused { IfErr result (λ fault. fault ≡ WriteFault.Memory) }
{
    put_double_word(out, 0)?;
    put_double_word(out, 0)?;
    Ok(())
}

/// Appends the reservations and the terminating pair of zeros.
pub(crate) fn put_reservations(out: &mut Vec<u8>, list: &[Reservation]) -> Result<(), WriteFault>
    ensures put { OnOk result ((added : List ℕ) × (out.new.items ≡ out.old.items ++ added)
        × (length added ≡ 16 * (length list.now + 1))
        × ((rest : List ℕ) → BeginsWithReservations (added ++ rest) list.now)) }
    ensures refused { IfErr result (λ fault. (fault ≡ WriteFault.Memory)
        ⊎ ((fault ≡ WriteFault.EmptyReservation) × HasEmpty list.now)) }
{
    for one in list {
        put_reservation(out, one.address, one.size)?;
    }
    put_end(out)?;
    Ok(())
}
