//! An enclave on one hart, and a host on another that requests fences.

ghost use Rattle.library_tests.specs.Fences.{FenceKeepsEnclave, LosesRegisters};

use board::board_law;

/// An enclave that a fence interrupts keeps all of its registers: its next trap saves those that it had before the
/// fence.
pub fn fence_on_board()
    ensures { FenceKeepsEnclave }
{
    board_law();
}

/// If a hart could serve such a trap in an enclave as it does in a host, the enclave could go on elsewhere.
pub fn served_anyhow()
    ensures { LosesRegisters }
{}
