//! Why a trap has its duties: what fails on a board whose traps lack one.

ghost use Rattle.library_tests.specs.Duties.{KeepsSecrets, LosesAtTrap, ShowsRegisters};

use board::board_law;

/// If a trap could come with other registers than its hart has, an enclave that the timer stops could lose what it computed.
pub fn comes_anyhow()
    ensures { LosesAtTrap }
{
    board_law();
}

/// If a hart could resume with any registers after a trap, a host could have those of the enclave that ran before it.
pub fn resumes_anyhow()
    ensures { ShowsRegisters }
{}

/// If anything could be kept as the floating-point registers of an enclave that exits, its own could stay in memory.
pub fn ends_anyhow()
    ensures { KeepsSecrets }
{}
