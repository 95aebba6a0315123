//! The registers of a call and its answer, and those of a first entry.

ghost use Rattle.std.specs.Prelude.{◌≡◌};
ghost use Rattle.monitor_core.specs.Changes.{past_call};
ghost use Rattle.sbi_decode.specs.Registers.{with_x, zeros};

use sbi_decode::Registers;

/// Advances the pc past the instruction that made a call.
pub(crate) fn go_past_call(registers: &mut Registers)
    ensures { registers.new ≡ past_call registers.old }
{
    let pc = registers.pc().wrapping_add(4);
    registers.set_pc(pc);
}

/// Writes an answer to a0 and a1.
pub(crate) fn put_answer(registers: &mut Registers, first: u64, second: u64)
    ensures { registers.new ≡ with_x (with_x registers.old 10 first) 11 second }
{
    registers.set(10, first);
    registers.set(11, second);
}

/// Returns the registers of a first entry.
pub(crate) fn first_registers(pc: u64, id: u64) -> Registers
    ensures { result ≡ with_x (record zeros { pc = pc }) 10 id }
{
    let mut registers = Registers::new();
    registers.set_pc(pc);
    registers.set(10, id);
    registers
}
