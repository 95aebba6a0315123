//! The frame of a trap.

ghost use Rattle.std.specs.Prelude.{◌≡◌, ℕ, ◌+◌, ◌≤◌, true, false, IfSome, IfNone};
ghost use Rattle.sbi_decode.specs.Registers.{RegisterFile, x_of};
ghost use Rattle.trap_server.specs.declared.trap.Trap.{Trap as TrapOf};
ghost use Rattle.trap_server.specs.Words.{word_at};
ghost use Rattle.trap_server.specs.Traps.{HasCall, IsTrapFrame, ReadsTrap, CountsRead};

use crate::HostWords;
use crate::frame::{TAG_CALL, TAG_STOP, TrapBytes, word};
use crate::frame_bytes::read_whole;
use crate::frame_fault::FrameFault;
use sbi_decode::Registers;
use text_lines::Source;

/// The size of a trap frame.
const TRAP_BYTES: usize = 96;

/// The event that happened to the world on a hart.
#[derive(Clone, Copy)]
pub enum TrapEvent {
    /// The world made a call.
    Call,
    /// The world was interrupted or did what an enclave may not do; an enclave stops.
    Stop,
}

/// A trap of a hart, with the registers of a call, a0 to a7, and two control words of the world that ran there. All
/// other registers and control words stay with the hart.
#[derive(Clone, Copy)]
pub struct Trap {
    /// The event.
    pub event: TrapEvent,
    /// The hart, below the number of harts.
    pub hart: u8,
    /// The registers, of which only a0 to a7 are known.
    pub registers: Registers,
    /// The host's control words. They are ignored if an enclave trapped.
    pub host: HostWords,
}

impl Trap {
    /// Returns an initial value, to be overwritten by the first trap.
    pub(crate) fn new() -> Trap {
        Trap {
            event: TrapEvent::Stop,
            hart: 0,
            registers: Registers::new(),
            host: HostWords {
                mie: 0,
                scounteren: 0,
            },
        }
    }
}

/// Copies a0 to a7, which are x10 to x17, from a frame to the registers of a trap.
#[inline(always)]
fn call_in(bytes: &TrapBytes, registers: &mut Registers)
    ensures { HasCall bytes.now registers.new }
{
    for n in 10..18 {
        registers.set(n, word(bytes, n - 8));
    }
}

/// Returns the event that a tag stands for.
fn event_in(tag: u64) -> Option<TrapEvent>
    ensures some { IfSome result (λ event. IsTagOf event tag) }
    ensures none { IfNone result ((event : EventOf) → IsTagOf event tag → ⊥) }
{
    match tag {
        TAG_CALL => Some(TrapEvent::Call),
        TAG_STOP => Some(TrapEvent::Stop),
        _ => None,
    }
}

/// Decodes a trap frame, for a board with this many harts, into `trap`, and returns whether it is valid.
#[inline(always)]
fn trap_in(bytes: &TrapBytes, harts: u8, trap: &mut Trap) -> bool
    ensures trap { result ≡ true → IsTrapFrame bytes.now harts trap.new }
    ensures none { result ≡ false → (one : TrapOf) → IsTrapFrame bytes.now harts one → ⊥ }
{
    let Some(event) = event_in(word(bytes, 0)) else {
        return false;
    };
    let hart = word(bytes, 1);
    if hart >= u64::from(harts) {
        return false;
    }
    trap.event = event;
    trap.hart = hart as u8;
    call_in(bytes, &mut trap.registers);
    trap.host.mie = word(bytes, 10);
    trap.host.scounteren = word(bytes, 11);
    true
}

/// Reads the next trap, for a board with this many harts, into `trap`, avoiding a copy, and returns whether there was
/// one: there is none at the end of the input. The borrowed buffer `frame`, whose previous contents do not matter,
/// saves zeroing a new one.
#[inline(always)]
pub fn read_trap<R: Source>(
    source: &mut R,
    harts: u8,
    frame: &mut TrapBytes,
    trap: &mut Trap,
) -> Result<bool, FrameFault>
    ensures trap { ReadsTrap result trap.new harts (R.remaining source.old)
        (R.remaining source.new) }
    ensures failures { CountsRead result (R.failures source.old) (R.failures source.new) }
{
    let Ok(n) = read_whole(source, frame) else {
        return Err(FrameFault::Read);
    };
    if n == 0 {
        return Ok(false);
    }
    if n < TRAP_BYTES {
        return Err(FrameFault::NotUnderstood);
    }
    if !trap_in(frame, harts, trap) {
        return Err(FrameFault::NotUnderstood);
    }
    Ok(true)
}

ghost use Rattle.trap_server.specs.Traps.{IsTagOf};
ghost use Rattle.trap_server.specs.declared.trap.TrapEvent.{TrapEvent as EventOf};
