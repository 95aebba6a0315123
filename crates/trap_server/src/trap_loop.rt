//! The loop, which reads, serves and answers each trap before it reads the next.

ghost use Rattle.std.specs.Prelude.{◌≡◌, ◌+◌, ◌≤◌, ◌<◌, ℕ, List, [], Ok, Option, IfErr, IfOk, MatchResult};
ghost use Rattle.platforms.specs.Platform.{PlatformLayout};
ghost use Rattle.monitor_core.specs.States.{opening_monitor};
ghost use Rattle.std.specs.Io.KnownBytes.{IsAtEnd};
ghost use Rattle.trap_server.specs.Boot.{Boots, BootsOn, EndsAtFirst, IsFirst, others};
ghost use Rattle.trap_server.specs.Answered.{AreAwake};
ghost use Rattle.trap_server.specs.Ends.{CountsReads, CountsWrites};
ghost use Rattle.trap_server.specs.Runs.{EndsEarly, Ran};
ghost use Rattle.trap_server.specs.Sets.{bare};

use crate::fault::{ServeFault, end, refuse};
use crate::service::{NOTHING, Onward, serve_trap, write_answer};
use crate::{EndReason, NewLists, Trap, read_platform, read_trap};
use monitor_core::{Core, SetChanges, TakenDigest};
use platforms::{BootFault, Platform};
use std::alloc::Global;
use text_lines::{Sink, Source};

/// Boots the monitor on a platform.
#[inline(never)]
fn boot_on<W: Sink>(
    alloc: Global,
    platform: Box<Platform>,
    sink: &mut W,
) -> Result<Core, ServeFault>
    ensures boots { BootsOn result platform.value (W.contents sink.old) (W.contents sink.new) }
    ensures reads { (n : ℕ) → CountsReads result n n }
    ensures writes { CountsWrites result (W.failures sink.old) (W.failures sink.new)
        (W.stalls sink.old) (W.stalls sink.new) }
{
    match Core::boot(alloc, Box::into_inner(platform)) {
        Ok(core) => Ok(core),
        Err(BootFault::NeedsMoreEntries(count)) => {
            Err(refuse(sink, EndReason::NeedsEntries(count)))
        }
        Err(BootFault::Memory) => Err(refuse(sink, EndReason::Memory)),
    }
}

/// Reads the platform, which comes first. It is on the heap so that the stack holds no copy of it while the monitor
/// boots.
#[inline(never)]
fn platform_in<R: Source, W: Sink>(
    alloc: Global,
    source: &mut R,
    sink: &mut W,
) -> Result<Box<Platform>, ServeFault>
    ensures first { MatchResult result
        (λ platform. IsFirst platform.value (R.remaining source.old) (R.remaining source.new)
        × (W.contents sink.new ≡ W.contents sink.old))
        (λ fault. EndsAtFirst fault (R.remaining source.old) (R.remaining source.new)
        (W.contents sink.old) (W.contents sink.new)) }
    ensures reads { CountsReads result (R.failures source.old) (R.failures source.new) }
    ensures writes { CountsWrites result (W.failures sink.old) (W.failures sink.new)
        (W.stalls sink.old) (W.stalls sink.new) }
{
    match read_platform(source) {
        Ok(Ok(platform)) => match Box::new(alloc, platform) {
            Ok(platform) => Ok(platform),
            Err(_) => Err(refuse(sink, EndReason::Memory)),
        },
        Ok(Err(refusal)) => Err(refuse(sink, refusal)),
        Err(fault) => Err(end(sink, fault)),
    }
}

/// Boots the monitor on the platform that comes first. Inlined, so that the stack holds one copy of the monitor less
/// during boot.
#[inline(always)]
fn boot<R: Source, W: Sink>(alloc: Global, source: &mut R, sink: &mut W) -> Result<Core, ServeFault>
    ensures boots { Boots result (R.remaining source.old) (R.remaining source.new)
        (W.contents sink.old) (W.contents sink.new) }
    ensures reads { CountsReads result (R.failures source.old) (R.failures source.new) }
    ensures writes { CountsWrites result (W.failures sink.old) (W.failures sink.new)
        (W.stalls sink.old) (W.stalls sink.new) }
{
    match platform_in(alloc, source, sink) {
        Ok(platform) => boot_on(alloc, platform, sink),
        Err(fault) => Err(fault),
    }
}

/// Returns all harts except hart 0.
fn others(harts: u8) -> [bool; 4]
    ensures { result ≡ others harts }
{
    [false, harts > 1, harts > 2, harts > 3]
}

/// Writes the entries with which the harts of a booted monitor begin, and then serves traps until the input ends.
///
/// Not inlined, so that its frames are not on the stack while the monitor boots. Everything that serves a trap is
/// inlined into it, so that the frames are known to be aligned to eight bytes and are accessed word by word.
#[inline(never)]
fn serve_booted<R: Source, W: Sink>(
    core: &mut Core,
    source: &mut R,
    sink: &mut W,
) -> Result<(), ServeFault>
    requires { (layout : PlatformLayout) × (bare core.old ≡ opening_monitor layout) }
    ensures all { (before held : Option (List ℕ))
        → Boots (Ok core.old) before (R.remaining source.old) held (W.contents sink.old)
        → IfOk result (λ _. Ran before (R.remaining source.new) held (W.contents sink.new) [] []) }
    ensures at_end { IfOk result (λ _. IsAtEnd (R.remaining source.new)) }
    ensures early { (before held : Option (List ℕ))
        → Boots (Ok core.old) before (R.remaining source.old) held (W.contents sink.old)
        → IfErr result (λ fault.
        EndsEarly fault before (R.remaining source.new) held (W.contents sink.new)) }
    ensures reads { CountsReads result (R.failures source.old) (R.failures source.new) }
    ensures writes { CountsWrites result (W.failures sink.old) (W.failures sink.new)
        (W.stalls sink.old) (W.stalls sink.new) }
{
    let harts = core.harts();
    let mut changes = SetChanges::none();
    let mut frame = [0; 1424];
    let opening = Onward {
        hart: 0,
        answer: NOTHING,
        zero: None,
        woken: others(harts),
        lists: NewLists::Host,
        given: None,
    };
    match write_answer(core, &opening, &changes, &mut frame, sink) {
        Ok(()) => {}
        Err(fault) => return Err(fault),
    }
    let digest = TakenDigest { bytes: [0; 32] };
    let mut trap_frame = [0; 96];
    let mut trap = Trap::new();
    for _count in 0..u64::MAX {
        let is_there = match read_trap(source, harts, &mut trap_frame, &mut trap) {
            Ok(is_there) => is_there,
            Err(fault) => return Err(end(sink, fault)),
        };
        if !is_there {
            return Ok(());
        }
        match serve_trap(core, &trap, &digest, &mut changes, &mut frame, source, sink) {
            Ok(()) => {}
            Err(fault) => return Err(fault),
        }
    }
    Err(refuse(sink, EndReason::NotUnderstood))
}

/// Boots the monitor on the platform that the source delivers first, and writes the entries with which its harts begin.
/// Then serves the traps that follow until the input ends.
///
/// The loop ends early if a frame is invalid or the input ends within it, if the first frame is not a valid platform,
/// if the host's view of it needs too many entries, if an allocation fails at boot, if a read or a write fails, and
/// after 2^64 - 1 traps. The last answer is then followed by a request for pages, if they were requested, and by the
/// last frame, or by a part of these.
pub fn serve_traps<R: Source, W: Sink>(
    alloc: Global,
    source: &mut R,
    sink: &mut W,
) -> Result<(), ServeFault>
    ensures all { IfOk result (λ _. Ran (R.remaining source.old) (R.remaining source.new)
        (W.contents sink.old) (W.contents sink.new) [] []) }
    ensures at_end { IfOk result (λ _. IsAtEnd (R.remaining source.new)) }
    ensures early { IfErr result (λ fault.
        EndsEarly fault (R.remaining source.old) (R.remaining source.new)
        (W.contents sink.old) (W.contents sink.new)) }
    ensures reads { CountsReads result (R.failures source.old) (R.failures source.new) }
    ensures writes { CountsWrites result (W.failures sink.old) (W.failures sink.new)
        (W.stalls sink.old) (W.stalls sink.new) }
{
    let mut core = match boot(alloc, source, sink) {
        Ok(core) => core,
        Err(fault) => return Err(fault),
    };
    serve_booted(&mut core, source, sink)
}
