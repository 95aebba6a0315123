//! Plans the map that a source contains, and prints the plan.

ghost use Rattle.std.specs.Prelude.{◌≡◌, ◌≢◌, ℕ, ◌-◌, ◌^◌, ◌<◌, List, Err, IfErr, IfOk, OnOk, length};
ghost use Rattle.text_lines.specs.Streams.{GrowsByOne};
ghost use Rattle.text_lines.specs.Writings.{writing, IsUnwritten};
ghost use Rattle.map_text.specs.MapFile.{FaultAt, IsUnknown, MakesFirst, MakesTooMany};
ghost use Rattle.map_planner.specs.PrintedPlan.{BreaksOff, HasFault, IsPlanOf, IsRead, IsTooLarge, NeedsMore, PrintsPlan};

use entry_planner::{Plan, plan_map};
use map_text::{MAP_BYTES, MapFileFault, map_of, print_plan};
use pmp_encoding::{Limit, PackedEntry, Xlen};
use program_files::read_whole;
use std::alloc::Global;
use text_lines::{DeviceFault, Sink, Source, SourceFault};

/// The reason why a plan is not printed whole.
#[derive(Clone, Copy, Debug)]
pub enum PlanFault {
    /// The source could not be read, or has more than 1 MiB.
    Source(SourceFault),
    /// The bytes are not a valid map.
    Map(MapFileFault),
    /// The map needs more than sixteen entries.
    TooManyEntries,
    /// An allocation failed.
    Memory,
    /// The sink failed, or accepted none of the bytes of a write.
    NotWritten,
}

/// Plans the map in the bytes of a map file, if it needs at most sixteen entries.
fn plan_of(alloc: Global, bytes: &[u8]) -> Result<Plan<PackedEntry>, PlanFault>
    requires { length bytes.now < 2 ^ 64 - 1 }
    ensures plan { IfOk result (λ plan. IsPlanOf bytes.now plan.entries) }
    ensures line { (n : ℕ) → result ≡ Err (PlanFault.Map (MapFileFault.Line n))
        → FaultAt bytes.now n IsUnknown }
    ensures many { result ≡ Err (PlanFault.Map MapFileFault.TooManyRanges)
        → (n : ℕ) × FaultAt bytes.now n MakesTooMany }
    ensures first { result ≡ Err (PlanFault.Map MapFileFault.Memory)
        → (n : ℕ) × FaultAt bytes.now n MakesFirst }
    ensures needs { result ≡ Err PlanFault.TooManyEntries → NeedsMore bytes.now }
    ensures others { (fault : SourceFault) → result ≢ Err (PlanFault.Source fault) }
    ensures unwritten { result ≢ Err PlanFault.NotWritten }
{
    let map = match map_of(alloc, bytes) {
        Ok(map) => map,
        Err(fault) => return Err(PlanFault::Map(fault)),
    };
    let Ok(plan) = plan_map(alloc, &map) else {
        return Err(PlanFault::Memory);
    };
    if plan.needed() > 16 {
        return Err(PlanFault::TooManyEntries);
    }
    Ok(plan)
}

/// Prints the plan of the map that a source contains, for an RV64 hart with sixteen entries. Prints nothing before the
/// plan is complete.
pub fn print_plan_in<R: Source, W: Sink>(
    alloc: Global,
    source: &mut R,
    out: &mut W,
) -> Result<(), PlanFault>
    ensures printed { OnOk result (PrintsPlan (R.remaining source.old) (R.remaining source.new)
        (writing W.contents W.failures W.stalls out.old out.new)) }
    ensures large { result ≡ Err (PlanFault.Source SourceFault.TooLarge)
        → IsTooLarge (R.remaining source.old) (R.remaining source.new) }
    ensures failed { result ≡ Err (PlanFault.Source SourceFault.Read)
        → GrowsByOne (R.failures source.old) (R.failures source.new) }
    ensures line { (n : ℕ) → result ≡ Err (PlanFault.Map (MapFileFault.Line n))
        → HasFault (R.remaining source.old) (R.remaining source.new) n IsUnknown }
    ensures many { result ≡ Err (PlanFault.Map MapFileFault.TooManyRanges)
        → (n : ℕ) × HasFault (R.remaining source.old) (R.remaining source.new) n MakesTooMany }
    ensures first { result ≡ Err (PlanFault.Map MapFileFault.Memory)
        → (n : ℕ) × HasFault (R.remaining source.old) (R.remaining source.new) n MakesFirst }
    ensures needs { result ≡ Err PlanFault.TooManyEntries → (bytes : List ℕ)
        × IsRead (R.remaining source.old) (R.remaining source.new) bytes × NeedsMore bytes }
    ensures none { IfErr result (λ fault. fault ≢ PlanFault.NotWritten
        → IsUnwritten (writing W.contents W.failures W.stalls out.old out.new)) }
    ensures broken { result ≡ Err PlanFault.NotWritten
        → BreaksOff (R.remaining source.old) (R.remaining source.new)
        (writing W.contents W.failures W.stalls out.old out.new) }
{
    let bytes = match read_whole(alloc, source, MAP_BYTES) {
        Ok(bytes) => bytes,
        Err(fault) => return Err(PlanFault::Source(fault)),
    };
    let plan = plan_of(alloc, bytes.as_slice())?;
    match print_plan(Xlen::Rv64, plan.entries(), 0, Limit::Sixteen, out) {
        Ok(()) => Ok(()),
        Err(DeviceFault) => Err(PlanFault::NotWritten),
    }
}
