//! The C functions that plan.

ghost use Rattle.std.specs.Prelude.{◌≡◌, ◌⊎◌, ℕ, List, [], IfOk, IfErr, Err, pos, length};
ghost use Rattle.pmp_match.specs.Meaning.{Needs};
ghost use Rattle.permission_map.specs.declared.runs.Run.{Run};
ghost use Rattle.permission_map.specs.Runs.{view_of_runs};
ghost use Rattle.planner_for_c.specs.declared.settings.SettingFault.{SettingFault};
ghost use Rattle.planner_for_c.specs.Settings.{FaultIn, LeadTo};
ghost use Rattle.planner_for_c.specs.Codes.{fault_code, no_memory};
ghost use Rattle.planner_for_c.specs.Plans.{IsNumberOf, IsPlanOf, IsPlanned};

use crate::registers::Registers;
use crate::settings::{NoMap, Setting, map_of};
use entry_planner::{Plan, plan_map};
use pmp_encoding::PackedEntry;
use std::alloc::Global;

/// Plans the map that the settings make.
fn plan_of(alloc: Global, settings: &[Setting]) -> Result<Plan<PackedEntry>, NoMap>
    ensures plan { IfOk result (λ plan. IsPlanOf settings.now plan.entries) }
    ensures fault { (i : ℕ) (fault : SettingFault) → result ≡ Err (NoMap.Setting i fault)
        → FaultIn [] settings.now i fault }
{
    let map = map_of(alloc, settings)?;
    let Ok(plan) = plan_map(alloc, &map) else {
        return Err(NoMap::Memory);
    };
    Ok(plan)
}

/// Returns the number of entries that the settings need, and stores the registers if it is at most `entries` and at
/// most 64. A negative number is a refusal: of a setting, whose index is stored in `at_fault`, or of an allocation.
#[unsafe(no_mangle)]
pub extern "C" fn pmpmon_plan(
    alloc: Global,
    settings: &[Setting],
    entries: u64,
    registers: &mut Registers,
    at_fault: &mut u64,
) -> i64
    ensures planned { IsPlanned settings.now entries registers.old registers.new at_fault.old
        at_fault.new result }
    ensures given { (runs : List Run) (n : ℕ) → LeadTo [] settings.now runs
        → Needs (view_of_runs runs) n
        → (result ≡ pos n) ⊎ (result ≡ no_memory) }
    ensures refused { (i : ℕ) (fault : SettingFault) → FaultIn [] settings.now i fault
        → ((result ≡ fault_code fault) × (at_fault.new ≡ i)) ⊎ (result ≡ no_memory) }
{
    let plan = match plan_of(alloc, settings) {
        Ok(plan) => plan,
        Err(refusal) => return refusal.report(at_fault),
    };
    let needed = plan.needed();
    if u64::from(needed) <= entries.min(64) {
        registers.put(plan.entries());
    }
    i64::from(needed)
}

/// Returns the number of entries that the settings need. A negative number is a refusal, as for `pmpmon_plan`.
#[unsafe(no_mangle)]
pub extern "C" fn pmpmon_needed(alloc: Global, settings: &[Setting], at_fault: &mut u64) -> i64
    ensures needed { IsNumberOf settings.now at_fault.old at_fault.new result }
    ensures given { (runs : List Run) (n : ℕ) → LeadTo [] settings.now runs
        → Needs (view_of_runs runs) n
        → (result ≡ pos n) ⊎ (result ≡ no_memory) }
    ensures refused { (i : ℕ) (fault : SettingFault) → FaultIn [] settings.now i fault
        → ((result ≡ fault_code fault) × (at_fault.new ≡ i)) ⊎ (result ≡ no_memory) }
{
    match plan_of(alloc, settings) {
        Ok(plan) => i64::from(plan.needed()),
        Err(refusal) => refusal.report(at_fault),
    }
}
