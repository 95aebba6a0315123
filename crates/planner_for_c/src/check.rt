//! The C function that checks a certificate.

ghost use Rattle.std.specs.Prelude.{◌≡◌, ◌⊎◌, ℕ, List, [], pos};
ghost use Rattle.permission_map.specs.declared.runs.Run.{Run};
ghost use Rattle.permission_map.specs.Runs.{view_of_runs};
ghost use Rattle.certificate_check.specs.Certificates.{IsRight, RefusalStands};
ghost use Rattle.certificate_check.specs.declared.refusal.CheckRefusal.{CheckRefusal};
ghost use Rattle.planner_for_c.specs.declared.settings.SettingFault.{SettingFault};
ghost use Rattle.planner_for_c.specs.Checks.{IsChecked, certificate_code, check_code};
ghost use Rattle.planner_for_c.specs.Codes.{fault_code, no_memory};
ghost use Rattle.planner_for_c.specs.Settings.{FaultIn, LeadTo};

use crate::settings::{Setting, map_of};
use certificate_check::{CheckRefusal, check};
use std::alloc::Global;

/// Returns the code of a refusal.
fn code_of(refusal: CheckRefusal) -> i64
    ensures { result ≡ certificate_code refusal }
{
    -100 - i64::from(refusal.number())
}

/// Returns the code of a verdict.
fn number_of(verdict: Result<u32, CheckRefusal>) -> i64
    ensures { result ≡ check_code verdict }
{
    match verdict {
        Ok(n) => i64::from(n),
        Err(refusal) => code_of(refusal),
    }
}

/// Returns the number of entries in a certificate that is right for the settings' map. A negative number is a refusal:
/// of a setting or an allocation, as for `pmpmon_plan`, or of the certificate.
#[unsafe(no_mangle)]
pub extern "C" fn pmpmon_check(
    alloc: Global,
    settings: &[Setting],
    certificate: &[u8],
    at_fault: &mut u64,
) -> i64
    ensures checked { IsChecked settings.now certificate.now at_fault.old at_fault.new result }
    ensures right { (runs : List Run) (n : ℕ) → LeadTo [] settings.now runs
        → IsRight (view_of_runs runs) certificate.now n
        → (result ≡ pos n) ⊎ (result ≡ no_memory) }
    ensures wrong { (runs : List Run) (refusal : CheckRefusal) → LeadTo [] settings.now runs
        → RefusalStands (view_of_runs runs) certificate.now refusal
        → (result ≡ certificate_code refusal) ⊎ (result ≡ no_memory) }
    ensures refused { (i : ℕ) (fault : SettingFault) → FaultIn [] settings.now i fault
        → ((result ≡ fault_code fault) × (at_fault.new ≡ i)) ⊎ (result ≡ no_memory) }
{
    match map_of(alloc, settings) {
        Ok(map) => number_of(check(&map, certificate)),
        Err(refusal) => refusal.report(at_fault),
    }
}
