//! The C function that judges an access.

ghost use Rattle.std.specs.Prelude.{◌≡◌, ◌≤◌, ◌<◌, ℕ, List, length, min, IfErr, IfOk, Result};
ghost use Rattle.pmp_encoding.specs.declared.fault.EncodingFault.{EncodingFault};
ghost use Rattle.pmp_encoding.specs.declared.region.Entry.{Entry};
ghost use Rattle.pmp_encoding.specs.Lists.{MeansList};
ghost use Rattle.pmp_encoding.specs.Registers.{byte_of};
ghost use Rattle.pmp_match.specs.declared.access.Access.{Access};
ghost use Rattle.pmp_match.specs.declared.cause.Cause.{Cause};
ghost use Rattle.pmp_match.specs.Judgement.{Judges};
ghost use Rattle.planner_for_c.specs.Accesses.{Says};
ghost use Rattle.planner_for_c.specs.Codes.{answer_code, pair_code, unknown_access};
ghost use Rattle.planner_for_c.specs.Judgements.{IsJudged};
ghost use Rattle.planner_for_c.specs.Registers.{HasFault, pairs_to};

use crate::access::AccessWords;
use crate::registers::Registers;
use arrayvec::ArrayVec;
use pmp_encoding::{Bank, EncodingFault, Entry, Limit, decode};
use pmp_match::{Access, Cause, judge};

/// Returns byte j of a word, where byte 0 is the lowest.
fn byte_of(word: u64, j: usize) -> u8
    requires { j < 8 }
    ensures { result ≡ byte_of word j }
{
    ((word >> (8 * j)) % 256) as u8
}

/// Decodes the first `count` pairs of the registers, or returns the fault of the first invalid pair.
fn entries_of(registers: &Registers, count: usize) -> Result<ArrayVec<Entry, 64>, EncodingFault>
    requires { count ≤ 64 }
    ensures list { IfOk result (λ entries.
        MeansList (pairs_to registers.now count) entries.items) }
    ensures few { IfOk result (λ entries. length entries.items ≤ 64) }
    ensures fault { IfErr result (HasFault registers.now count) }
{
    let mut entries = ArrayVec::new();
    for place in 0..count {
        let cfg = byte_of(registers.cfg[place / 8], place % 8);
        let found = decode(cfg, registers.addr[place])?;
        if let Some(entry) = found {
            entries.push(entry);
        }
    }
    Ok(entries)
}

/// Returns the outcome of the access under these entries.
fn outcome_of(entries: &[Entry], access: &Access) -> i64
    requires { length entries.now ≤ 64 }
    ensures { (answer : Result (Unit {0}) Cause) × Judges entries.now access.now answer
        × (result ≡ answer_code answer) }
{
    let bank = Bank::of(entries, Limit::SixtyFour);
    match judge(&bank, access) {
        Ok(()) => 64,
        Err(cause) => i64::from(cause.number()),
    }
}

/// Returns the code of a pair's fault.
fn code_of(fault: EncodingFault) -> i64
    ensures { result ≡ pair_code fault }
{
    match fault {
        EncodingFault::ReservedPerm => -11,
        EncodingFault::Tor => -12,
        EncodingFault::Locked => -13,
        EncodingFault::ReservedBits => -14,
        EncodingFault::AddressBits => -15,
        EncodingFault::NoSuchCsr => -16,
    }
}

/// Returns the outcome of the access on a hart with `entries` entries that has loaded the registers: 64 if it is
/// allowed, otherwise the exception code. A negative number is a refusal: the access is invalid, or a pair of the
/// registers has a fault.
#[unsafe(no_mangle)]
pub extern "C" fn pmpmon_judge(registers: &Registers, entries: u64, access: &AccessWords) -> i64
    ensures judged { IsJudged registers.now (min entries 64) access.now result }
    ensures listed { (a : Access) (list : List Entry) (answer : Result (Unit {0}) Cause)
        → Says access.now a
        → MeansList (pairs_to registers.now (min entries 64)) list → Judges list a answer
        → result ≡ answer_code answer }
    ensures faulty { (a : Access) (fault : EncodingFault) → Says access.now a
        → HasFault registers.now (min entries 64) fault → result ≡ pair_code fault }
    ensures unknown { ((a : Access) → ¬ Says access.now a) → result ≡ unknown_access }
{
    let Some(access) = access.access() else {
        return -7;
    };
    match entries_of(registers, entries.min(64) as usize) {
        Ok(list) => outcome_of(&list, &access),
        Err(fault) => code_of(fault),
    }
}
