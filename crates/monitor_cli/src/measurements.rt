//! Parts of `run`: the machine that boots on a platform, and the measurements after its report.

ghost use Rattle.std.specs.Prelude.{◌≡◌, ◌-◌, ◌^◌, ◌<◌, ◌≤◌, ◌++◌, ◌⊎◌, ℕ, List, Err, IfErr, IfOk, IfSome, None, true};
ghost use Rattle.byteorder.specs.Endian.{little_bytes};
ghost use Rattle.text_lines.specs.Writings.{writing, Breaks, IsWell, PrintsOne, TakesAll};
ghost use Rattle.enclave_table.specs.Boot.{IsBootFault};
ghost use Rattle.platforms.specs.declared.boot_fault.BootFault.{BootFault};
ghost use Rattle.enclave_table.specs.declared.enclave.Enclave.{Enclave};
ghost use Rattle.enclave_table.specs.Digests.{AnswersWord};
ghost use Rattle.enclave_table.specs.Enclaves.{Live};
ghost use Rattle.hart_sim.specs.After.{IsBooted};
ghost use Rattle.hart_sim.specs.Machines.{kept_of, KeepsBanksRight};
ghost use Rattle.monitor_cli.specs.Platforms.{boot_trouble};
ghost use Rattle.monitor_cli.specs.Runs.{IsMeasured};
ghost use Rattle.monitor_cli.specs.Measurements.{AreMeasures, IsDigest, IsMeasureText};

use byteorder::{ByteOrder, LittleEndian};
use enclave_table::Table;
use hart_sim::Machine;
use map_text::measure_line;
use platforms::{BootFault, Platform};
use program_files::Trouble;
use std::alloc::Global;
use text_lines::{DeviceFault, Sink, write_whole};

/// Maximum number of live enclaves, and their largest id.
const ENCLAVES: u64 = 64;

/// Boots the machine of a platform.
pub fn boot_machine<'a>(alloc: Global, platform: Platform) -> Result<Machine, Trouble<'a>>
    ensures kept { IfOk result (λ machine. KeepsBanksRight machine) }
    ensures booted { IfOk result (IsBooted platform) }
    ensures refused { IfErr result (λ trouble.
        (fault : BootFault) × IsBootFault platform fault × (trouble ≡ boot_trouble fault)) }
{
    match Machine::boot(alloc, platform) {
        Ok(machine) => Ok(machine),
        Err(BootFault::NeedsMoreEntries(needed)) => Err(Trouble::NeedsEntries { needed }),
        Err(BootFault::Memory) => Err(Trouble::Memory),
    }
}

/// Returns a word of the digest of an enclave, or `None` if it is not live.
#[tactic(auto, using(crate::proofs::Live::not_live))]
fn word_of(table: &Table, id: u64, k: u64) -> Option<u64>
    requires { k < 4 }
    ensures some { IfSome result (AnswersWord table.now.table id k) }
    ensures none { result ≡ None → (enclave : Enclave) → ¬ Live table.now.table id enclave }
{
    match table.word(id, k) {
        Ok(word) => Some(word),
        Err(_) => None,
    }
}

/// Returns four words as little-endian bytes.
fn bytes_of(first: u64, second: u64, third: u64, fourth: u64) -> [u8; 32]
    ensures { result ≡ little_bytes 8 first ++
        (little_bytes 8 second ++ (little_bytes 8 third ++ little_bytes 8 fourth)) }
{
    let mut bytes = [0; 32];
    LittleEndian::write_u64(&mut bytes[..8], first);
    LittleEndian::write_u64(&mut bytes[8..16], second);
    LittleEndian::write_u64(&mut bytes[16..24], third);
    LittleEndian::write_u64(&mut bytes[24..], fourth);
    bytes
}

/// Returns the digest of an enclave, or `None` if it is not live.
fn digest_of(table: &Table, id: u64) -> Option<[u8; 32]>
    ensures some { IfSome result (IsDigest table.now.table id) }
    ensures none { result ≡ None → (enclave : Enclave) → ¬ Live table.now.table id enclave }
{
    let first = word_of(table, id, 0)?;
    let second = word_of(table, id, 1)?;
    let third = word_of(table, id, 2)?;
    let fourth = word_of(table, id, 3)?;
    Some(bytes_of(first, second, third, fourth))
}

/// Writes the line of an enclave, if it is live.
fn print_measure<W: Sink>(table: &Table, id: u64, out: &mut W) -> Result<(), DeviceFault>
    ensures { PrintsOne (IsMeasureText table.now.table id)
        (writing W.contents W.failures W.stalls out.old out.new) result }
{
    let Some(digest) = digest_of(table, id) else {
        return Ok(());
    };
    let line = measure_line(id, &digest);
    write_whole(out, line.as_slice())?;
    Ok(())
}

/// Writes a line for each live enclave, by ascending id.
pub fn print_measures<W: Sink>(table: &Table, out: &mut W) -> Result<(), DeviceFault>
    ensures written { IfOk result (λ _. (text : List ℕ)
        × AreMeasures table.now.table 64 text
        × TakesAll text (writing W.contents W.failures W.stalls out.old out.new)) }
    ensures broken { IfErr result (λ _. (n : ℕ) × (n ≤ 64) × (text : List ℕ)
        × AreMeasures table.now.table n text
        × Breaks text (writing W.contents W.failures W.stalls out.old out.new)) }
{
    for i in 0..ENCLAVES {
        print_measure(table, i + 1, out)?;
    }
    Ok(())
}

/// Prints the measurements of a machine's enclaves if they are requested.
pub fn measure_where<W: Sink>(
    machine: &Machine,
    measure: bool,
    out: &mut W,
) -> Result<(), DeviceFault>
    ensures measured { IfOk result (λ _. IsMeasured measure machine.now (W.contents out.old)
        (W.contents out.new)) }
    ensures well { IfOk result (λ _. IsWell
        (writing W.contents W.failures W.stalls out.old out.new)) }
    ensures asked { IfErr result (λ _. measure ≡ true) }
    ensures broken { IfErr result (λ _. (n : ℕ) × (n ≤ 64) × (text : List ℕ)
        × AreMeasures (kept_of machine.now).table n text
        × Breaks text (writing W.contents W.failures W.stalls out.old out.new)) }
{
    if !measure {
        return Ok(());
    }
    print_measures(machine.table(), out)?;
    Ok(())
}
