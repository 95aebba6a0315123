//! Removes the extensions that the monitor closes from a hart's list.

ghost use Rattle.std.specs.Prelude.{◌≡◌, ◌++◌, ◌∷◌, IfErr, IfOk, OnOk, List, [], drop};
ghost use Rattle.host_tree.specs.Extensions.{is_closed_name, kept_unit, open_from, open_names};

use crate::fault::MakeFault;
use crate::write_fault::WriteFault;
use std::alloc::Global;

/// Returns whether the monitor closes the extension of that name: it needs bits in `menvcfg`, `mseccfg` or `mstateen0`
/// that stay zero, counters other than the time, which alone `mcounteren` opens, or calls that the monitor lacks.
fn is_closed_name(name: &[u8]) -> bool
    ensures { result ≡ is_closed_name name.now }
{
    name == b"svadu".as_slice()
        || name == b"svpbmt".as_slice()
        || name == b"zkr".as_slice()
        || name == b"zicfilp".as_slice()
        || name == b"zicfiss".as_slice()
        || name == b"ssnpm".as_slice()
        || name == b"sscofpmf".as_slice()
        || name == b"smcdeleg".as_slice()
        || name == b"ssccfg".as_slice()
        || name == b"ssctr".as_slice()
        || name == b"ssdbltrp".as_slice()
        || name == b"smstateen".as_slice()
        || name == b"ssstateen".as_slice()
        || name == b"smaia".as_slice()
        || name == b"ssaia".as_slice()
        || name == b"smcsrind".as_slice()
        || name == b"sscsrind".as_slice()
        || name == b"zcmt".as_slice()
        || name == b"zicntr".as_slice()
        || name == b"zihpm".as_slice()
}

/// Appends bytes.
fn put_bytes(out: &mut Vec<u8>, bytes: &[u8]) -> Result<(), MakeFault>
    ensures put { OnOk result (out.new.items ≡ out.old.items ++ bytes.now) }
    ensures refused { IfErr result (λ fault. fault ≡ MakeFault.NotWritten WriteFault.Memory) }
{
    let Ok(()) = out.extend_from_slice(bytes) else {
        return Err(MakeFault::NotWritten(WriteFault::Memory));
    };
    Ok(())
}

/// Appends a separator and the name after it unless the name is closed.
fn put_unit(out: &mut Vec<u8>, unit: &[u8]) -> Result<(), MakeFault>
    ensures put { OnOk result (out.new.items ≡ out.old.items ++ kept_unit unit.now) }
    ensures refused { IfErr result (λ fault. fault ≡ MakeFault.NotWritten WriteFault.Memory) }
{
    let Some((_, name)) = unit.split_first() else {
        return Ok(());
    };
    if is_closed_name(name) {
        return Ok(());
    }
    put_bytes(out, unit)
}

/// Replaces the unit with one byte.
fn begin_unit(unit: &mut Vec<u8>, byte: u8) -> Result<(), MakeFault>
    ensures put { OnOk result (unit.new.items ≡ byte ∷ []) }
    ensures refused { IfErr result (λ fault. fault ≡ MakeFault.NotWritten WriteFault.Memory) }
{
    unit.clear();
    let Ok(()) = unit.push(byte) else {
        return Err(MakeFault::NotWritten(WriteFault::Memory));
    };
    Ok(())
}

/// Appends a byte to the unit.
fn add_byte(unit: &mut Vec<u8>, byte: u8) -> Result<(), MakeFault>
    ensures put { OnOk result (unit.new.items ≡ unit.old.items ++ byte ∷ []) }
    ensures refused { IfErr result (λ fault. fault ≡ MakeFault.NotWritten WriteFault.Memory) }
{
    let Ok(()) = unit.push(byte) else {
        return Err(MakeFault::NotWritten(WriteFault::Memory));
    };
    Ok(())
}

/// Returns the names that are not closed, each after its separator; `_` precedes the first name.
fn open_units(alloc: Global, names: &[u8]) -> Result<Vec<u8>, MakeFault>
    ensures ok { IfOk result (λ kept. kept.items ≡ open_from (95 ∷ []) names.now) }
    ensures refused { IfErr result (λ fault. fault ≡ MakeFault.NotWritten WriteFault.Memory) }
{
    let mut open = Vec::new(alloc);
    let mut unit = Vec::new(alloc);
    begin_unit(&mut unit, b'_')?;
    for byte in names {
        if *byte == b'_' || *byte == 0 {
            put_unit(&mut open, unit.as_slice())?;
            begin_unit(&mut unit, *byte)?;
        } else {
            add_byte(&mut unit, *byte)?;
        }
    }
    put_unit(&mut open, unit.as_slice())?;
    Ok(open)
}

/// Returns the value of `riscv,isa` or `riscv,isa-extensions` without the names that are closed.
pub(crate) fn open_names(alloc: Global, names: &[u8]) -> Result<Vec<u8>, MakeFault>
    ensures ok { IfOk result (λ kept. kept.items ≡ open_names names.now) }
    ensures refused { IfErr result (λ fault. fault ≡ MakeFault.NotWritten WriteFault.Memory) }
{
    let units = open_units(alloc, names)?;
    let mut open = Vec::new(alloc);
    if let Some((_, later)) = units.as_slice().split_first() {
        put_bytes(&mut open, later)?;
    }
    Ok(open)
}
