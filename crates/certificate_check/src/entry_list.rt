//! Reads the entries of a certificate.

ghost use Rattle.std.specs.Prelude.{◌≡◌, ℕ, ◌<◌, ◌≤◌, ◌++◌, List, length, IfOk, IfErr, OnOk, IsOk};
ghost use Rattle.pmp_encoding.specs.declared.region.Entry.{Entry};
ghost use Rattle.certificate_format.specs.Spelling.{SpellsEntry, SpellsEntries};
ghost use Rattle.certificate_check.specs.declared.refusal.CheckRefusal.{CheckRefusal};
ghost use Rattle.certificate_check.specs.Spans.{count_in};
ghost use Rattle.certificate_check.specs.Listed.{IsListed, EntryFault, ListFault, IsListAnswer};

use crate::entries::Entries;
use crate::refusal::CheckRefusal;
use certificate_format::Reader;
use pmp_encoding::decode;

/// Reads the nine bytes of an entry of at least a page.
pub(crate) fn entry(reader: &mut Reader) -> Result<(), CheckRefusal>
    ensures read { OnOk result ((e : Entry) × (front : List ℕ)
        × (reader.old ≡ front ++ reader.new)
        × SpellsEntry front e × (12 ≤ e.region.log2)) }
    ensures given { (e : Entry) (front rest : List ℕ) → reader.old ≡ front ++ rest
        → SpellsEntry front e
        → 12 ≤ e.region.log2 → IsOk result × (reader.new ≡ rest) }
    ensures fault { IfErr result (EntryFault reader.old) }
{
    let pair = reader.entry()?;
    let Ok(Some(entry)) = decode(pair.cfg(), pair.address()) else {
        return Err(CheckRefusal::BadEntry);
    };
    if entry.region.log2 < 12 {
        return Err(CheckRefusal::SubPageEntry);
    }
    Ok(())
}

/// Reads that many entries of at least a page.
pub(crate) fn entries(reader: &mut Reader, count: u32) -> Result<(), CheckRefusal>
    ensures read { OnOk result ((es : List Entry) × IsListed reader.old reader.new es
        × (length es ≡ count)) }
    ensures given { (es : List Entry) (rest : List ℕ) → IsListed reader.old rest es
        → length es ≡ count
        → IsOk result × (reader.new ≡ rest) }
    ensures fault { IfErr result (ListFault reader.old count) }
{
    for _ in 0..count {
        entry(reader)?;
    }
    Ok(())
}

/// Reads that many entries of at least a page, and returns their bytes.
pub(crate) fn listed<'a>(reader: &mut Reader<'a>, count: u32) -> Result<Entries<'a>, CheckRefusal>
    ensures read { IfOk result (λ list.
        (es : List Entry) × IsListed reader.old reader.new es × (length es ≡ count)
        × SpellsEntries list es) }
    ensures count { IfOk result (λ list. count_in list ≡ count) }
    ensures given { (es : List Entry) (rest : List ℕ) → IsListed reader.old rest es
        → length es ≡ count
        → IsListAnswer es rest result reader.new }
    ensures fault { IfErr result (ListFault reader.old count) }
{
    let whole = reader.rest();
    entries(reader, count)?;
    let left = reader.rest();
    Ok(Entries {
        bytes: &whole[..whole.len() - left.len()],
    })
}
