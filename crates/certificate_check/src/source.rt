//! Checks a certificate from a source: the entries are stored, and the nodes are read through a window.

ghost use Rattle.std.specs.Prelude.{◌≡◌, ◌≢◌, ℕ, ◌<◌, ◌≤◌, ◌^◌, List, IfOk, Some, MatchResult, Ok, Err, length};
ghost use Rattle.std.specs.Io.KnownBytes.{Consumes, IsAtEnd};
ghost use Rattle.text_lines.specs.Streams.{GrowsByOne};
ghost use Rattle.pmp_encoding.specs.declared.region.Entry.{Entry};
ghost use Rattle.certificate_format.specs.Spelling.{SpellsEntries};
ghost use Rattle.permission_map.specs.Runs.{view_of_runs};
ghost use Rattle.certificate_check.specs.Certificates.{CertificateNotStored, IsJudged, IsRightWith, RefusalStands, ClaimFitsFile};
ghost use Rattle.certificate_check.specs.Listed.{AreListed, IsListed, ListFault};
ghost use Rattle.certificate_check.specs.Spans.{count_in, AreEntries};
ghost use Rattle.certificate_check.specs.Windows.{found_of, place, Reads, StandsIn};
ghost use Rattle.certificate_check.specs.declared.stop.Stop.TheVariants.{Unheld};

use crate::certificate::rest_is_right;
use crate::entries::Entries;
use crate::parts::{entry_bytes, header};
use crate::refusal::CheckRefusal;
use crate::stop::Stop;
use crate::window::Window;
use certificate_format::Header;
use permission_map::PermissionMap;
use std::alloc::Global;
use text_lines::{Source, SourceFault};

/// Size of an entry in bytes.
const ENTRY_BYTES: u64 = 9;

/// Reads that many entries of at least a page, and returns their bytes.
fn entries_from<R: Source>(
    alloc: Global,
    window: &mut Window,
    source: &mut R,
    count: u32,
) -> Result<Vec<u8>, Stop>
    ensures read { Reads (place R.remaining R.failures window.old source.old)
        (place R.remaining R.failures window.new source.new)
        (λ left rest. MatchResult result (λ list. (es : List Entry) × IsListed left rest es
        × (length es ≡ count) × SpellsEntries list.items es) (StandsIn (ListFault left count))) }
    ensures entries { IfOk result (λ list. AreEntries list.items) }
    ensures count { IfOk result (λ list. count_in list.items ≡ count) }
{
    let mut list = Vec::new(alloc);
    for _ in 0..count {
        let nine = entry_bytes(window, source)?;
        let Ok(()) = list.extend_from_slice(nine.as_slice()) else {
            return Err(Stop::Unheld);
        };
    }
    Ok(list)
}

/// Reads the entries of a certificate with more of them than the limit allows, without storing them, up to the first
/// fault.
fn stop_among<R: Source>(window: &mut Window, source: &mut R, count: u32) -> Stop
    ensures refused { Reads (place R.remaining R.failures window.old source.old)
        (place R.remaining R.failures window.new source.new)
        (λ left _. StandsIn (ListFault left count) result) }
    ensures unheld { result ≡ Unheld
        → Reads (place R.remaining R.failures window.old source.old)
        (place R.remaining R.failures window.new source.new) (AreListed count) }
{
    for _ in 0..count {
        match entry_bytes(window, source) {
            Ok(_) => (),
            Err(refusal) => return Stop::Refused(refusal),
        }
    }
    Stop::Unheld
}

/// Reads the parts in order, and returns the header of a right certificate.
fn read_parts<R: Source>(
    alloc: Global,
    map: &PermissionMap,
    window: &mut Window,
    source: &mut R,
) -> Result<Header, Stop>
    ensures read { Reads (place R.remaining R.failures window.old source.old)
        (place R.remaining R.failures window.new source.new)
        (λ left rest. MatchResult result (IsRightWith (view_of_runs map.now) left)
        (StandsIn (RefusalStands (view_of_runs map.now) left))) }
    ensures unheld { result ≡ Err Unheld
        → Reads (place R.remaining R.failures window.old source.old)
        (place R.remaining R.failures window.new source.new)
        (CertificateNotStored window.old.most) }
{
    let header = header(window, source)?;
    if ENTRY_BYTES * u64::from(header.count) > window.most() {
        return Err(stop_among(window, source, header.count));
    }
    let list = entries_from(alloc, window, source, header.count)?;
    let entries = Entries {
        bytes: list.as_slice(),
    };
    rest_is_right(map, &header, &entries, window, source)?;
    Ok(header)
}

/// Returns the verdict on the bytes, unless the entries could not be stored.
fn found_in(parts: Result<Header, Stop>) -> Option<Result<Header, CheckRefusal>>
    ensures { result ≡ found_of parts }
{
    match parts {
        Ok(header) => Some(Ok(header)),
        Err(Stop::Refused(refusal)) => Some(Err(refusal)),
        Err(Stop::Unheld) => None,
    }
}

/// Checks that the bytes of a source, at most `most`, are a right certificate of fewest entries for the map. Returns
/// its header or the refusal, as [`check`](crate::check) does for all the bytes. The source is read to its end. The
/// result is `Read` iff the source failed during this call.
///
/// The entries, nine bytes each, and a window of fixed size are kept in memory. If the entries of the header would
/// exceed `most`, none is stored; `Memory` is never returned for such a certificate.
pub fn check_source<R: Source>(
    alloc: Global,
    map: &PermissionMap,
    source: &mut R,
    most: u32,
) -> Result<Result<Header, CheckRefusal>, SourceFault>
    ensures whole { IfOk result (λ found. (bytes : List ℕ)
        × Consumes (R.remaining source.old) (R.remaining source.new) bytes
        × IsAtEnd (R.remaining source.new) × (length bytes ≤ most)
        × IsJudged (view_of_runs map.now) bytes found) }
    ensures large { result ≡ Err SourceFault.TooLarge
        → (bytes : List ℕ) × Consumes (R.remaining source.old) (R.remaining source.new) bytes
        × (most < length bytes) }
    ensures memory { result ≡ Err SourceFault.Memory
        → (bytes : List ℕ) × Consumes (R.remaining source.old) (R.remaining source.new) bytes
        × ClaimFitsFile most bytes }
    ensures failed { result ≡ Err SourceFault.Read
        → GrowsByOne (R.failures source.old) (R.failures source.new) }
    ensures well { result ≢ Err SourceFault.Read
        → R.failures source.new ≡ R.failures source.old }
{
    let mut window = Window::new(u64::from(most));
    let parts = read_parts(alloc, map, &mut window, source);
    let Some(found) = found_in(parts) else {
        return Err(window.stopped_by());
    };
    window.drain(source);
    match window.fault() {
        None => Ok(found),
        Some(fault) => Err(fault),
    }
}
