//! Checks the parts of a certificate in the order of reading, and reports the first fault.

ghost use Rattle.std.specs.Prelude.{◌≡◌, ◌≤◌, ◌↔◌, ℕ, List, IfOk, IfErr, MatchResult, length};
ghost use Rattle.pmp_encoding.specs.declared.region.Entry.{Entry};
ghost use Rattle.pmp_match.specs.Meaning.{Means};
ghost use Rattle.permission_map.specs.Runs.{view_of_runs};
ghost use Rattle.certificate_check.specs.Certificates.{IsBegun, IsRight, HoldsFewest, RefusalStands};
ghost use Rattle.certificate_check.specs.declared.refusal.CheckRefusal.{CheckRefusal};
ghost use Rattle.certificate_check.specs.Spans.{count_in};
ghost use Rattle.certificate_check.specs.Windows.{place, Reads};

use crate::entries::Entries;
use crate::entry_list::listed;
use crate::nodes::root;
use crate::refusal::CheckRefusal;
use crate::sweep::means;
use crate::window::Window;
use certificate_format::{Header, Reader};
use permission_map::PermissionMap;
use text_lines::Source;

/// Reads the root after the entries, and reports the first fault in the remaining checks.
pub(crate) fn rest_is_right<R: Source>(
    map: &PermissionMap,
    header: &Header,
    list: &Entries,
    window: &mut Window,
    source: &mut R,
) -> Result<(), CheckRefusal>
    requires { count_in list.now ≡ header.now.count }
    ensures { Reads (place R.remaining R.failures window.old source.old)
        (place R.remaining R.failures window.new source.new)
        (λ left rest. (bytes : List ℕ) (entries : List Entry)
        → IsBegun bytes list.now left header.now entries
        → MatchResult result (λ _. IsRight (view_of_runs map.now) bytes header.now.count)
        (RefusalStands (view_of_runs map.now) bytes)) }
{
    let root = root(window, source, map)?;
    if header.count > root.no_access {
        return Err(CheckRefusal::EntriesTooMany);
    }
    if !means(list, map) {
        return Err(CheckRefusal::WrongMeaning);
    }
    if !window.is_done(source) {
        return Err(CheckRefusal::Trailing);
    }
    Ok(())
}

/// Reads the parts in order, and reports the first fault.
fn read_whole(map: &PermissionMap, bytes: &[u8]) -> Result<u32, CheckRefusal>
    ensures right { IfOk result (IsRight (view_of_runs map.now) bytes.now) }
    ensures fault { IfErr result (RefusalStands (view_of_runs map.now) bytes.now) }
{
    let mut reader = Reader::new(bytes);
    let header = reader.header()?;
    let list = listed(&mut reader, header.count)?;
    let mut window = Window::new(u64::MAX);
    let mut rest = reader.rest();
    rest_is_right(map, &header, &list, &mut window, &mut rest)?;
    Ok(header.count)
}

/// Checks that the bytes are a right certificate of fewest entries for the map, and returns the number of its entries.
///
/// `Ok` means that the bytes contain that many entries that mean the map (RISC-V Privileged Architecture, Physical
/// Memory Protection), and that no shorter list does. The refusal is the first in the order of reading: header,
/// entries, nodes in preorder, and then the number of entries, their meaning, and bytes after the root.
pub fn check(map: &PermissionMap, bytes: &[u8]) -> Result<u32, CheckRefusal>
    ensures fewest { IfOk result (HoldsFewest (view_of_runs map.now) bytes.now) }
    ensures least { IfOk result (λ n.
        (others : List Entry) → Means others (view_of_runs map.now) → n ≤ length others) }
    ensures right { (n : ℕ) → (result ≡ Ok n) ↔ IsRight (view_of_runs map.now) bytes.now n }
    ensures fault { (refusal : CheckRefusal)
        → (result ≡ Err refusal) ↔ RefusalStands (view_of_runs map.now) bytes.now refusal }
{
    read_whole(map, bytes)
}
