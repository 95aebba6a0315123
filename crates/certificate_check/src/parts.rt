//! Reads the parts of a certificate from the front of a window.

ghost use Rattle.std.specs.Prelude.{◌≡◌, ℕ, ◌∷◌, ◌++◌, ◌+◌, ◌<◌, ◌≤◌, ◌^◌, List, MatchResult, length, take};
ghost use Rattle.pmp_encoding.specs.declared.perm.Perm.{Perm};
ghost use Rattle.pmp_encoding.specs.declared.region.Entry.{Entry};
ghost use Rattle.pmp_encoding.specs.Perms.{bits_of};
ghost use Rattle.certificate_format.specs.Costs.{cost_of};
ghost use Rattle.certificate_format.specs.Faults.{HeaderFault, PermFault, ShortFault, TagFault};
ghost use Rattle.certificate_format.specs.Spelling.{costs_bytes, header_bytes, SpellsEntry};
ghost use Rattle.certificate_format.specs.Tags.{tag_byte};
ghost use Rattle.certificate_check.specs.Listed.{EntryFault};
ghost use Rattle.certificate_check.specs.Windows.{place, Reads};

use crate::entry_list::entry;
use crate::refusal::CheckRefusal;
use crate::window::Window;
use certificate_format::{Header, ReadFault, Reader, SixCosts, Tag};
use pmp_encoding::Perm;
use text_lines::Source;

fn header_in(bytes: &[u8]) -> Result<(Header, usize), ReadFault>
    ensures { MatchResult result (λ x.
        (rest : List ℕ) × (bytes.now ≡ header_bytes x.0 ++ rest) × (x.0.count < 2 ^ 32)
        × (x.1 + length rest ≡ length bytes.now)) (HeaderFault bytes.now) }
{
    let mut reader = Reader::new(bytes);
    match reader.header() {
        Ok(header) => Ok((header, bytes.len() - reader.rest().len())),
        Err(fault) => Err(fault),
    }
}

/// Reads the header, which has at most ten bytes.
pub(crate) fn header<R: Source>(window: &mut Window, source: &mut R) -> Result<Header, ReadFault>
    ensures { Reads (place R.remaining R.failures window.old source.old)
        (place R.remaining R.failures window.new source.new)
        (λ left rest. MatchResult result (λ header. (left ≡ header_bytes header ++ rest)
        × (header.count < 2 ^ 32)) (HeaderFault left)) }
{
    window.hold(source, 10);
    match header_in(window.held()) {
        Ok((header, len)) => {
            window.pass(len);
            Ok(header)
        }
        Err(fault) => Err(fault),
    }
}

#[inline(always)]
fn tag_in(bytes: &[u8]) -> Result<Tag, ReadFault>
    ensures { MatchResult result (λ tag.
        (rest : List ℕ) × (bytes.now ≡ tag_byte tag ∷ rest)) (TagFault bytes.now) }
{
    let mut reader = Reader::new(bytes);
    reader.tag()
}

/// Reads the kind of the next node.
#[inline(always)]
pub(crate) fn tag<R: Source>(window: &mut Window, source: &mut R) -> Result<Tag, ReadFault>
    ensures { Reads (place R.remaining R.failures window.old source.old)
        (place R.remaining R.failures window.new source.new)
        (λ left rest. MatchResult result (λ tag. left ≡ tag_byte tag ∷ rest) (TagFault left)) }
{
    window.hold(source, 1);
    match tag_in(window.held()) {
        Ok(tag) => {
            window.pass(1);
            Ok(tag)
        }
        Err(fault) => Err(fault),
    }
}

#[inline(always)]
fn perm_in(bytes: &[u8]) -> Result<Perm, ReadFault>
    ensures { MatchResult result (λ perm.
        (rest : List ℕ) × (bytes.now ≡ bits_of perm ∷ rest)) (PermFault bytes.now) }
{
    let mut reader = Reader::new(bytes);
    reader.perm()
}

/// Reads the permission of a leaf.
#[inline(always)]
pub(crate) fn perm<R: Source>(window: &mut Window, source: &mut R) -> Result<Perm, ReadFault>
    ensures { Reads (place R.remaining R.failures window.old source.old)
        (place R.remaining R.failures window.new source.new)
        (λ left rest. MatchResult result (λ perm. left ≡ bits_of perm ∷ rest) (PermFault left)) }
{
    window.hold(source, 1);
    match perm_in(window.held()) {
        Ok(perm) => {
            window.pass(1);
            Ok(perm)
        }
        Err(fault) => Err(fault),
    }
}

#[inline(always)]
fn costs_in(bytes: &[u8]) -> Result<SixCosts, ReadFault>
    ensures { MatchResult result (λ costs.
        (rest : List ℕ) × (bytes.now ≡ costs_bytes (cost_of costs) ++ rest)
        × ((perm : Perm) → cost_of costs perm < 2 ^ 32)) (ShortFault 24 bytes.now) }
{
    let mut reader = Reader::new(bytes);
    let costs = reader.costs()?;
    Ok(costs.six())
}

/// Reads the six costs of a branch.
#[inline(always)]
pub(crate) fn costs<R: Source>(window: &mut Window, source: &mut R) -> Result<SixCosts, ReadFault>
    ensures { Reads (place R.remaining R.failures window.old source.old)
        (place R.remaining R.failures window.new source.new)
        (λ left rest. MatchResult result (λ costs. (left ≡ costs_bytes (cost_of costs) ++ rest)
        × ((perm : Perm) → cost_of costs perm < 2 ^ 32)) (ShortFault 24 left)) }
{
    window.hold(source, 24);
    match costs_in(window.held()) {
        Ok(costs) => {
            window.pass(24);
            Ok(costs)
        }
        Err(fault) => Err(fault),
    }
}

/// Returns the first nine bytes.
fn nine_of(bytes: &[u8]) -> [u8; 9]
    requires { 9 ≤ length bytes.now }
    ensures { result ≡ take 9 bytes.now }
{
    let mut nine = [0; 9];
    nine.copy_from_slice(&bytes[..9]);
    nine
}

fn entry_in(bytes: &[u8]) -> Result<[u8; 9], CheckRefusal>
    ensures { MatchResult result (λ nine. (e : Entry) × (rest : List ℕ)
        × (bytes.now ≡ nine ++ rest) × SpellsEntry nine e × (12 ≤ e.region.log2))
        (EntryFault bytes.now) }
{
    let mut reader = Reader::new(bytes);
    match entry(&mut reader) {
        Ok(()) => Ok(nine_of(bytes)),
        Err(refusal) => Err(refusal),
    }
}

/// Reads the nine bytes of an entry of at least a page.
pub(crate) fn entry_bytes<R: Source>(
    window: &mut Window,
    source: &mut R,
) -> Result<[u8; 9], CheckRefusal>
    ensures { Reads (place R.remaining R.failures window.old source.old)
        (place R.remaining R.failures window.new source.new)
        (λ left rest. MatchResult result (λ nine. (e : Entry) × (left ≡ nine ++ rest)
        × SpellsEntry nine e × (12 ≤ e.region.log2)) (EntryFault left)) }
{
    window.hold(source, 9);
    match entry_in(window.held()) {
        Ok(nine) => {
            window.pass(9);
            Ok(nine)
        }
        Err(refusal) => Err(refusal),
    }
}
