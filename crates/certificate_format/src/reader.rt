//! A cursor over the bytes of a certificate.

ghost use Rattle.std.specs.Prelude.{◌≡◌, ℕ, ◌∷◌, ◌++◌, ◌^◌, ◌<◌, ◌↔◌, List, MatchResult, IfOk, OnErr, Ok, Err};
ghost use Rattle.pmp_encoding.specs.declared.perm.Perm.{Perm};
ghost use Rattle.pmp_encoding.specs.Perms.{bits_of};
ghost use Rattle.certificate_format.specs.declared.fault.ReadFault.{ReadFault};
ghost use Rattle.certificate_format.specs.declared.header.Header.{Header};
ghost use Rattle.certificate_format.specs.declared.reader.Tag.{Tag};
ghost use Rattle.certificate_format.specs.Costs.{cost_of, six_of};
ghost use Rattle.certificate_format.specs.Spelling.{magic, version_bytes, u32_bytes, header_bytes, pair_bytes, costs_bytes};
ghost use Rattle.certificate_format.specs.Tags.{tag_byte};
ghost use Rattle.certificate_format.specs.Faults.{ShortFault, MagicFault, VersionFault, HeaderFault, TagFault, PermFault};

use crate::costs::BranchCosts;
use crate::fault::ReadFault;
use crate::header::{Header, Version};
use crate::parts::EntryBytes;
use byteorder::{ByteOrder, LittleEndian};
use pmp_encoding::{Limit, Perm};
use std::marker::Model;

/// The kind of the next node.
#[derive(Clone, Copy, PartialEq, Eq)]
pub enum Tag {
    Leaf,
    Branch,
}

/// A position in the bytes of a certificate. Contracts see the remaining bytes.
#[derive(Drop)]
pub struct Reader<'a> {
    bytes: &'a [u8],
}

impl<'a> Model for Reader<'a> {
    ghost use Rattle.std.specs.Prelude.{ℕ, List};

    ghost Value = { List ℕ };

    ghost view = { λ r. r.bytes.now };
}

fn after_magic(bytes: &[u8]) -> Result<&[u8], ReadFault>
    ensures { MatchResult result (λ rest. bytes.now ≡ magic ++ rest.now) (MagicFault bytes.now) }
{
    if bytes.len() < 4 {
        return Err(ReadFault::Truncated);
    }
    let (front, rest) = bytes.split_at(4);
    if front != b"PMPC".as_slice() {
        return Err(ReadFault::BadMagic);
    }
    Ok(rest)
}

fn version_of(bytes: &[u8]) -> Result<(Version, &[u8]), ReadFault>
    ensures { MatchResult result (λ x.
        bytes.now ≡ version_bytes x.0 ++ x.1.now) (VersionFault bytes.now) }
{
    match bytes {
        [1, rest @ ..] => Ok((Version::One, rest)),
        [2, 0x10, rest @ ..] => Ok((Version::Two(Limit::Sixteen), rest)),
        [2, 0x40, rest @ ..] => Ok((Version::Two(Limit::SixtyFour), rest)),
        [2, _, ..] => Err(ReadFault::BadLimit),
        [] | [2] => Err(ReadFault::Truncated),
        _ => Err(ReadFault::BadVersion),
    }
}

fn count_of(bytes: &[u8]) -> Result<(u32, &[u8]), ReadFault>
    ensures { MatchResult result (λ x.
        bytes.now ≡ u32_bytes x.0 ++ x.1.now) (ShortFault 4 bytes.now) }
{
    if bytes.len() < 4 {
        return Err(ReadFault::Truncated);
    }
    let (front, rest) = bytes.split_at(4);
    Ok((LittleEndian::read_u32(front), rest))
}

fn header_of(bytes: &[u8]) -> Result<(Header, &[u8]), ReadFault>
    ensures { MatchResult result (λ x.
        (bytes.now ≡ header_bytes x.0 ++ x.1.now) × (x.0.count < 2 ^ 32))
        (HeaderFault bytes.now) }
{
    let rest = after_magic(bytes)?;
    let (version, rest) = version_of(rest)?;
    let (count, rest) = count_of(rest)?;
    Ok((Header { version, count }, rest))
}

impl<'a> Reader<'a> {
    /// Returns a cursor at the front of the bytes.
    pub fn new(bytes: &'a [u8]) -> Reader<'a>
        ensures { result ≡ bytes.entry.now }
    {
        Reader { bytes }
    }

    /// Returns the remaining bytes.
    pub fn rest(&self) -> &'a [u8]
        ensures { result.now ≡ self.now }
    {
        self.bytes
    }

    /// Reads the version and the number of entries. Fails with `Truncated` if bytes are missing, and with `BadMagic`,
    /// `BadVersion` or `BadLimit` if they are wrong. On a fault this method, like those below, does not advance.
    pub fn header(&mut self) -> Result<Header, ReadFault>
        ensures read { IfOk result (λ header. self.old ≡ header_bytes header ++ self.new) }
        ensures fits { IfOk result (λ header. header.count < 2 ^ 32) }
        ensures whole { (header : Header) (rest : List ℕ) → header.count < 2 ^ 32
            → self.old ≡ header_bytes header ++ rest → (result ≡ Ok header) × (self.new ≡ rest) }
        ensures fault { (f : ReadFault) → (result ≡ Err f) ↔ HeaderFault self.old f }
        ensures kept { OnErr result (self.new ≡ self.old) }
    {
        let (header, rest) = header_of(self.rest())?;
        *self = Reader::new(rest);
        Ok(header)
    }

    /// Reads the nine bytes of the next entry, without checking them. Fails with `Truncated` if fewer remain.
    pub fn entry(&mut self) -> Result<EntryBytes<'a>, ReadFault>
        ensures read { IfOk result (λ pair. self.old ≡ pair_bytes pair ++ self.new) }
        ensures fits { IfOk result (λ pair. pair.1 < 2 ^ 64) }
        ensures whole { (pair : ℕ × ℕ) (rest : List ℕ) → pair.1 < 2 ^ 64
            → self.old ≡ pair_bytes pair ++ rest
            → (result ≡ Ok pair) × (self.new ≡ rest) }
        ensures fault { (f : ReadFault) → (result ≡ Err f) ↔ ShortFault 9 self.old f }
        ensures kept { OnErr result (self.new ≡ self.old) }
    {
        let Some((bytes, rest)) = self.rest().split_at_checked(9) else {
            return Err(ReadFault::Truncated);
        };
        *self = Reader::new(rest);
        Ok(EntryBytes::of(bytes))
    }

    /// Reads the kind of the next node. Fails with `Truncated` at the end, and with `BadTag` for any other byte.
    pub fn tag(&mut self) -> Result<Tag, ReadFault>
        ensures read { IfOk result (λ tag. self.old ≡ tag_byte tag ∷ self.new) }
        ensures whole { (tag : Tag) (rest : List ℕ) → self.old ≡ tag_byte tag ∷ rest
            → (result ≡ Ok tag) × (self.new ≡ rest) }
        ensures fault { (f : ReadFault) → (result ≡ Err f) ↔ TagFault self.old f }
        ensures kept { OnErr result (self.new ≡ self.old) }
    {
        let Some((byte, rest)) = self.rest().split_first() else {
            return Err(ReadFault::Truncated);
        };
        let tag = match *byte {
            0 => Tag::Leaf,
            1 => Tag::Branch,
            _ => return Err(ReadFault::BadTag),
        };
        *self = Reader::new(rest);
        Ok(tag)
    }

    /// Reads the permission of a leaf. Fails with `Truncated` at the end, and with `BadPerm` for any other byte.
    #[inline(always)]
    pub fn perm(&mut self) -> Result<Perm, ReadFault>
        ensures read { IfOk result (λ perm. self.old ≡ bits_of perm ∷ self.new) }
        ensures whole { (perm : Perm) (rest : List ℕ) → self.old ≡ bits_of perm ∷ rest
            → (result ≡ Ok perm) × (self.new ≡ rest) }
        ensures fault { (f : ReadFault) → (result ≡ Err f) ↔ PermFault self.old f }
        ensures kept { OnErr result (self.new ≡ self.old) }
    {
        let Some((bits, rest)) = self.rest().split_first() else {
            return Err(ReadFault::Truncated);
        };
        let Some(perm) = Perm::from_bits(*bits) else {
            return Err(ReadFault::BadPerm);
        };
        *self = Reader::new(rest);
        Ok(perm)
    }

    /// Reads the bytes of the six costs of a branch, without checking them. Fails with `Truncated` if fewer than 24
    /// bytes remain.
    pub fn costs(&mut self) -> Result<BranchCosts<'a>, ReadFault>
        ensures read { IfOk result (λ costs.
            self.old ≡ costs_bytes (cost_of costs) ++ self.new) }
        ensures fits { IfOk result (λ costs. (perm : Perm) → cost_of costs perm < 2 ^ 32) }
        ensures whole { (costs : Perm → ℕ) (rest : List ℕ)
            → ((perm : Perm) → costs perm < 2 ^ 32)
            → self.old ≡ costs_bytes costs ++ rest
            → (result ≡ Ok (six_of costs)) × (self.new ≡ rest) }
        ensures fault { (f : ReadFault) → (result ≡ Err f) ↔ ShortFault 24 self.old f }
        ensures kept { OnErr result (self.new ≡ self.old) }
    {
        let Some((bytes, rest)) = self.rest().split_at_checked(24) else {
            return Err(ReadFault::Truncated);
        };
        *self = Reader::new(rest);
        Ok(BranchCosts::of(bytes))
    }
}
