//! The first frame: the platform.

ghost use Rattle.std.specs.Prelude.{◌≡◌, ◌≤◌, ◌<◌, ◌+◌, ◌*◌, ◌⊎◌, IfOk, IfErr, IfSome, IfNone, Some, ℕ};
ghost use Rattle.pmp_encoding.specs.Perms.{bits_of};
ghost use Rattle.pmp_encoding.specs.declared.perm.Perm.{Perm as PermOf};
ghost use Rattle.platforms.specs.Platform.{PlatformLayout, IsLayout, platform_rules};
ghost use Rattle.platforms.specs.CheckLists.{AllPass};
ghost use Rattle.text_lines.specs.Streams.{CountsFailure};
ghost use Rattle.trap_server.specs.Words.{word_at};
ghost use Rattle.trap_server.specs.Traps.{CountsRead};
ghost use Rattle.trap_server.specs.Platforms.{AreFew, AreNoRanges, IsNoPlatform, IsPlatformFrame, device_words, ram_in, words_of, ReadsPlatform};

use crate::end::EndReason;
use crate::frame::{TAG_PLATFORM, word};
use crate::frame_bytes::read_whole;
use crate::frame_fault::FrameFault;
use arrayvec::ArrayVec;
use platforms::{Platform, PlatformFault};
use pmp_encoding::Perm;
use text_lines::Source;

/// The size of the platform frame: its tag, six numbers, and room for 32 ranges of memory and 32 devices.
const PLATFORM_BYTES: usize = 1336;

/// The maximal number of ranges, and of devices.
const MOST: u64 = 32;

/// Reads the ranges of memory, two words each, from word 7 on.
#[tactic(auto, using(crate::proofs::Lengths::ram_length))]
fn ram_in(bytes: &[u8; 1336], count: usize) -> ArrayVec<(u64, u64), 32>
    requires { count ≤ 32 }
    ensures { result.items ≡ ram_in bytes.now count }
{
    let mut ram = ArrayVec::new();
    for i in 0..count {
        ram.push((word(bytes, 7 + 2 * i), word(bytes, 8 + 2 * i)));
    }
    ram
}

/// Returns the permission with these bits: R is 1, W is 2, X is 4.
fn perm_of(bits: u64) -> Option<Perm>
    ensures some { IfSome result (λ perm. bits_of perm ≡ bits) }
    ensures none { IfNone result ((perm : PermOf) → bits_of perm ≡ bits → ⊥) }
{
    match bits {
        0 => Some(Perm::NoAccess),
        1 => Some(Perm::Read),
        3 => Some(Perm::ReadWrite),
        4 => Some(Perm::Execute),
        5 => Some(Perm::ReadExecute),
        7 => Some(Perm::ReadWriteExecute),
        _ => None,
    }
}

/// Reads the devices, three words each, from word 71 on, if each has a valid permission.
#[tactic(auto, using(crate::proofs::Lengths::devices_room))]
fn devices_in(bytes: &[u8; 1336], count: usize) -> Option<ArrayVec<(u64, u64, Perm), 32>>
    requires { count ≤ 32 }
    ensures some { IfSome result (λ devices.
        words_of devices.items ≡ device_words bytes.now count) }
    ensures none { IfNone result ((k : ℕ) × (k < count)
        × ((perm : PermOf) → bits_of perm ≡ word_at bytes.now (73 + 3 * k) → ⊥)) }
{
    let mut devices = ArrayVec::new();
    for i in 0..count {
        let perm = perm_of(word(bytes, 73 + 3 * i))?;
        devices.push((word(bytes, 71 + 3 * i), word(bytes, 72 + 3 * i), perm));
    }
    Some(devices)
}

/// Sets the number of harts of a platform.
fn with_harts(platform: Platform, harts: u64) -> Result<Platform, PlatformFault>
    ensures value { IfOk result (λ p. (0 < harts) × (harts ≤ 4)
        × (p ≡ record platform { harts = harts })) }
    ensures fault { IfErr result (λ fault.
        (fault ≡ PlatformFault.BadHarts) × (((0 < harts) × (harts ≤ 4)) → ⊥)) }
{
    if harts > 4 {
        return Err(PlatformFault::BadHarts);
    }
    platform.with_harts(harts as u8)
}

/// Sets the number of entries of a platform.
fn with_entries(platform: Platform, entries: u64) -> Result<Platform, PlatformFault>
    ensures limit { IfOk result (λ p. limit_number p.limit ≡ entries) }
    ensures others { IfOk result (λ p. p ≡ record platform { limit = p.limit }) }
    ensures fault { IfErr result (λ fault.
        (fault ≡ PlatformFault.BadEntries) × (((entries ≡ 16) ⊎ (entries ≡ 64)) → ⊥)) }
{
    if entries > 64 {
        return Err(PlatformFault::BadEntries);
    }
    platform.with_entries(entries as u8)
}

/// Reads the ranges of a platform from its frame.
fn ranges_in(bytes: &[u8; 1336]) -> Result<Platform, EndReason>
    ensures few { IfOk result (λ _. AreFew bytes.now) }
    ensures ranges { IfOk result (λ p. HasRanges bytes.now p) }
    ensures rules { IfOk result (λ p.
        AllPass (platform_rules p.monitor p.ram p.devices)) }
    ensures none { IfErr result (λ refusal. AreNoRanges refusal bytes.now) }
{
    let ram_count = word(bytes, 5);
    let device_count = word(bytes, 6);
    if ram_count > MOST || device_count > MOST {
        return Err(EndReason::Platform(PlatformFault::BadNumber));
    }
    let Some(devices) = devices_in(bytes, device_count as usize) else {
        return Err(EndReason::NotUnderstood);
    };
    let ram = ram_in(bytes, ram_count as usize);
    let monitor = (word(bytes, 3), word(bytes, 4));
    match Platform::new(monitor, ram.as_slice(), devices.as_slice()) {
        Ok(platform) => Ok(platform),
        Err(fault) => Err(EndReason::Platform(fault)),
    }
}

/// Decodes a platform frame.
fn platform_in(bytes: &[u8; 1336]) -> Result<Platform, EndReason>
    ensures some { IfOk result (λ p. IsPlatformFrame bytes.now p) }
    ensures none { IfErr result (λ refusal. IsNoPlatform refusal bytes.now) }
{
    if word(bytes, 0) != TAG_PLATFORM {
        return Err(EndReason::NotUnderstood);
    }
    let platform = match ranges_in(bytes) {
        Ok(platform) => platform,
        Err(refusal) => return Err(refusal),
    };
    let platform = match with_harts(platform, word(bytes, 1)) {
        Ok(platform) => platform,
        Err(fault) => return Err(EndReason::Platform(fault)),
    };
    match with_entries(platform, word(bytes, 2)) {
        Ok(platform) => Ok(platform),
        Err(fault) => Err(EndReason::Platform(fault)),
    }
}

/// Reads the platform frame. If the source does not fail and the frame is invalid, returns the reason.
#[inline(never)]
pub fn read_platform<R: Source>(source: &mut R) -> Result<Result<Platform, EndReason>, FrameFault>
    ensures platform { ReadsPlatform result (R.remaining source.old) (R.remaining source.new) }
    ensures failures { CountsRead result (R.failures source.old) (R.failures source.new) }
{
    let mut frame = [0; PLATFORM_BYTES];
    let Ok(n) = read_whole(source, &mut frame) else {
        return Err(FrameFault::Read);
    };
    if n < PLATFORM_BYTES {
        return Err(FrameFault::NotUnderstood);
    }
    Ok(platform_in(&frame))
}

ghost use Rattle.pmp_encoding.specs.Limits.{limit_number};
ghost use Rattle.trap_server.specs.Platforms.{HasRanges};
