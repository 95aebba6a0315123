//! Reads the platform of a platform file.

ghost use Rattle.std.specs.Prelude.{◌≡◌, ◌-◌, ◌^◌, ◌<◌, ◌⊎◌, IfErr, IfOk};
ghost use Rattle.platforms.specs.Platform.{PlatformLayout};
ghost use Rattle.input_files.specs.Document.{IsPlatformFile};
ghost use Rattle.program_files.specs.Reading.{reading};
ghost use Rattle.monitor_cli.specs.Platforms.{text_trouble, HasNoPlatform, HasPlatform};

use input_files::{TextFault, platform_of};
use platforms::Platform;
use program_files::{Trouble, bytes_in};
use std::alloc::Global;
use std::str;
use text_lines::Source;

/// Converts a fault of a platform's text.
fn text_trouble<'a>(file: &'a str, fault: TextFault) -> Trouble<'a>
    ensures { result ≡ text_trouble file.entry fault }
{
    match fault {
        TextFault::NotAPlatform => Trouble::NotAPlatform { file },
        TextFault::Memory => Trouble::Memory,
    }
}

/// Maximum size of a platform file in bytes.
pub const PLATFORM_BYTES: usize = 1 << 20;

/// Returns the platform in the bytes of a file.
pub(crate) fn platform_in<'a>(
    alloc: Global,
    file: &'a str,
    bytes: &[u8],
) -> Result<Platform, Trouble<'a>>
    ensures ok { IfOk result (IsPlatformFile bytes.now) }
    ensures refused { IfErr result (λ trouble.
        (trouble ≡ Trouble.Memory)
        ⊎ ((trouble ≡ Trouble.NotAPlatform file.entry)
        × ((platform : PlatformLayout) → IsPlatformFile bytes.now platform → ⊥))) }
{
    let Ok(text) = str::from_utf8(bytes) else {
        return Err(Trouble::NotAPlatform { file });
    };
    match platform_of(alloc, text) {
        Ok(platform) => Ok(platform),
        Err(fault) => Err(text_trouble(file, fault)),
    }
}

/// Reads the platform of a platform file.
pub(crate) fn read_platform<'a, R: Source>(
    alloc: Global,
    file: &'a str,
    source: &mut R,
) -> Result<Platform, Trouble<'a>>
    ensures made { IfOk result
        (HasPlatform (reading R.remaining R.failures source.old source.new)) }
    ensures refused { IfErr result
        (HasNoPlatform file.entry (reading R.remaining R.failures source.old source.new)) }
{
    let bytes = bytes_in(alloc, file, source, PLATFORM_BYTES)?;
    platform_in(alloc, file, bytes.as_slice())
}
