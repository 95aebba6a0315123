//! The settings of the lines of a map file.

ghost use Rattle.std.specs.Prelude.{◌≡◌, ◌-◌, ◌^◌, ◌<◌, IfOk, length};
ghost use Rattle.std.specs.List.{All};
ghost use Rattle.text_lines.specs.Lines.{raw_lines};
ghost use Rattle.input_files.specs.Settings.{IsInside, settings_from};

use crate::idle_lines::Numbered;
use map_text::raw_says;
use permission_map::Memory;
use std::alloc::Global;
use text_lines::split_line;

/// Returns the settings of the lines of a file, in their order, with their line numbers. An invalid line sets nothing.
/// The only error is a failed allocation.
pub(crate) fn settings_in(alloc: Global, bytes: &[u8]) -> Result<Vec<Numbered>, Memory>
    requires { length bytes.now < 2 ^ 64 - 1 }
    ensures set { IfOk result (λ settings.
        settings.items ≡ settings_from 1 (raw_lines bytes.now)) }
    ensures inside { IfOk result (λ settings. All IsInside settings.items) }
{
    let mut settings = Vec::new(alloc);
    let mut rest = bytes;
    let mut line: u64 = 0;
    while !rest.is_empty() {
        let (raw, behind) = split_line(rest);
        line += 1;
        if let Ok(Some(setting)) = raw_says(raw) {
            settings.push(Numbered { line, setting })?;
        }
        rest = behind;
    }
    Ok(settings)
}
