//! The lines of a text in memory.

ghost use Rattle.std.specs.Prelude.{◌≡◌, ◌+◌, ◌-◌, ◌^◌, ◌<◌, length};
ghost use Rattle.text_lines.specs.LineReaders.{came_of, most_of};
ghost use Rattle.text_lines.specs.WholeTexts.{NextOf};

use crate::fault::ReadFault;
use crate::lines::LineReader;

/// The number of bytes of such a text that are buffered at once; the buffer is on the stack.
pub const AT_ONCE: usize = 4096;

/// Reads the next line of a text in memory and returns whether there is one. The error is the number of a line that is
/// too long.
#[tactic(auto, unfolding(crate::specs::Streams::GrowsByOne))]
pub fn next_line<const SIZE: usize>(
    lines: &mut LineReader<SIZE>,
    rest: &mut &[u8],
) -> Result<bool, u64>
    requires limit { most_of lines.old ≡ 2 ^ 64 - 1 }
    requires few { came_of lines.old + length rest.old.now < 2 ^ 64 - 1 }
    ensures next { NextOf result lines.old lines.new rest.old.now rest.new.now }
    ensures limit { most_of lines.new ≡ most_of lines.old }
    ensures came { came_of lines.new + length rest.new.now
        ≡ came_of lines.old + length rest.old.now }
{
    match lines.next_line(rest) {
        Ok(more) => Ok(more),
        Err(ReadFault::LongLine(number)) => Err(number),
        Err(ReadFault::TooManyBytes) => unreachable!(),
        Err(ReadFault::Device) => unreachable!(),
    }
}
