//! Reads whole frames.

ghost use Rattle.trap_server.specs.FrameBytes.{Fills};
ghost use Rattle.text_lines.specs.Streams.{CountsFailure};

use text_lines::{DeviceFault, Source};

/// Fills a buffer from the source and returns the number of bytes read, which is less than the buffer's size only at
/// the end of the input.
pub(crate) fn read_whole<R: Source>(source: &mut R, buffer: &mut [u8]) -> Result<usize, DeviceFault>
    ensures bytes { Fills result buffer.old buffer.new (R.remaining source.old)
        (R.remaining source.new) }
    ensures failures { CountsFailure result (R.failures source.old) (R.failures source.new) }
{
    let mut done = 0;
    while done < buffer.len() {
        let n = source.read(&mut buffer[done..])?;
        if n == 0 {
            return Ok(done);
        }
        done += n;
    }
    Ok(done)
}
