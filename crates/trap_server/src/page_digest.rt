//! Measures the pages of a new enclave as they arrive.

ghost use Rattle.std.specs.Prelude.{◌≡◌, ◌+◌, ◌≤◌, ◌<◌, ◌^◌, MatchResult};
ghost use Rattle.text_lines.specs.Writings.{writing, Prints};
ghost use Rattle.trap_server.specs.Words.{word_at};
ghost use Rattle.trap_server.specs.Traps.{CountsRead, CountsWrite};
ghost use Rattle.trap_server.specs.PageDigest.{Asks, HasParts, Measures, ReadsPage, question_bytes};

use crate::frame::{ShortBytes, TAG_MEASURE, TAG_PAGE, three_words, word};
use crate::frame_bytes::read_whole;
use crate::frame_fault::FrameFault;
use measurement::{Create, Measure};
use text_lines::{Sink, Source, write_whole};

/// The size of a page frame: its tag, its number, and the bytes of the page.
const PAGE_BYTES: usize = 4112;

/// Returns the request for `count` pages from `first` on.
fn question(first: u64, count: u64) -> ShortBytes
    ensures { result ≡ question_bytes first count }
{
    three_words(TAG_MEASURE, first, count)
}

/// Reads a page frame.
#[inline(never)]
fn read_page<R: Source>(source: &mut R, page: u64, bytes: &mut [u8; 4096]) -> Result<(), FrameFault>
    ensures page { ReadsPage result page bytes.new (R.remaining source.old)
        (R.remaining source.new) }
    ensures failures { CountsRead result (R.failures source.old) (R.failures source.new) }
{
    let mut frame = [0; PAGE_BYTES];
    let Ok(n) = read_whole(source, &mut frame) else {
        return Err(FrameFault::Read);
    };
    if n < PAGE_BYTES {
        return Err(FrameFault::NotUnderstood);
    }
    if word(&frame, 0) != TAG_PAGE {
        return Err(FrameFault::NotUnderstood);
    }
    if word(&frame, 1) != page {
        return Err(FrameFault::NotUnderstood);
    }
    bytes.copy_from_slice(&frame[16..]);
    Ok(())
}

/// Returns the digest of an enclave with these parts. Requests its private pages, and reads each once, by rising
/// address.
#[inline(never)]
pub fn digest_of<R: Source, W: Sink>(
    source: &mut R,
    sink: &mut W,
    parts: &Create,
) -> Result<[u8; 32], FrameFault>
    requires { HasParts parts.now }
    ensures read { Measures result parts.now (R.remaining source.old) (R.remaining source.new) }
    ensures asked { Asks result parts.now (W.contents sink.old) (W.contents sink.new) }
    ensures failures { CountsRead result (R.failures source.old) (R.failures source.new) }
    ensures writes { CountsWrite result (W.failures sink.old) (W.failures sink.new)
        (W.stalls sink.old) (W.stalls sink.new) }
{
    let first = parts.base / 4096;
    let count = parts.text_pages + parts.data_pages;
    let Ok(()) = write_whole(sink, &question(first, count)) else {
        return Err(FrameFault::Write);
    };
    let mut measure = Measure::begin(&parts.layout());
    let mut bytes = [0; 4096];
    for i in 0..count {
        match read_page(source, first + i, &mut bytes) {
            Ok(()) => measure.page(&bytes),
            Err(fault) => return Err(fault),
        }
    }
    Ok(measure.finish())
}
