//! `measure`: prints the digest that the monitor measures for an enclave with a file's bytes.

ghost use Rattle.std.specs.Prelude.{◌≡◌, ◌+◌, ◌++◌, ◌<◌, ◌≤◌, IfOk, take, true, false};
ghost use Rattle.measurement.specs.Digests.{blank_page};
ghost use Rattle.text_lines.specs.Writings.{writing};
ghost use Rattle.program_files.specs.Reading.{reading};
ghost use Rattle.monitor_cli.specs.Commands.{Ends};
ghost use Rattle.monitor_cli.specs.Measure.{digest_text, enclave_digest, page_of, word_text, IsDigested, IsUndigested};

use map_text::digest_text;
use measurement::{Layout, Measure, word};
use program_files::{Trouble, bytes_in};
use std::alloc::{AllocError, Global};
use text_lines::{Line, Sink, Source, push_decimal, push_hex, push_text, write_whole};

/// Maximum number of pages of text and data of an enclave.
const MOST_PAGES: u64 = 1024;

/// Returns the first page of these bytes, padded with zeros.
fn first_page(rest: &[u8]) -> [u8; 4096]
    ensures { result ≡ take 4096 (rest.now ++ blank_page) }
{
    let mut page = [0; 4096];
    if rest.len() >= 4096 {
        page.copy_from_slice(&rest[..4096]);
        return page;
    }
    page[..rest.len()].copy_from_slice(rest);
    page
}

/// Returns the page with this number, padded with zeros after the last byte.
fn page_of(bytes: &[u8], i: usize) -> [u8; 4096]
    requires { i < 1024 }
    ensures { result ≡ page_of bytes.now i }
{
    if 4096 * i >= bytes.len() {
        return first_page(&[]);
    }
    first_page(&bytes[4096 * i..])
}

/// Returns the digest of an enclave with this layout, whose pages of text and data contain these bytes, padded with
/// zeros.
fn enclave_digest(layout: &Layout, bytes: &[u8]) -> [u8; 32]
    requires { layout.now.text_pages + layout.now.data_pages ≤ 1024 }
    ensures { result ≡ enclave_digest layout.now bytes.now }
{
    let mut measure = Measure::begin(layout);
    for i in 0..(layout.text_pages + layout.data_pages) as usize {
        measure.page(&page_of(bytes, i));
    }
    measure.finish()
}

/// Returns `word K 0x` and the k-th word of a digest, as the monitor's call returns it.
fn word_line(digest: &[u8; 32], k: usize) -> Line
    requires { k < 4 }
    ensures { result ≡ word_text digest.now k }
{
    let mut line = Line::new();
    push_text(&mut line, b"word ");
    push_decimal(&mut line, k as u64);
    push_text(&mut line, b" 0x");
    push_hex(&mut line, word(digest, k), 16);
    line.push(b'\n');
    line
}

/// Returns the printed digest and its four words.
fn text_of(alloc: Global, digest: &[u8; 32]) -> Result<Vec<u8>, AllocError>
    ensures { IfOk result (λ text. text.items ≡ digest_text digest.now) }
{
    let mut text = Vec::new(alloc);
    text.extend_from_slice(b"digest ")?;
    text.extend_from_slice(digest_text(digest).as_slice())?;
    text.push(b'\n')?;
    text.extend_from_slice(word_line(digest, 0).as_slice())?;
    text.extend_from_slice(word_line(digest, 1).as_slice())?;
    text.extend_from_slice(word_line(digest, 2).as_slice())?;
    text.extend_from_slice(word_line(digest, 3).as_slice())?;
    Ok(text)
}

/// Returns the text for an enclave with this layout and these bytes.
fn lines_of(alloc: Global, layout: &Layout, bytes: &[u8]) -> Result<Vec<u8>, AllocError>
    requires { layout.now.text_pages + layout.now.data_pages ≤ 1024 }
    ensures { IfOk result (λ text.
        text.items ≡ digest_text (enclave_digest layout.now bytes.now)) }
{
    text_of(alloc, &enclave_digest(layout, bytes))
}

/// Returns whether a layout has more pages of text and data than an enclave may have.
fn has_too_many(layout: &Layout) -> bool
    ensures many { result ≡ true → 1024 < layout.now.text_pages + layout.now.data_pages }
    ensures few { result ≡ false → layout.now.text_pages + layout.now.data_pages ≤ 1024 }
{
    layout.text_pages > MOST_PAGES || layout.data_pages > MOST_PAGES - layout.text_pages
}

/// Prints the digest of an enclave with this layout, whose text and data are the bytes of a file, padded with zeros.
#[inline(never)]
pub(crate) fn do_measure<'a, R: Source, W: Sink>(
    alloc: Global,
    file: &'a str,
    layout: Layout,
    first: &mut R,
    out: &mut W,
) -> Result<u8, Trouble<'a>>
    ensures { let one = reading R.remaining R.failures first.old first.new in
        Ends (IsDigested layout one) (IsUndigested file.entry layout one)
        (writing W.contents W.failures W.stalls out.old out.new) result }
{
    if has_too_many(&layout) {
        return Err(Trouble::TooLarge { file });
    }
    let most = 4096 * (layout.text_pages + layout.data_pages) as usize;
    let bytes = bytes_in(alloc, file, first, most)?;
    let Ok(text) = lines_of(alloc, &layout, bytes.as_slice()) else {
        return Err(Trouble::Memory);
    };
    write_whole(out, text.as_slice())?;
    Ok(0)
}
