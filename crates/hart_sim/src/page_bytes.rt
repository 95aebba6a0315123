//! The bytes of a page.

ghost use Rattle.std.specs.Prelude.{◌≡◌, ℕ, ◌+◌, ◌-◌, ◌*◌, ◌%◌, ◌^◌, ◌<◌, ◌≤◌, IfOk, nat_lt, if◌then◌else◌, slice_index};
ghost use Rattle.pmp_encoding.specs.Registers.{byte_of};
ghost use Rattle.hart_sim.specs.Memory.{bytes_at, number_of_bytes, in_range};

use std::alloc::{AllocError, Global};

/// Returns the little-endian number of `size` bytes of a page, assembled from the highest byte down. With a constant
/// size it compiles to one load.
#[inline(always)]
fn number_of(page: &[u8; 4096], at: usize, size: usize) -> u64
    requires size { size ≤ 8 }
    requires inside { at + size ≤ 4096 }
    ensures { result ≡ number_of_bytes (bytes_at (slice_index page.now) at size) }
{
    let mut number = 0;
    let mut left = size;
    while left > 0 {
        left -= 1;
        number = u64::from(page[at + left]) + 256 * number;
    }
    number
}

/// The mask of the lowest bytes of a number, by their count.
static LOWEST: [u64; 9] = [
    0,
    0xff,
    0xffff,
    0xff_ffff,
    0xffff_ffff,
    0xff_ffff_ffff,
    0xffff_ffff_ffff,
    0xff_ffff_ffff_ffff,
    u64::MAX,
];

/// Returns the number in the lowest bytes of a number.
#[inline(always)]
fn lowest(number: u64, size: usize) -> u64
    requires { size ≤ 8 }
    ensures { result ≡ number % 2 ^ (8 * size) }
{
    number & LOWEST[size]
}

/// Returns the little-endian number of bytes near a page's end. It is a separate function to keep the stack frame of
/// other loads small.
#[inline(never)]
fn number_at_end(page: &[u8; 4096], at: usize, size: usize) -> u64
    requires size { size ≤ 8 }
    requires inside { at + size ≤ 4096 }
    ensures { result ≡ number_of_bytes (bytes_at (slice_index page.now) at size) }
{
    number_of(page, at, size)
}

/// Returns the little-endian number of bytes of a page. A branch on the size would often be mispredicted, because sizes
/// follow no pattern. Instead eight bytes are loaded, and a mask keeps the lowest, except near a page's end.
pub(crate) fn number_at(page: &[u8; 4096], at: usize, size: usize) -> u64
    requires size { size ≤ 8 }
    requires inside { at + size ≤ 4096 }
    ensures { result ≡ number_of_bytes (bytes_at (slice_index page.now) at size) }
{
    if at + 8 <= 4096 {
        lowest(number_of(page, at, 8), size)
    } else {
        number_at_end(page, at, size)
    }
}

/// Copies a page.
pub(crate) fn copy_page(page: &[u8; 4096], into: &mut [u8; 4096])
    ensures { into.new ≡ bytes_at (slice_index page.now) 0 4096 }
{
    into.copy_from_slice(page);
}

/// Zeroes a page.
pub(crate) fn clear(into: &mut [u8; 4096])
    ensures { into.new ≡ bytes_at (λ k. 0) 0 4096 }
{
    *into = [0; 4096];
}

/// Returns byte `k` of a value, counted from the lowest.
fn byte_of(value: u64, k: usize) -> u8
    requires { k < 8 }
    ensures { result ≡ byte_of value k }
{
    ((value >> (8 * k)) % 256) as u8
}

/// Stores the lowest bytes of a value in a page, from the lowest up. With a constant size it compiles to one store.
#[inline(always)]
fn put_bytes(page: &mut [u8; 4096], at: usize, size: usize, value: u64)
    requires size { size ≤ 8 }
    requires inside { at + size ≤ 4096 }
    ensures { (k : ℕ)
        → slice_index page.new k ≡
        (if in_range at size k then byte_of value (k - at) else slice_index page.old k) }
{
    for i in 0..size {
        page[at + i] = byte_of(value, i);
    }
}

/// Stores the lowest bytes of a value near a page's end. It is a separate function to keep the stack frame of other
/// stores small.
#[inline(never)]
fn put_at_end(page: &mut [u8; 4096], at: usize, size: usize, value: u64)
    requires size { size ≤ 8 }
    requires inside { at + size ≤ 4096 }
    ensures { (k : ℕ)
        → slice_index page.new k ≡
        (if in_range at size k then byte_of value (k - at) else slice_index page.old k) }
{
    put_bytes(page, at, size, value);
}

/// Replaces the lowest bytes of a number by those of another.
#[inline(always)]
fn with_lowest(number: u64, size: usize, value: u64) -> u64
    requires { size ≤ 8 }
    ensures { (k : ℕ)
        → byte_of result k ≡ (if nat_lt k size then byte_of value k else byte_of number k) }
{
    number - lowest(number, size) + lowest(value, size)
}

/// Stores the lowest bytes of a value in a page, lowest first. As in `number_at` there is no branch between the sizes
/// below eight: eight bytes are loaded and stored again, so those after the value keep their contents. A value of eight
/// bytes needs no load, which could wait for the cache.
pub(crate) fn put(page: &mut [u8; 4096], at: usize, size: usize, value: u64)
    requires size { size ≤ 8 }
    requires inside { at + size ≤ 4096 }
    ensures { (k : ℕ)
        → slice_index page.new k ≡
        (if in_range at size k then byte_of value (k - at) else slice_index page.old k) }
{
    if size == 8 {
        put_bytes(page, at, 8, value);
    } else if at + 8 <= 4096 {
        let number = with_lowest(number_of(page, at, 8), size, value);
        put_bytes(page, at, 8, number);
    } else {
        put_at_end(page, at, size, value);
    }
}

/// Allocates a page of zeros with one value.
pub(crate) fn page_of(
    alloc: Global,
    at: usize,
    size: usize,
    value: u64,
) -> Result<Box<[u8; 4096]>, AllocError>
    requires size { size ≤ 8 }
    requires inside { at + size ≤ 4096 }
    ensures { IfOk result (λ page.
        (k : ℕ)
        → slice_index page.value k ≡
        (if in_range at size k then byte_of value (k - at) else 0)) }
{
    let mut page = Box::new(alloc, [0; 4096])?;
    put(&mut page, at, size, value);
    Ok(page)
}
