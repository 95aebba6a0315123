//! Sizes and permissions as text.

ghost use Rattle.std.specs.Prelude.{◌≡◌, ◌++◌, ◌+◌, ◌<◌, ◌≤◌, length};
ghost use Rattle.map_text.specs.PrintedFields.{counted_in, letters_of, size_text};

use pmp_encoding::Perm;
use text_lines::{Line, push_decimal, push_text};

/// Returns the letters of a permission, with a hyphen for each one that it lacks.
pub fn letters(perm: Perm) -> &'static str
    ensures value { result.now ≡ letters_of perm }
    ensures length { length result.now ≡ 3 }
{
    match perm {
        Perm::NoAccess => "---",
        Perm::Read => "r--",
        Perm::ReadWrite => "rw-",
        Perm::Execute => "--x",
        Perm::ReadExecute => "r-x",
        Perm::ReadWriteExecute => "rwx",
    }
}

/// Appends the number of units, and the unit's name.
fn push_in(line: &mut Line, size: u64, unit: u64, name: &str)
    requires unit { 0 < unit }
    requires name { length name.now ≤ 4 }
    requires room { length line.old + 24 ≤ 128 }
    ensures items { line.new ≡ line.old ++ counted_in size unit name.now }
    ensures len { length line.new ≤ length line.old + 24 }
{
    push_decimal(line, size / unit);
    push_text(line, name.as_bytes());
}

/// Appends a number of bytes in the largest unit that divides it, such as `4 B`, `126 MiB` or `64 PiB`.
pub fn push_size(line: &mut Line, size: u64)
    requires room { length line.old + 24 ≤ 128 }
    ensures items { line.new ≡ line.old ++ size_text size }
    ensures len { length line.new ≤ length line.old + 24 }
{
    if size % (1 << 50) == 0 {
        push_in(line, size, 1 << 50, " PiB");
    } else if size % (1 << 40) == 0 {
        push_in(line, size, 1 << 40, " TiB");
    } else if size % (1 << 30) == 0 {
        push_in(line, size, 1 << 30, " GiB");
    } else if size % (1 << 20) == 0 {
        push_in(line, size, 1 << 20, " MiB");
    } else if size % (1 << 10) == 0 {
        push_in(line, size, 1 << 10, " KiB");
    } else {
        push_in(line, size, 1, " B");
    }
}
