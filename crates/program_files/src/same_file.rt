//! Identity of files with different names.

ghost use Rattle.std.specs.Prelude.{◌≡◌, ◌↔◌, IsTrue};

use std::fs;
use std::fs::Metadata;
use std::os::unix::fs::MetadataExt;
use std::rt::Files;

/// Returns whether two names refer to one existing file, by its device and inode number.
pub fn is_same_file<R: Files>(files: &R, one: &str, other: &str) -> bool {
    match (fs::metadata(files, one), fs::metadata(files, other)) {
        (Ok(one), Ok(other)) => are_same(&one, &other),
        _ => false,
    }
}

/// Returns whether two names refer to one existing plain file. Devices and pipes do not count, because nothing is lost
/// if they have two names.
pub fn is_same_plain_file<R: Files>(files: &R, one: &str, other: &str) -> bool {
    match (fs::metadata(files, one), fs::metadata(files, other)) {
        (Ok(one), Ok(other)) => one.is_file() && are_same(&one, &other),
        _ => false,
    }
}

/// Returns whether two files are the same, by device and inode number.
fn are_same(one: &Metadata, other: &Metadata) -> bool {
    is_one((one.dev(), one.ino()), (other.dev(), other.ino()))
}

/// Returns whether two pairs of device and inode number are equal.
fn is_one(one: (u64, u64), other: (u64, u64)) -> bool
    ensures { IsTrue result ↔ (one ≡ other) }
{
    one.0 == other.0 && one.1 == other.1
}
