//! The place of a certificate, and the temporary files beside it.

ghost use Rattle.std.specs.Fs.{new_options, with_truncate, with_write};
ghost use Rattle.std.specs.Path.{path_buf_bytes};
ghost use Rattle.std.specs.Prelude.{◌≡◌, ◌+◌, ◌-◌, ◌^◌, ◌<◌, ◌⊎◌, ◌↔◌, None, true, IfErr, IfOk, IfSome, string_bytes};
ghost use Rattle.program_files.specs.Beside.{part_name, short_part_name, IsNumbered};

use std::alloc::{AllocError, Global};
use std::fs::{File, Metadata, OpenFile, OpenOptions};
use std::io::ErrorKind;
use std::path::{Path, PathBuf};
use std::rt::Files;
use std::{fs, io};

/// Returns the final target of a symbolic link, or `None` if the name is not a link or cannot be read.
pub(crate) fn led_to<R: Files>(files: &R, alloc: Global, name: &str) -> Option<PathBuf> {
    let stands = fs::symlink_metadata(files, name).ok()?;
    if !stands.is_symlink() {
        return None;
    }
    if fs::metadata(files, name).is_ok() {
        return files.canonicalize(alloc, name).ok();
    }
    end_of(files, alloc, name)
}

/// Maximum number of links to follow, as on Linux.
const MOST_LINKS: u8 = 40;

/// Follows links to the last target, which need not exist. Returns `None` if the links do not end or cannot be read.
fn end_of<R: Files>(files: &R, alloc: Global, name: &str) -> Option<PathBuf> {
    let mut place = PathBuf::from_str(alloc, name).ok()?;
    for _ in 0..MOST_LINKS {
        let Ok(target) = files.read_link(alloc, place.as_path().as_str()) else {
            return Some(place);
        };
        let _ = place.pop();
        place.push(target.as_path()).ok()?;
    }
    None
}

/// Returns whether this error means that no file can be created in a folder.
pub(crate) fn takes_no_file(kind: ErrorKind) -> bool
    ensures { (result ≡ true) ↔ ((kind ≡ ErrorKind.PermissionDenied)
        ⊎ (kind ≡ ErrorKind.ReadOnlyFilesystem)) }
{
    matches!(
        kind,
        ErrorKind::PermissionDenied | ErrorKind::ReadOnlyFilesystem
    )
}

/// Gives a new file the permissions of the old one. If that fails, the new file keeps the default permissions.
pub(crate) fn permit<F: OpenFile>(file: &F, old: Option<Metadata>) {
    if let Some(old) = old {
        let _ = file.set_permissions(old.permissions());
    }
}

/// Options to truncate and write an existing file, without creating one.
fn emptying_options() -> OpenOptions
    ensures { result ≡ with_truncate (with_write new_options true) true }
{
    let mut options = OpenOptions::new();
    let _ = options.write(true).truncate(true);
    options
}

/// Opens an existing file to overwrite it from its beginning.
pub(crate) fn straight<R: Files>(files: &R, place: &str) -> io::Result<R::File> {
    emptying_options().open(files, place)
}

/// Returns the place of a file with this name: the target of its link, otherwise the name itself.
pub(crate) fn place_of(
    alloc: Global,
    name: &str,
    led: Option<PathBuf>,
) -> Result<String, AllocError>
    ensures led { IfSome led (λ path. IfOk result (λ place.
        string_bytes place ≡ path_buf_bytes path)) }
    ensures name { led ≡ None → IfOk result (λ place. string_bytes place ≡ name.now) }
{
    match led {
        Some(path) => Ok(path.into_string()),
        None => String::from_str(alloc, name),
    }
}

/// Returns the name of the temporary file beside a place, with room for a digit.
pub(crate) fn beside_of(alloc: Global, place: &str) -> Result<String, AllocError>
    ensures { IfOk result (λ name. string_bytes name ≡ part_name place.now) }
{
    let mut name = String::with_capacity(alloc, place.len().saturating_add(6))?;
    name.push_str(place)?;
    name.push_str(".part")?;
    Ok(name)
}

/// Returns a short name in the folder of a place, with room for a digit.
pub(crate) fn short_beside_of(alloc: Global, place: &str) -> Result<String, AllocError>
    ensures { IfOk result (λ name. string_bytes name ≡ short_part_name place.now) }
{
    let path = Path::new(place).with_file_name(alloc, "pmpmon.part")?;
    let mut name = path.into_string();
    name.reserve(1)?;
    Ok(name)
}

/// Creates a file under the name with the first digit that gives an unused name.
pub(crate) fn new_file<R: Files>(files: &R, name: &mut String) -> io::Result<R::File>
    ensures made { IfOk result (λ _. IsNumbered (string_bytes name.old) (string_bytes name.new)) }
    ensures stays { IfErr result (λ _. string_bytes name.new ≡ string_bytes name.old) }
{
    let len = name.len();
    for digit in 0..10u8 {
        name.push(char::from(b'0' + digit))?;
        match File::create_new(files, name.as_str()) {
            Ok(file) => return Ok(file),
            Err(error) => {
                name.truncate(len);
                if error.kind() != ErrorKind::AlreadyExists {
                    return Err(error);
                }
            }
        }
    }
    Err(io::Error::from(ErrorKind::AlreadyExists))
}
