//! Reasons for failures of the file system.

ghost use Rattle.std.specs.Prelude.{◌≡◌};
ghost use Rattle.std.specs.Io.{ReadsAtMost, WritesAtMost};
ghost use Rattle.std.specs.Io.KnownBytes.{Keeps, ReadConsumes, WriteAppends};

use std::io;
use std::io::{ErrorKind, Read, Write};

/// The reason why a file could not be read or created.
#[derive(Clone, Copy)]
pub enum Reason {
    /// The file does not exist, or a folder in its name does not.
    NoSuchFile,
    /// The file is a folder.
    Folder,
    /// A part of the path that should be a folder is not one.
    NoFolder,
    /// The user lacks permission.
    NoPermission,
    /// The file system is read-only.
    ReadOnly,
    /// The file system is full.
    NoSpace,
    /// The user's quota is exhausted.
    Quota,
    /// The file would be too large.
    TooLarge,
    /// The name is too long.
    LongName,
    /// There are too many symbolic links, or they form a cycle.
    ManyLinks,
    /// All names beside the place are in use.
    PartsTaken,
    /// The reader has closed the stream.
    Closed,
    /// An allocation failed.
    Memory,
    /// The existing file is a map, and is not replaced.
    IsMap,
    /// The existing file is a platform, and is not replaced.
    IsPlatform,
    /// The existing file is a listing of registers, and is not replaced.
    IsListing,
    /// The existing file is a trace, and is not replaced.
    IsTrace,
    /// The existing file is a device tree, and is not replaced.
    IsTree,
    /// The existing file is an input of another kind, and is not replaced.
    IsInput,
    /// Any other reason.
    Other,
}

impl Reason {
    /// Returns the reason of an error.
    pub fn of(error: &io::Error) -> Reason {
        match error.kind() {
            ErrorKind::NotFound => Reason::NoSuchFile,
            ErrorKind::IsADirectory => Reason::Folder,
            ErrorKind::NotADirectory => Reason::NoFolder,
            ErrorKind::PermissionDenied => Reason::NoPermission,
            ErrorKind::ReadOnlyFilesystem => Reason::ReadOnly,
            ErrorKind::StorageFull => Reason::NoSpace,
            ErrorKind::QuotaExceeded => Reason::Quota,
            ErrorKind::FileTooLarge => Reason::TooLarge,
            ErrorKind::InvalidFilename => Reason::LongName,
            ErrorKind::FilesystemLoop => Reason::ManyLinks,
            ErrorKind::AlreadyExists => Reason::PartsTaken,
            ErrorKind::BrokenPipe => Reason::Closed,
            ErrorKind::OutOfMemory => Reason::Memory,
            _ => Reason::Other,
        }
    }

    /// Returns the message for the reason.
    pub fn text(self) -> &'static str {
        match self {
            Reason::NoSuchFile => "no such file or folder",
            Reason::Folder => "it is a folder",
            Reason::NoFolder => "its name goes through a file that is no folder",
            Reason::NoPermission => "no permission",
            Reason::ReadOnly => "its file system takes no writes",
            Reason::NoSpace => "no space left",
            Reason::Quota => "no space left for this user",
            Reason::TooLarge => "it would be too large",
            Reason::LongName => "the name is too long",
            Reason::ManyLinks => "too many links",
            Reason::PartsTaken => "its names beside it, .part0 to .part9, are taken",
            Reason::Closed => "its reader has gone",
            Reason::Memory => "out of memory",
            Reason::IsMap => "it is a map, and plan does not replace it",
            Reason::IsPlatform => "it is a platform, and plan does not replace it",
            Reason::IsListing => "it is a listing of registers, and plan does not replace it",
            Reason::IsTrace => "it is a trace, and plan does not replace it",
            Reason::IsTree => "it is a device tree, and plan does not replace it",
            Reason::IsInput => "it is an input, and plan does not replace it",
            Reason::Other => "another error of the system",
        }
    }
}

/// A reader or writer that records the reason of its last failure.
#[derive(Drop)]
pub struct Explained<T> {
    inner: T,
    reason: Option<Reason>,
}

impl<T> Explained<T> {
    /// Wraps a reader or writer, which has not failed yet.
    pub fn new(inner: T) -> Explained<T>
        ensures { result.inner ≡ inner }
    {
        Explained {
            inner,
            reason: None,
        }
    }

    /// Returns the reason of its last failure, if it has failed.
    pub fn reason(&self) -> Option<Reason> {
        self.reason
    }
}

impl<T: Read> Read for Explained<T> {
    ghost remaining = { λ r. T.remaining r.inner };

    fn read(&mut self, buf: &mut [u8]) -> io::Result<usize>
        ensures bound { ReadsAtMost result buf.new }
        ensures bytes { ReadConsumes (T.remaining self.old.inner) (T.remaining self.new.inner)
            result buf.new }
    {
        match self.inner.read(buf) {
            Ok(n) => Ok(n),
            Err(error) => {
                self.reason = Some(Reason::of(&error));
                Err(error)
            }
        }
    }
}

impl<T: Write> Write for Explained<T> {
    ghost contents = { λ w. T.contents w.inner };

    fn write(&mut self, buf: &[u8]) -> io::Result<usize>
        ensures bound { WritesAtMost result buf.now }
        ensures bytes { WriteAppends (T.contents self.old.inner) (T.contents self.new.inner)
            result buf.now }
    {
        match self.inner.write(buf) {
            Ok(n) => Ok(n),
            Err(error) => {
                self.reason = Some(Reason::of(&error));
                Err(error)
            }
        }
    }

    fn flush(&mut self) -> io::Result<()>
        ensures bytes { Keeps (T.contents self.old.inner) (T.contents self.new.inner) }
    {
        match self.inner.flush() {
            Ok(()) => Ok(()),
            Err(error) => {
                self.reason = Some(Reason::of(&error));
                Err(error)
            }
        }
    }
}
