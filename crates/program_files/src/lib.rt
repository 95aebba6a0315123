//! Reads the program's files whole or on demand, writes certificates atomically, and reports failures with a
//! message and an exit status.
//!
//! For the layer above: [`bytes_in`] reads a file to its end, up to a bound, and [`map_in`] reads a map file; each
//! returns a failure as a [`Trouble`], which prints its one line and has the program's exit status. [`read_whole`]
//! returns the bytes of a source of bounded length, and [`has_more`] whether it is longer. A [`FileToRead`] is opened
//! at its first read, and an [`InputToRead`] is such a file or standard input. A [`CertificateFile`] is a
//! [`WholeSink`], whose bytes appear in their place all at once: it lends its [`PartFile`], which takes the bytes, but
//! not the place. A call that a signal interrupted is retried ([`RetryInterrupted`]). Names are printed without control
//! characters ([`shown`], and [`write_shown`] without allocating).
//!
//! ```rust
//! let map = map_in(rt.alloc(), "map.txt", &mut source)?;
//! ```
#![tactic(auto)]

mod beside;
mod certificate_file;
mod devices;
mod inputs;
mod names;
mod part_file;
mod reason;
mod same_file;
mod trouble;
mod whole;
mod whole_sink;

pub use certificate_file::CertificateFile;
pub use devices::{FileToRead, InputToRead, RetryInterrupted};
pub use inputs::{CERTIFICATE_BYTES, REGISTER_BYTES, bytes_in, map_by, map_in};
pub use map_text::MAP_BYTES;
pub use names::{quoted, shown, text_of, write_named, write_shown};
pub use part_file::PartFile;
pub use reason::{Explained, Reason};
pub use same_file::{is_same_file, is_same_plain_file};
pub use trouble::Trouble;
pub use whole::{has_more, read_whole};
pub use whole_sink::WholeSink;
