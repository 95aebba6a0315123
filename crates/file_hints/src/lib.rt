//! Recognizes files by their contents, and explains invalid register listings and refused certificates.
//!
//! - [`input_kind`] returns the kind of an input that a command reads without an error: a map or a trace with at least
//!   one line of words, a platform, a listing of registers, or a device tree. [`likely_kind`] guesses the kind of any
//!   file by its first bytes or its first line with words. [`FileKind::text`] names the commands that take it.
//! - [`listing_reason`] returns the message for an invalid line of a listing, and [`refusal_reason`] that for a refused
//!   certificate.
//!
//! ```rust
//! let kind = likely_kind(b"load s 8 0x80001000\n"); // Some(FileKind::Trace)
//! ```
#![tactic(auto)]

mod certificate_reasons;
mod kinds;
mod listing_reasons;
mod recognized;

pub use certificate_reasons::refusal_reason;
pub use kinds::FileKind;
pub use listing_reasons::listing_reason;
pub use recognized::{Front, front_of, input_kind, likely_kind};
