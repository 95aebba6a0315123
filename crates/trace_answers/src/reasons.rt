//! The reason for the outcome of an access.

ghost use Rattle.std.specs.Prelude.{◌≡◌, ◌^◌, ◌<◌};
ghost use Rattle.trace_answers.specs.Reasons.{IsReason, has_all};

use map_text::letters;
use pmp_encoding::{Extent, SPACE_SIZE};
use pmp_match::{Access, Deciders, is_aligned};
use std::fmt;

/// The reason for the outcome of an access.
#[derive(Clone, Copy)]
pub enum Reason {
    /// Its address is not a multiple of its size; the entries are not consulted.
    Misaligned,
    /// Its address is at or above 2^56; the entries are not consulted.
    Outside,
    /// No entry matches any of its bytes.
    NoEntry,
    /// The first entry that matches some of its bytes, and whether it matches all of them.
    Entry {
        number: usize,
        extent: Extent,
        is_whole: bool,
    },
}

/// Returns whether the extent contains every byte of the access.
fn has_all(extent: Extent, access: &Access) -> bool
    requires { access.now.address < 2 ^ 56 }
    ensures { result ≡ has_all extent access.now }
{
    extent.base <= access.addr() && access.addr() + u64::from(access.size()) <= extent.end
}

/// Finds the reason for the outcome of an access.
pub fn reason_of<D: Deciders>(deciders: &D, access: &Access) -> Reason
    ensures { IsReason (D.decides deciders.now) access.now result }
{
    if !is_aligned(access) {
        return Reason::Misaligned;
    }
    if access.addr() >= SPACE_SIZE {
        return Reason::Outside;
    }
    match deciders.decider(access) {
        None => Reason::NoEntry,
        Some(found) => Reason::Entry {
            number: found.number,
            extent: found.extent,
            is_whole: has_all(found.extent, access),
        },
    }
}

impl fmt::Display for Reason {
    fn fmt<W: fmt::Write>(&self, f: &mut fmt::Formatter<W>) -> fmt::Result {
        match self {
            Reason::Misaligned => write!(f, "misaligned, no entry is asked"),
            Reason::Outside => write!(f, "past 2^56, no entry is asked"),
            Reason::NoEntry => write!(f, "no entry meets it"),
            Reason::Entry {
                number,
                extent,
                is_whole,
            } => {
                let base = extent.base;
                let last = extent.end.saturating_sub(1);
                let perm = letters(extent.perm);
                let part = if *is_whole {
                    ""
                } else {
                    ", which holds only a part"
                };
                write!(f, "entry {number}: {base:#x}-{last:#x} {perm}{part}")
            }
        }
    }
}
