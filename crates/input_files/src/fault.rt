//! Reasons why a text is not a platform.

ghost use Rattle.std.specs.Prelude.{◌≡◌};
ghost use Rattle.input_files.specs.Faults.{text_fault_number};

use crate::breach::Breach;
use std::alloc::{AllocError, AllocFailed};
use thiserror::Error;

/// The reason why a text is not a platform.
#[derive(Clone, Copy, Debug, PartialEq, Eq, Error)]
pub enum TextFault {
    /// It is not a TOML document, lacks keys or has unknown ones, or breaks a rule on platforms.
    #[error("not a platform")]
    NotAPlatform = 1,
    /// An allocation failed.
    #[error("out of memory")]
    Memory = 2,
}

impl TextFault {
    /// Returns the number of the fault: 1 or 2.
    pub fn number(self) -> u8
        ensures { result ≡ text_fault_number self }
    {
        match self {
            TextFault::NotAPlatform => 1,
            TextFault::Memory => 2,
        }
    }
}

/// The reason why a document is not a platform.
#[derive(Clone, Copy)]
pub enum DocumentFault<'a> {
    /// The document's first breach.
    Breach(Breach<'a>),
    /// An allocation failed.
    Memory,
}

impl<'a> From<Breach<'a>> for DocumentFault<'a> {
    ghost use Rattle.std.specs.Prelude.{◌≡◌};
    ghost use Rattle.input_files.specs.declared.fault.DocumentFault.TheVariants as faults;

    ghost from_gives = { λ breach result. result ≡ faults.Breach breach };

    fn from(breach: Breach<'a>) -> DocumentFault<'a> {
        DocumentFault::Breach(breach)
    }
}

impl<'a> From<AllocError> for DocumentFault<'a> {
    ghost use Rattle.std.specs.Prelude.{◌≡◌};
    ghost use Rattle.input_files.specs.declared.fault.DocumentFault.TheVariants as faults;

    ghost from_gives = { λ error result. result ≡ faults.Memory };

    fn from(_error: AllocError) -> DocumentFault<'a> {
        DocumentFault::Memory
    }
}

impl<'a, T: Drop> From<AllocFailed<T>> for DocumentFault<'a> {
    ghost use Rattle.std.specs.Prelude.{◌≡◌};
    ghost use Rattle.input_files.specs.declared.fault.DocumentFault.TheVariants as faults;

    ghost from_gives = { λ error result. result ≡ faults.Memory };

    fn from(_error: AllocFailed<T>) -> DocumentFault<'a> {
        DocumentFault::Memory
    }
}
