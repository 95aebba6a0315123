//! The file of a certificate.

ghost use Rattle.std.specs.Prelude.{◌≡◌, None, refl, true, string_bytes, IfOk};
ghost use Rattle.program_files.specs.Beside.{part_name, short_part_name};

use crate::part_file::PartFile;
use crate::reason::Reason;
use crate::whole_sink::WholeSink;
use std::alloc::{AllocError, Global};
use std::rt::Files;
use text_lines::{DeviceFault, Sink};

/// A file that appears whole or not at all: its bytes are written beside it and moved into its place at the end; if
/// that fails they are removed.
#[derive(Drop)]
pub struct CertificateFile<R: Files> {
    part: PartFile<R>,
}

impl<R: Files + Drop> CertificateFile<R> {
    /// Returns the file with this name, which need not exist. Nothing is created before the first write.
    pub fn new(files: R, alloc: Global, name: &str) -> Result<CertificateFile<R>, AllocError>
        ensures failures { IfOk result (λ file. file.part.failures ≡ 0) }
        ensures beside { IfOk result (λ file.
            string_bytes file.part.beside ≡ part_name (string_bytes file.part.place)) }
        ensures short { IfOk result (λ file.
            string_bytes file.part.short ≡ short_part_name (string_bytes file.part.place)) }
    {
        let part = PartFile::new(files, alloc, name)?;
        Ok(CertificateFile { part })
    }
}

impl<R: Files> CertificateFile<R> {
    /// Returns the reason of its last failure, if it has failed.
    pub fn reason(&self) -> Option<Reason> {
        self.part.reason()
    }

    /// Makes each write fail with this reason, so that the file in the place stays.
    pub fn keep(&mut self, reason: Reason)
        ensures failures { self.new.part.failures ≡ self.old.part.failures }
    {
        self.part.keep(reason);
    }
}

impl<R: Files> Sink for CertificateFile<R> {
    ghost contents = { λ _. None };

    ghost failures = { λ c. c.part.failures };

    ghost stalls = { λ c. c.part.stalls };

    fn write(&mut self, buf: &[u8]) -> Result<usize, DeviceFault> {
        self.part.write(buf)
    }
}

/// The contents of a file are unknown.
impl<R: Files> WholeSink for CertificateFile<R> {
    type Inner = PartFile<R>;

    ghost stands = { λ _. None };

    ghost is_apart = { true };

    ghost with_inner = { λ _ part. record { part = part } };

    fn inner(&mut self) -> &mut PartFile<R> {
        &mut self.part
    }

    fn put_in_place(&mut self) -> Result<(), DeviceFault> {
        self.part.put_in_place()
    }

    ghost taken = { λ _ _. refl };

    ghost failed = { λ _ _. refl };

    ghost stalled = { λ _ _. refl };

    ghost apart = { λ _ _ _. refl };
}
