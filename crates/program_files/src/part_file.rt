//! A file that is written beside its place.

ghost use Rattle.std.specs.Io.{WritesAtMost};
ghost use Rattle.std.specs.Io.KnownBytes.{WriteAppends};
ghost use Rattle.std.specs.Prelude.{◌≡◌, ◌≢◌, ◌≤◌, ◌⊎◌, None, length, true, false, IfErr, IfOk, option_and_then, string_bytes};
ghost use Rattle.text_lines.specs.Streams.{CountsFailure, CountsStall, GrowsByOne};
ghost use Rattle.program_files.specs.Beside.{part_name, short_part_name, IsNumbered};

use crate::beside::{
    beside_of, led_to, new_file, permit, place_of, short_beside_of, straight, takes_no_file,
};
use crate::devices::write_again;
use crate::reason::Reason;
use std::alloc::{AllocError, Global};
use std::fs::{Metadata, OpenFile};
use std::io::ErrorKind;
use std::rt::Files;
use std::{fs, io, mem};
use text_lines::{DeviceFault, Sink};

/// A file that is written beside its place, under its name with `.part` and a digit, or under a short name if that is
/// too long. Anything other than a plain file, such as a device or a pipe, is written directly, as is a file in a
/// folder where no file can be created.
#[derive(Drop)]
pub struct PartFile<R: Files> {
    files: R,
    place: String,
    beside: String,
    short: String,
    is_beside: bool,
    is_plain: bool,
    file: Option<R::File>,
    kept: Option<Reason>,
    reason: Option<Reason>,
    failures: u64,
    stalls: u64,
}

impl<R: Files + Drop> PartFile<R> {
    /// Returns the file with this name, which need not exist. Nothing is created before the first write.
    pub(crate) fn new(files: R, alloc: Global, name: &str) -> Result<PartFile<R>, AllocError>
        ensures failures { IfOk result (λ file. file.failures ≡ 0) }
        ensures beside { IfOk result (λ file.
            string_bytes file.beside ≡ part_name (string_bytes file.place)) }
        ensures short { IfOk result (λ file.
            string_bytes file.short ≡ short_part_name (string_bytes file.place)) }
    {
        let place = place_of(alloc, name, led_to(&files, alloc, name))?;
        let beside = beside_of(alloc, place.as_str())?;
        let short = short_beside_of(alloc, place.as_str())?;
        Ok(PartFile {
            files,
            place,
            beside,
            short,
            is_beside: false,
            is_plain: false,
            file: None,
            kept: None,
            reason: None,
            failures: 0,
            stalls: 0,
        })
    }
}

impl<R: Files> PartFile<R> {
    /// Returns the reason of its last failure, if it has failed.
    pub fn reason(&self) -> Option<Reason> {
        self.reason
    }

    /// Makes each write fail with this reason, so that the file in the place stays.
    pub(crate) fn keep(&mut self, reason: Reason)
        ensures failures { self.new.failures ≡ self.old.failures }
        ensures stalls { self.new.stalls ≡ self.old.stalls }
    {
        self.kept = Some(reason);
    }

    /// Opens a new file beside the place; or the existing file, if it is not a plain file or no file can be created in
    /// its folder.
    fn open(&mut self) -> io::Result<()>
        ensures place { self.new.place ≡ self.old.place }
        ensures opened { IfOk result (λ _. self.new.file ≢ None) }
        ensures beside { self.new.is_beside ≡ true
            → self.old.is_beside ≡ true
            ⊎ (IsNumbered (string_bytes self.old.beside) (string_bytes self.new.beside)
            ⊎ IsNumbered (string_bytes self.old.short) (string_bytes self.new.beside)) }
        ensures failures { self.new.failures ≡ self.old.failures }
        ensures stalls { self.new.stalls ≡ self.old.stalls }
    {
        let stands = match fs::metadata(&self.files, self.place.as_str()) {
            Ok(stands) => Some(stands),
            Err(error) if error.kind() == ErrorKind::NotFound => None,
            Err(error) => return Err(error),
        };
        if let Some(stands) = &stands {
            if !stands.is_file() {
                self.file = Some(fs::create(&self.files, self.place.as_str())?);
                return Ok(());
            }
        }
        self.open_plain(stands)
    }

    /// Opens the file if the place is empty or has a plain file.
    fn open_plain(&mut self, stands: Option<Metadata>) -> io::Result<()>
        ensures place { self.new.place ≡ self.old.place }
        ensures opened { IfOk result (λ _. self.new.file ≢ None) }
        ensures beside { self.new.is_beside ≡ true
            → self.old.is_beside ≡ true
            ⊎ (IsNumbered (string_bytes self.old.beside) (string_bytes self.new.beside)
            ⊎ IsNumbered (string_bytes self.old.short) (string_bytes self.new.beside)) }
        ensures failures { self.new.failures ≡ self.old.failures }
        ensures stalls { self.new.stalls ≡ self.old.stalls }
    {
        match self.new_beside() {
            Ok(file) => {
                permit(&file, stands);
                self.file = Some(file);
                self.is_beside = true;
                self.is_plain = true;
                Ok(())
            }
            Err(error) => {
                if stands.is_none() || !takes_no_file(error.kind()) {
                    return Err(error);
                }
                self.file = Some(straight(&self.files, self.place.as_str())?);
                self.is_plain = true;
                Ok(())
            }
        }
    }

    /// Creates a file beside the place, under a short name if its own is too long.
    fn new_beside(&mut self) -> io::Result<R::File>
        ensures place { self.new.place ≡ self.old.place }
        ensures made { IfOk result (λ _.
            IsNumbered (string_bytes self.old.beside) (string_bytes self.new.beside)
            ⊎ IsNumbered (string_bytes self.old.short) (string_bytes self.new.beside)) }
        ensures stays { self.new.is_beside ≡ self.old.is_beside }
        ensures failures { self.new.failures ≡ self.old.failures }
        ensures stalls { self.new.stalls ≡ self.old.stalls }
    {
        match new_file(&self.files, &mut self.beside) {
            Err(error) if error.kind() == ErrorKind::InvalidFilename => {
                mem::swap(&mut self.beside, &mut self.short);
                new_file(&self.files, &mut self.beside)
            }
            other => other,
        }
    }

    fn write_some(&mut self, buf: &[u8]) -> io::Result<usize>
        ensures most { WritesAtMost result buf.now }
        ensures bytes { WriteAppends (option_and_then R.File.contents self.old.file)
            (option_and_then R.File.contents self.new.file) result buf.now }
        ensures failures { self.new.failures ≡ self.old.failures }
        ensures stalls { self.new.stalls ≡ self.old.stalls }
    {
        if self.file.is_none() {
            self.open()?;
        }
        match &mut self.file {
            Some(file) => write_again(file, buf),
            None => unreachable!(),
        }
    }

    /// Moves the bytes written beside the place into it, if there are any.
    fn move_in(&mut self) -> io::Result<()>
        ensures place { self.new.place ≡ self.old.place }
        ensures moved { IfOk result (λ _. self.new.is_beside ≡ false) }
        ensures failures { self.new.failures ≡ self.old.failures }
        ensures stalls { self.new.stalls ≡ self.old.stalls }
    {
        if self.is_plain {
            if let Some(file) = &self.file {
                file.sync_all()?;
            }
        }
        if !self.is_beside {
            return Ok(());
        }
        self.file = None;
        fs::rename(&self.files, self.beside.as_str(), self.place.as_str())?;
        self.is_beside = false;
        Ok(())
    }

    /// Removes the file beside the place.
    fn discard(&mut self)
        ensures place { self.new.place ≡ self.old.place }
        ensures removed { self.new.is_beside ≡ false }
        ensures failures { self.new.failures ≡ self.old.failures }
        ensures stalls { self.new.stalls ≡ self.old.stalls }
    {
        self.file = None;
        if self.is_beside {
            let _ = fs::remove_file(&self.files, self.beside.as_str());
            self.is_beside = false;
        }
    }
}

/// Returns the reason why a write accepted no bytes.
fn why(written: io::Result<usize>) -> Reason {
    match written {
        Ok(_) => Reason::NoSpace,
        Err(error) => Reason::of(&error),
    }
}

impl<R: Files> PartFile<R> {
    /// Records the reason of a failure, and removes the file beside the place.
    #[tactic(auto, unfolding(text_lines::specs::Streams::GrowsByOne))]
    fn fail(&mut self, reason: Reason) -> DeviceFault
        ensures removed { self.new.is_beside ≡ false }
        ensures failures { GrowsByOne self.old.failures self.new.failures }
        ensures stalls { self.new.stalls ≡ self.old.stalls }
    {
        self.reason = Some(reason);
        self.discard();
        self.failures = self.failures.saturating_add(1);
        DeviceFault
    }

    /// Puts the written bytes in their place.
    pub(crate) fn put_in_place(&mut self) -> Result<(), DeviceFault>
        ensures failures { CountsFailure result self.old.failures self.new.failures }
        ensures stalls { self.new.stalls ≡ self.old.stalls }
        ensures removed { self.new.is_beside ≡ false }
    {
        match self.move_in() {
            Ok(()) => Ok(()),
            Err(error) => Err(self.fail(Reason::of(&error))),
        }
    }
}

impl<R: Files> Sink for PartFile<R> {
    ghost contents = { λ _. None };

    ghost failures = { λ c. c.failures };

    ghost stalls = { λ c. c.stalls };

    fn write(&mut self, buf: &[u8]) -> Result<usize, DeviceFault>
        ensures bound { IfOk result (λ n. n ≤ length buf.now) }
        ensures bytes { WriteAppends None None result buf.now }
        ensures failures { CountsFailure result self.old.failures self.new.failures }
        ensures stalls { CountsStall result buf.now self.old.stalls self.new.stalls }
        ensures removed { IfErr result (λ _. self.new.is_beside ≡ false) }
    {
        if let Some(reason) = self.kept {
            return Err(self.fail(reason));
        }
        match self.write_some(buf) {
            Ok(n) if n > 0 || buf.is_empty() => Ok(n),
            other => Err(self.fail(why(other))),
        }
    }
}
