//! The files and streams that the program lends to a task.

ghost use Rattle.std.specs.Prelude.{◌≡◌, ◌≢◌, None, OnOk, option_and_then};
ghost use Rattle.std.specs.Io.{ReadsAtMost, WritesAtMost};
ghost use Rattle.std.specs.Io.KnownBytes.{ReadConsumes, WriteAppends};
ghost use Rattle.program_files.specs.Inputs.{IsOfFile, IsOfStream, IsOpen, remaining_of};

use std::io::{ErrorKind, Read, Write};
use std::rt::Files;
use std::{fs, io};

/// A file that is opened at its first read.
#[derive(Drop)]
pub struct FileToRead<'a, R: Files> {
    files: &'a R,
    name: &'a str,
    file: Option<R::File>,
}

impl<'a, R: Files> FileToRead<'a, R> {
    /// Returns the file with this name, which need not exist.
    pub fn new(files: &'a R, name: &'a str) -> FileToRead<'a, R>
        ensures name { result.name ≡ name.entry }
        ensures closed { result.file ≡ None }
    {
        FileToRead {
            files,
            name,
            file: None,
        }
    }
}

impl<R: Files> Read for FileToRead<'_, R> {
    // The remaining bytes of the opened file, which are unknown before its first read.
    ghost remaining = { λ r. option_and_then R.File.remaining r.file };

    // A file that could not be opened differs from an empty one: after a successful read, a file is open.
    fn read(&mut self, buf: &mut [u8]) -> io::Result<usize>
        ensures bound { ReadsAtMost result buf.new }
        ensures bytes { ReadConsumes (option_and_then R.File.remaining self.old.file)
            (option_and_then R.File.remaining self.new.file) result buf.new }
        ensures opened { OnOk result (self.new.file ≢ None) }
        ensures place { self.new.name ≡ self.old.name }
    {
        if self.file.is_none() {
            self.file = Some(fs::open(self.files, self.name)?);
        }
        match &mut self.file {
            Some(file) => read_again(file, buf),
            None => unreachable!(),
        }
    }
}

/// The input of a task: a file, or standard input.
#[derive(Drop)]
pub enum InputToRead<'a, R: Files, S> {
    /// A file that is opened at its first read.
    File(FileToRead<'a, R>),
    /// Standard input.
    Standard(RetryInterrupted<S>),
}

impl<'a, R: Files, S> InputToRead<'a, R, S> {
    /// Returns the file with this name, which is opened at its first read.
    pub fn of_file(files: &'a R, name: &'a str) -> InputToRead<'a, R, S>
        ensures { IsOfFile name.entry result }
    {
        InputToRead::File(FileToRead::new(files, name))
    }

    /// Wraps a stream, whose interrupted calls are retried.
    pub fn of_stream(stream: S) -> InputToRead<'a, R, S>
        ensures { IsOfStream stream result }
    {
        InputToRead::Standard(RetryInterrupted::new(stream))
    }
}

impl<R: Files, S: Read> Read for InputToRead<'_, R, S> {
    // The remaining bytes of the file or the stream.
    ghost remaining = { remaining_of R.File.remaining S.remaining };

    fn read(&mut self, buf: &mut [u8]) -> io::Result<usize>
        ensures bound { ReadsAtMost result buf.new }
        ensures bytes { ReadConsumes (remaining_of R.File.remaining S.remaining self.old)
            (remaining_of R.File.remaining S.remaining self.new) result buf.new }
        ensures opened { OnOk result (IsOpen self.new) }
    {
        match self {
            InputToRead::File(file) => file.read(buf),
            InputToRead::Standard(input) => input.read(buf),
        }
    }
}

/// A reader or writer that retries calls that a signal interrupted.
#[derive(Drop)]
pub struct RetryInterrupted<T> {
    inner: T,
}

impl<T> RetryInterrupted<T> {
    /// Wraps a reader or writer.
    pub fn new(inner: T) -> RetryInterrupted<T>
        ensures { result.inner ≡ inner }
    {
        RetryInterrupted { inner }
    }
}

impl<T: Read> Read for RetryInterrupted<T> {
    ghost remaining = { λ r. T.remaining r.inner };

    fn read(&mut self, buf: &mut [u8]) -> io::Result<usize> {
        read_again(&mut self.inner, buf)
    }
}

impl<T: Write> Write for RetryInterrupted<T> {
    ghost contents = { λ r. T.contents r.inner };

    fn write(&mut self, buf: &[u8]) -> io::Result<usize> {
        write_again(&mut self.inner, buf)
    }

    fn flush(&mut self) -> io::Result<()> {
        self.inner.flush()
    }
}

/// Reads, retrying if a signal interrupts the call.
fn read_again<T: Read>(reader: &mut T, buf: &mut [u8]) -> io::Result<usize>
    ensures most { ReadsAtMost result buf.new }
    ensures bytes { ReadConsumes (T.remaining reader.old) (T.remaining reader.new) result buf.new }
{
    for _ in 0..u64::MAX {
        match reader.read(buf) {
            Err(error) if error.kind() == ErrorKind::Interrupted => {}
            other => return other,
        }
    }
    Err(io::Error::from(ErrorKind::Interrupted))
}

/// Writes, retrying if a signal interrupts the call.
pub fn write_again<T: Write>(writer: &mut T, buf: &[u8]) -> io::Result<usize>
    ensures most { WritesAtMost result buf.now }
    ensures bytes { WriteAppends (T.contents writer.old) (T.contents writer.new) result buf.now }
{
    for _ in 0..u64::MAX {
        match writer.write(buf) {
            Err(error) if error.kind() == ErrorKind::Interrupted => {}
            other => return other,
        }
    }
    Err(io::Error::from(ErrorKind::Interrupted))
}
