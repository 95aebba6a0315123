//! Splits a source into lines, through one buffer of fixed size.

ghost use Rattle.std.specs.Prelude.{◌≡◌, ◌+◌, ◌-◌, ◌^◌, ◌<◌, ◌≤◌, ◌==◌, ℕ, true, false, List, [], Ok, Option, length, take, drop};
ghost use Rattle.std.specs.List.{position_or_len};
ghost use Rattle.text_lines.specs.Lines.{without_return, EndsInput};

use crate::columns::len_before;
use crate::fault::ReadFault;
use crate::{Buffer, Source};

/// The default limit on the bytes of an input.
const LIMIT: u64 = 1 << 40;

/// The maximal number of bytes of a line before its LF, including a CR.
pub const LONGEST: usize = 1023;

/// Returns the number of bytes of a line without the CR at its end.
#[inline(always)]
fn text_len(line: &[u8]) -> usize
    ensures within { result ≤ length line.now }
    ensures text { take result line.now ≡ without_return line.now }
{
    match line {
        [.., b'\r'] => line.len() - 1,
        _ => line.len(),
    }
}

/// Returns a line without the CR at its end.
pub fn without_return(line: &[u8]) -> &[u8]
    ensures { result.now ≡ without_return line.now }
{
    &line[..text_len(line)]
}

/// Checks that the source has no more bytes.
fn read_end<R: Source>(source: &mut R) -> Result<(), ReadFault>
    ensures { EndsInput result (R.remaining source.old)
        (R.remaining source.new) (R.failures source.old) (R.failures source.new) }
{
    let mut byte = [0];
    match source.read(&mut byte) {
        Ok(0) => Ok(()),
        Ok(_) => Err(ReadFault::TooManyBytes),
        Err(_) => Err(ReadFault::Device),
    }
}

/// Returns the lines of a source one by one. The buffer has `SIZE` bytes, at least one line of [`LONGEST`] bytes and
/// its LF, and each read takes as many bytes as fit and are available.
#[derive(Drop)]
pub struct LineReader<const SIZE: usize> {
    buffer: Buffer<SIZE>,
    text_len: usize,
    taken: usize,
    came: u64,
    limit: u64,
    number: u64,
    ended: bool,
    ghost text_inside: { text_len ≤ taken },
    ghost taken_inside: { taken ≤ length buffer },
    ghost few: { came ≤ limit },
    ghost numbered: { number + (length buffer - taken) ≤ came },
    ghost roomy: { 1024 ≤ SIZE },
}

impl<const SIZE: usize> LineReader<SIZE> {
    ghost use Rattle.text_lines.specs.Lines.{without_return, BeginsLine};
    ghost use Rattle.text_lines.specs.LineReaders.{line_of, pending_of, number_of, came_of, most_of, ended_of, NextLine, FailsOnRead, ReadsMore};

    /// Returns a reader that has read nothing and reads at most 2^40 bytes.
    pub fn new() -> LineReader<SIZE>
        requires { 1024 ≤ SIZE }
        ensures line { line_of result ≡ [] }
        ensures pending { pending_of result ≡ [] }
        ensures number { number_of result ≡ 0 }
        ensures came { came_of result ≡ 0 }
        ensures limit { most_of result ≡ 2 ^ 40 }
        ensures ended { ended_of result ≡ false }
    {
        LineReader::with_limit(LIMIT)
    }

    /// Returns a reader that has read nothing and reads at most `limit` bytes.
    pub fn with_limit(limit: u64) -> LineReader<SIZE>
        requires { 1024 ≤ SIZE }
        ensures line { line_of result ≡ [] }
        ensures pending { pending_of result ≡ [] }
        ensures number { number_of result ≡ 0 }
        ensures came { came_of result ≡ 0 }
        ensures limit { most_of result ≡ limit }
        ensures ended { ended_of result ≡ false }
    {
        LineReader {
            buffer: Buffer::new(),
            text_len: 0,
            taken: 0,
            came: 0,
            limit,
            number: 0,
            ended: false,
        }
    }

    /// Returns the last line read, without its LF and the CR before it.
    pub fn line(&self) -> &[u8]
        ensures { result.now ≡ line_of self.now }
    {
        &self.buffer.as_slice()[..self.text_len]
    }

    /// Returns the number of that line, from 1.
    pub fn number(&self) -> u64
        ensures { result ≡ number_of self.now }
    {
        self.number
    }

    /// Returns whether that line was the last and lacks its LF. The source is then at its end and must not be read
    /// again.
    pub fn has_ended(&self) -> bool
        ensures { result ≡ ended_of self.now }
    {
        self.ended
    }

    /// Discards the last line read.
    #[inline(always)]
    fn let_go(&mut self)
        ensures taken { self.new.taken ≡ 0 }
        ensures pending { self.new.buffer ≡ pending_of self.old }
        ensures number { self.new.number ≡ self.old.number }
        ensures came { self.new.came ≡ self.old.came }
        ensures limit { self.new.limit ≡ self.old.limit }
        ensures ended { self.new.ended ≡ false }
    {
        self.buffer.consume(self.taken);
        self.text_len = 0;
        self.taken = 0;
        self.ended = false;
    }

    /// Returns the first `len` bytes as a line that occupies `end` bytes.
    #[inline(always)]
    fn hand_out(&mut self, len: usize, end: usize)
        requires taken { self.old.taken ≡ 0 }
        requires inside { len ≤ end }
        requires some { 0 < end }
        requires come { end ≤ length self.old.buffer }
        ensures line { line_of self.new ≡ without_return (take len self.old.buffer) }
        ensures pending { pending_of self.new ≡ drop end self.old.buffer }
        ensures number { number_of self.new ≡ number_of self.old + 1 }
        ensures came { came_of self.new ≡ came_of self.old }
        ensures limit { most_of self.new ≡ most_of self.old }
        ensures ended { ended_of self.new ≡ ended_of self.old }
    {
        let text_len = text_len(&self.buffer.as_slice()[..len]);
        self.text_len = text_len;
        self.taken = end;
        self.number += 1;
    }

    /// Reads more bytes, and returns whether there were any.
    #[cold]
    #[inline(never)]
    fn read_more<R: Source>(&mut self, source: &mut R) -> Result<bool, ReadFault>
        requires taken { self.old.taken ≡ 0 }
        requires room { length self.old.buffer < SIZE }
        ensures read { (bytes : List ℕ)
            × ReadsMore result self.old self.new (R.remaining source.old)
            (R.remaining source.new) bytes }
        ensures failures { FailsOnRead result (R.failures source.old) (R.failures source.new) }
        ensures taken { self.new.taken ≡ 0 }
        ensures limit { self.new.limit ≡ self.old.limit }
        ensures number { self.new.number ≡ self.old.number }
        ensures ended { self.new.ended ≡ self.old.ended }
    {
        if self.came == self.limit {
            read_end(source)?;
            return Ok(false);
        }
        let room = (self.limit - self.came).min(SIZE as u64) as usize;
        let Ok(n) = self.buffer.fill(source, room) else {
            return Err(ReadFault::Device);
        };
        self.came += n as u64;
        Ok(n > 0)
    }

    /// Returns the unread bytes, up to the maximal size of a line and its LF.
    #[inline(always)]
    pub(crate) fn ahead(&self) -> &[u8]
        ensures { result.now ≡ take 1024 (pending_of self.now) }
    {
        let pending = &self.buffer.as_slice()[self.taken..];
        &pending[..pending.len().min(LONGEST + 1)]
    }

    /// Takes the next line, which is in the buffer with its LF and has `len` bytes before it.
    #[inline(always)]
    pub(crate) fn take_short(&mut self, len: usize)
        requires { BeginsLine len (pending_of self.old) }
        ensures line { (known : Option (List ℕ))
            → NextLine (Ok true) self.old self.new known known }
        ensures text { line_of self.new ≡ take len (pending_of self.old) }
        ensures few { came_of self.new ≤ most_of self.new }
        ensures limit { most_of self.new ≡ most_of self.old }
    {
        self.buffer.consume(self.taken);
        self.text_len = len;
        self.taken = len + 1;
        self.number += 1;
        self.ended = false;
    }

    /// Takes the next line if it is in the buffer with its LF, and returns whether it is. Otherwise only discards the
    /// last line, because more must be read first.
    #[inline(always)]
    pub fn take_line(&mut self) -> bool
        ensures taken { result ≡ true → (known : Option (List ℕ))
            → NextLine (Ok true) self.old self.new known known }
        ensures pending { result ≡ false → pending_of self.new ≡ pending_of self.old }
        ensures number { result ≡ false → number_of self.new ≡ number_of self.old }
        ensures came { came_of self.new ≡ came_of self.old }
        ensures limit { most_of self.new ≡ most_of self.old }
    {
        self.let_go();
        let bytes = self.buffer.as_slice();
        let held = bytes.len();
        let len = len_before(b'\n', bytes);
        if len > LONGEST || len == held {
            return false;
        }
        self.hand_out(len, len + 1);
        true
    }

    /// Reads the next line, and returns whether there is one before the end of the input. Reads nothing while the
    /// buffer contains a whole line. Fails for a line of more than 1023 bytes before its LF, and for more bytes than
    /// the limit.
    #[inline(always)]
    pub fn next_line<R: Source>(&mut self, source: &mut R) -> Result<bool, ReadFault>
        ensures line { NextLine result self.old self.new (R.remaining source.old)
            (R.remaining source.new) }
        ensures failures { FailsOnRead result (R.failures source.old) (R.failures source.new) }
        ensures few { came_of self.new ≤ most_of self.new }
        ensures limit { most_of self.new ≡ most_of self.old }
    {
        self.let_go();
        'reads: loop {
            let bytes = self.buffer.as_slice();
            let held = bytes.len();
            let len = len_before(b'\n', bytes);
            if len > LONGEST {
                return Err(ReadFault::LongLine(self.number + 1));
            }
            if len < held {
                self.hand_out(len, len + 1);
                return Ok(true);
            }
            let more = self.read_more(source)?;
            if !more {
                if held == 0 {
                    return Ok(false);
                }
                self.ended = true;
                self.hand_out(held, held);
                return Ok(true);
            }
        }
    }
}
