//! Reads the command line: returns its request, or the exit status if there is nothing to perform.

ghost use Rattle.std.specs.Prelude.{◌≡◌, ◌⊎◌, IfErr, IfOk, map, string_bytes};
ghost use Rattle.std.specs.Process.{exit_status};
ghost use Rattle.clap.specs.Words.{kind_of, subcommand_of};
ghost use Rattle.command_line.specs.CommandLine.{program_app, IsRequest};
ghost use Rattle.monitor_cli.specs.Ends.{IsRefused, IsStatusOf};

use crate::troubles::exit_with_trouble;
use clap::Error;
use clap::error::ErrorKind;
use command_line::{Fault, Request, error_with_usage, request_of_words};
use program_files::{Trouble, quoted, shown, text_of};
use std::alloc::AllocError;
use std::env::{self, FillError};
use std::io;
use std::process::ExitCode;
use std::rt::Env;
use std::str::from_utf8;

/// Returns the words of the command line, the program's name first.
fn read_words(rt: &HostRuntime) -> io::Result<Vec<String>> {
    let mut words = Vec::new(rt.alloc());
    for word in env::args(rt)? {
        words.push(word)?;
    }
    Ok(words)
}

/// Returns the words of the command line, the program's name first. If a word is not UTF-8, or an allocation fails,
/// reports this and returns the exit status.
pub fn words_in(rt: &HostRuntime) -> Result<Vec<String>, ExitCode>
    ensures { IfErr result (λ code. exit_status code ≡ 2 ⊎ exit_status code ≡ 4) }
{
    match read_words(rt) {
        Ok(words) => Ok(words),
        Err(error) if error.kind() == io::ErrorKind::OutOfMemory => {
            Err(exit_with_trouble(rt, Trouble::Memory))
        }
        Err(_) => {
            say_which(rt);
            Err(ExitCode::from(2))
        }
    }
}

/// Returns the words as texts. If an allocation fails, reports this and returns the exit status.
pub fn texts_in<'a>(rt: &HostRuntime, words: &'a [String]) -> Result<Vec<&'a str>, ExitCode>
    ensures texts { IfOk result (λ texts.
        map (λ text. text.now) texts.items ≡ map string_bytes words.entry.now) }
    ensures memory { IfErr result (λ code. exit_status code ≡ 4) }
{
    let mut texts = Vec::new(rt.alloc());
    for word in words {
        let Ok(()) = texts.push(word.as_str()) else {
            return Err(exit_with_trouble(rt, Trouble::Memory));
        };
    }
    Ok(texts)
}

/// Returns the request of the words, of which the first is the program's name. If they ask for help or the version,
/// prints it; if they are invalid, reports the fault; then returns the exit status.
pub fn request_in<'a>(rt: &HostRuntime, words: &'a [&'a str]) -> Result<Request<'a>, ExitCode>
    ensures request { IfOk result (IsRequest (subcommand_of program_app
        (map (λ s. s.now) words.entry.now))) }
    ensures refused { IfErr result (IsRefused (map (λ s. s.now) words.entry.now)) }
{
    match request_of_words(rt.alloc(), words) {
        Ok(request) => Ok(request),
        Err(error) => Err(refuse(rt, words, &error)),
    }
}

/// Prints help or the version on standard output, or a fault of the command line on standard error. If the reader of
/// standard output has closed it, this is not reported.
fn exit_with_usage(rt: &HostRuntime, error: &Error) -> ExitCode
    ensures { IsStatusOf (kind_of error.now) (exit_status result) }
{
    if error.kind() == ErrorKind::OutOfMemory {
        return exit_with_trouble(rt, Trouble::Memory);
    }
    let printed = error.print(rt);
    if error.use_stderr() {
        return ExitCode::from(2);
    }
    match printed {
        Ok(()) => ExitCode::SUCCESS,
        // The reader, such as `head`, has read all that it wants.
        Err(error) if error.kind() == io::ErrorKind::BrokenPipe => ExitCode::from(3),
        Err(_) => exit_with_trouble(rt, Trouble::Output),
    }
}

/// Reports a fault of the command line, with the usage of its subcommand, or a failed allocation.
pub(crate) fn exit_with_fault(rt: &HostRuntime, name: &str, fault: &Fault<'_>) -> ExitCode
    ensures { exit_status result ≡ 2 ⊎ exit_status result ≡ 4 }
{
    match error_with_usage(rt.alloc(), name, fault) {
        Ok(error) => exit_with_usage(rt, &error),
        Err(AllocError) => exit_with_trouble(rt, Trouble::Memory),
    }
}

/// Returns the words without control characters.
fn shown_words(rt: &HostRuntime, words: &[&str]) -> Result<Vec<Vec<u8>>, AllocError> {
    let mut all = Vec::new(rt.alloc());
    for word in words {
        let text = shown(rt.alloc(), word.as_bytes())?;
        all.push(text)?;
    }
    Ok(all)
}

/// Returns such words as texts.
fn texts_of<'a>(rt: &HostRuntime, words: &'a [Vec<u8>]) -> Result<Vec<&'a str>, AllocError> {
    let mut texts = Vec::new(rt.alloc());
    for word in words {
        texts.push(text_of(word.as_slice()))?;
    }
    Ok(texts)
}

/// Reports a fault of the command line, in words without control characters unless an allocation fails.
fn refuse(rt: &HostRuntime, words: &[&str], error: &Error) -> ExitCode
    ensures { IsStatusOf (kind_of error.now) (exit_status result) }
{
    let Ok(shown) = shown_words(rt, words) else {
        return exit_with_usage(rt, error);
    };
    let Ok(texts) = texts_of(rt, shown.as_slice()) else {
        return exit_with_usage(rt, error);
    };
    match request_of_words(rt.alloc(), texts.as_slice()) {
        Err(other) if other.kind() == error.kind() => exit_with_usage(rt, &other),
        _ => exit_with_usage(rt, error),
    }
}

/// Maximum number of bytes of a word to inspect.
const LONGEST: usize = 4096;

/// Reports that a word is not UTF-8, and the first invalid byte.
fn say_word(rt: &HostRuntime, number: usize, word: &[u8], at: usize) {
    match quoted(rt.alloc(), word) {
        Ok(text) => {
            let text = text_of(text.as_slice());
            let _ = eprintln!(rt;
                "error: the command line: word {number} is no UTF-8 from its byte {at} on: '{text}'"
            );
        }
        Err(AllocError) => {
            let _ = eprintln!(rt; "error: the command line: word {number} is no UTF-8");
        }
    }
}

/// Reports the first word of the command line that is not UTF-8. Words are counted after the program's name.
fn say_which(rt: &HostRuntime) {
    let mut buf = [0; LONGEST];
    for number in 1..usize::MAX {
        match rt.arg(number, &mut buf) {
            Ok(len) => {
                let word = &buf[..len];
                if let Err(error) = from_utf8(word) {
                    say_word(rt, number, word, error.valid_up_to().saturating_add(1));
                    return;
                }
            }
            Err(FillError::TooLong) => {}
            Err(FillError::NotPresent) => break,
        }
    }
    let _ = eprintln!(rt; "error: the command line: a word is no UTF-8");
}
