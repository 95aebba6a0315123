//! Performs a task on its files and on the standard streams.

ghost use Rattle.std.specs.Prelude.{◌≡◌, IfOk};
ghost use Rattle.std.specs.Borrow.{Bor};
ghost use Rattle.text_lines.specs.HeldSink.{held_in, writer_of};
ghost use Rattle.program_files.specs.Troubles.{status_of};
ghost use Rattle.monitor_cli.specs.Answered.{status_in};
ghost use Rattle.monitor_cli.specs.OnFiles.{input_over, EndsOnFiles, IsClosed};

use crate::answered::Answered;
use crate::certificate_sink::Whole;
use crate::hints::tell_hints;
use crate::program::{report, run_task};
use crate::task_inputs::{inputs, inputs_again};
use command_line::{Request, Subcommand, name_or_none, outline_of};
use file_hints::{FileKind, input_kind};
use program_files::{
    CertificateFile, Explained, FileToRead, Reason, RetryInterrupted, Trouble, write_named,
};
use std::alloc::{AllocError, Global};
use std::fs;
use std::io::{Read, Write};
use std::rt::Files;
use text_lines::{Counted, Held, HeldSink, Sink};

/// Resources lent to a task, except its outputs: memory, files and standard input.
#[derive(Clone, Copy)]
pub struct Lent<'a, R, S> {
    /// The allocator.
    pub alloc: Global,
    /// The files.
    pub files: &'a R,
    /// Standard input, which `-` names.
    pub stdin: S,
}

/// Flushes the rest of the output of a task, then reports the task's failure or its notes, so that they follow its
/// output even in one file. Returns the exit status and the stream: 3 if flushing failed and there is no other failure.
/// In any case the stream has received a prefix of the output.
fn close_output<T: Write + Drop, E: Sink>(
    done: Result<Answered, Trouble<'_>>,
    out: HeldSink<T>,
    err: &mut E,
) -> (u8, T)
    ensures { IsClosed (held_in out) (T.contents (writer_of out)) (T.contents result.1)
        (status_of (status_in done.entry)) result.0 }
{
    let (is_whole, stream) = out.close();
    let status = report(done, err);
    if is_whole || status >= 2 {
        return (status, stream);
    }
    let _ = Trouble::Output.print(err);
    (Trouble::Output.status(), stream)
}

/// Returns the reason why an input of this kind is not replaced by a certificate.
fn reason_to_keep(kind: FileKind) -> Reason {
    match kind {
        FileKind::Map => Reason::IsMap,
        FileKind::Platform => Reason::IsPlatform,
        FileKind::Listing => Reason::IsListing,
        FileKind::Trace => Reason::IsTrace,
        FileKind::Tree => Reason::IsTree,
        FileKind::TreeSource | FileKind::Certificate | FileKind::Elf => Reason::IsInput,
    }
}

/// Returns the reason why the file with this name is not replaced by a certificate: it is an input of the program.
fn kept_reason<R: Files>(
    files: &R,
    alloc: Global,
    name: &str,
) -> Result<Option<Reason>, AllocError> {
    match fs::metadata(files, name) {
        Ok(stands) if stands.is_file() => {}
        _ => return Ok(None),
    }
    let mut source = Counted::new(FileToRead::new(files, name));
    match input_kind(alloc, &mut source)? {
        Some(kind) => Ok(Some(reason_to_keep(kind))),
        None => Ok(None),
    }
}

/// Returns the file of a task's certificate, which does not replace an input of the program.
fn certificate_file<'a, R: Files>(
    files: &'a R,
    alloc: Global,
    name: &str,
) -> Result<CertificateFile<&'a R>, AllocError>
    ensures failures { IfOk result (λ file. file.part.failures ≡ 0) }
{
    let kept = kept_reason(files, alloc, name)?;
    let mut file = CertificateFile::new(files, alloc, name)?;
    if let Some(reason) = kept {
        file.keep(reason);
    }
    Ok(file)
}

/// Reports why the file or stream with this name failed, if it did.
fn say_why<E: Sink>(name: &str, reason: Option<Reason>, err: &mut E) -> bool {
    let Some(reason) = reason else {
        return false;
    };
    let _ = write_named(err, "hint: ", name, &[": ", reason.text(), "\n"]);
    true
}

/// Prints hints for the inputs of a task, which are reopened. Standard input cannot be reopened, so it has no hints.
#[inline(never)]
fn hint<'a, R: Files, S: Read + Copy, E: Sink>(
    lent: &Lent<'a, R, S>,
    request: &Request<'a>,
    err: &mut E,
) {
    let (mut first, mut second) = inputs_again(lent.files, lent.stdin, &request.task);
    tell_hints(lent.alloc, request, &mut first, &mut second, err);
}

/// Returns whether there may be hints for a task that ended with this status: it ended because of bad input; it is a
/// plan, which may have been printed without configuration words; its map may be empty; or a certificate was refused.
fn may_be_hinted(subcommand: Subcommand, status: u8) -> bool {
    match subcommand {
        Subcommand::Plan | Subcommand::Show => status == 2 || status == 0,
        Subcommand::Check => status == 2 || status == 1,
        _ => status == 2,
    }
}

/// Performs a request on the files of its task, and returns the exit status. Each file is opened or created at its
/// first read or write. If hints are enabled, they follow the message of a failure, or the reason why a device failed.
/// Nothing is done if an allocation fails before.
pub fn perform_on_files<'a, R: Files, S: Read + Copy, O: Write + Drop, E: Sink>(
    lent: &Lent<'a, R, S>,
    stdout: O,
    err: &mut E,
    request: &Request<'a>,
    is_terminal: bool,
) -> Result<u8, AllocError>
    ensures { IfOk result (EndsOnFiles R R.Dir (Bor R) lent.now.stdin
        (input_over R.File.remaining S.remaining) stdout (λ stream. O.contents stream.inner.inner)
        request.now) }
{
    let (mut first, mut second) = inputs(lent.files, lent.stdin, &request.task);
    let files = outline_of(&request.task);
    let cert_name = name_or_none(files.cert);
    let mut cert = certificate_file(lent.files, lent.alloc, cert_name)?;
    let out = Explained::new(RetryInterrupted::new(stdout));
    let mut out = HeldSink::new(lent.alloc, out)?;
    let done = run_task::<_, Whole, _, Held, _>(
        lent.alloc,
        request,
        &mut first,
        &mut second,
        &mut cert,
        &mut out,
    );
    let (status, out) = close_output(done, out, err);
    if !request.options.hints.are_told(is_terminal) {
        return Ok(status);
    }
    if may_be_hinted(files.subcommand, status) {
        hint(lent, request, err);
    } else if status == 3 {
        let second_name = name_or_none(files.second);
        let _ = say_why(files.first, first.into_inner().reason(), err)
            || say_why(second_name, second.into_inner().reason(), err)
            || say_why(cert_name, cert.reason(), err)
            || say_why("standard output", out.reason(), err);
    }
    Ok(status)
}
