//! Detects tasks whose files conflict: a certificate that would replace an input or output of its task, and standard
//! input that would be read twice.

ghost use Rattle.std.specs.Prelude.{◌≡◌, ◌≢◌, ◌⊎◌, IfErr, IfSome, IsErr, IsOk, None};
ghost use Rattle.std.specs.Process.{exit_status};
ghost use Rattle.command_line.specs.Tasks.{input_word};
ghost use Rattle.command_line.specs.Places.{cert_of, IsToStandardOutput, ReadsTwice};

use crate::entered::exit_with_fault;
use command_line::{Fault, Task, cert_of, outline_of, reads_twice};
use program_files::{is_same_file, is_same_plain_file};
use std::process::ExitCode;

/// Returns the reason why a certificate is not written under this name, because the list or the input would be lost.
fn why_not_placed(rt: &HostRuntime, cert: &str) -> Option<&'static str>
    ensures { cert.now ≡ input_word → result ≢ None }
{
    if cert == "-" {
        return Some("the certificate cannot be written to standard output, '-'");
    }
    if is_same_plain_file(rt, cert, "/dev/stdout") {
        return Some("the certificate would take the place of the file at standard output");
    }
    if is_same_plain_file(rt, cert, "/dev/stdin") {
        return Some("the certificate would take the place of the file at standard input");
    }
    None
}

/// Refuses a task whose certificate would replace its map, under another name of the same file, or the file at standard
/// input or output.
fn refuse_files(rt: &HostRuntime, task: &Task<'_>) -> Option<ExitCode>
    ensures status { IfSome result (λ code. exit_status code ≡ 2 ⊎ exit_status code ≡ 4) }
    ensures word { IsToStandardOutput (cert_of task.now) → result ≢ None }
    ensures others { cert_of task.now ≡ None → result ≡ None }
{
    let Some(cert) = cert_of(task) else {
        return None;
    };
    if let Some(text) = why_not_placed(rt, cert) {
        return Some(exit_with_fault(rt, "plan", &Fault::NoPlace(text)));
    }
    let map = outline_of(task).first;
    if is_same_file(rt, map, cert) {
        return Some(exit_with_fault(rt, "plan", &Fault::TakesPlace(map)));
    }
    None
}

/// Refuses a task that would read standard input twice, or write its certificate over an input or output: reports the
/// reason and returns the exit status. Any other task may be performed.
pub fn may_be_done(rt: &HostRuntime, task: &Task<'_>) -> Result<(), ExitCode>
    ensures twice { ReadsTwice task.now → IsErr result }
    ensures printed { IsToStandardOutput (cert_of task.now) → IsErr result }
    ensures status { IfErr result (λ code. exit_status code ≡ 2 ⊎ exit_status code ≡ 4) }
    ensures others { ¬ ReadsTwice task.now → cert_of task.now ≡ None → IsOk result }
{
    if reads_twice(task) {
        let name = outline_of(task).subcommand.name();
        return Err(exit_with_fault(rt, name, &Fault::InputTwice));
    }
    match refuse_files(rt, task) {
        Some(code) => Err(code),
        None => Ok(()),
    }
}
