//! Words that form no task, and their error messages.

use clap::error::ErrorKind;
use command_line::{Fault, error_with_usage, request_of_words};
use std::alloc::Global;
use std::process::Abort;

/// Asserts that the words form no task and that this is the error message.
fn is_told(rt: &impl Abort, alloc: Global, words: &[&str], said: &str) {
    match request_of_words(alloc, &*words) {
        Ok(_) => panic!(rt; "a task: {words:?}"),
        Err(error) => {
            let text = format!(in alloc; "{error}").expect(rt, "memory");
            assert!(rt; text.as_str() == said, "{said}");
        }
    }
}

#[test]
fn a_fault_names_the_value_and_the_usage(rt: HostRuntime) {
    is_told(
        &rt,
        rt.alloc(),
        &["pmpmon", "show", "map.txt", "--at-most", "few"],
        "error: invalid value 'few' for '--at-most <N>': no number below 2^64\n\nUsage: pmpmon show [OPTIONS] <MAP>\n\nFor more information, try '--help'.\n",
    );
}

#[test]
fn a_certificate_takes_no_other_files_place(rt: HostRuntime) {
    let fault = Fault::TakesPlace("m");
    let fault = error_with_usage(rt.alloc(), "plan", &fault).expect(&rt, "memory");
    assert!(rt; fault.kind() == ErrorKind::ArgumentConflict);
}
