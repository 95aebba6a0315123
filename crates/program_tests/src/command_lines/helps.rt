//! Words that ask for help.

use clap::error::ErrorKind;
use command_line::request_of_words;
use std::alloc::Global;
use std::process::Abort;

/// Asserts that the words ask for help, which is not a task.
fn is_help(rt: &impl Abort, alloc: Global, words: &[&str]) {
    match request_of_words(alloc, words) {
        Ok(_) => panic!(rt; "a task"),
        Err(error) => assert!(rt; error.kind() == ErrorKind::DisplayHelp),
    }
}

#[test]
fn help_is_no_mistake(rt: HostRuntime) {
    let lines: [&[&str]; 2] = [&["pmpmon", "plan", "-h"], &["pmpmon", "help", "judge"]];
    for words in lines {
        is_help(&rt, rt.alloc(), words);
    }
}
