//! The command line: words that form a task, and words that do not.

mod faults;
mod helps;
mod hints;
mod plans;
mod tasks;
