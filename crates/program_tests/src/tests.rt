//! Tests of the commands, one module per subject.

mod boards;
mod devices;
mod failures;
mod hints;
mod judged;
mod machine;
mod names;
mod on_files;
mod plans;
mod runs;
