//! Tests of the program: the command line and its errors, the commands on files in memory and on failing devices,
//! hints, and the texts that they read and print.
//!
//! They are in a crate of their own so that the gate proves each tested crate only once. `tests/transcripts` contains
//! the full output of commands.
#![tactic(auto)]

#[cfg(test)]
mod audits;
#[cfg(test)]
mod command_lines;
#[cfg(test)]
mod events;
#[cfg(test)]
mod failures;
#[cfg(test)]
mod formats;
#[cfg(test)]
mod lines;
#[cfg(test)]
mod listings;
#[cfg(test)]
mod platform_texts;
#[cfg(test)]
mod registers;
#[cfg(test)]
mod said;
#[cfg(test)]
mod streams;
#[cfg(test)]
mod tables;
#[cfg(test)]
mod tests;
#[cfg(test)]
mod waiting;
