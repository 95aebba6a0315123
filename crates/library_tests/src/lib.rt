//! Tests of the libraries: maps, plans, certificates and their check; calls, the table of enclaves, switches of world,
//! measurements, SBI calls, and traces on booted machines with their reports.
//!
//! They are in a crate of their own so that the gate proves each tested crate only once. [`life`] and [`runs_on`] show
//! how to use the headline, [`boot_row`] and [`checked_plan`] the theorems on plans, and [`serve_life`] the theorem on
//! the firmware.
#![tactic(auto)]

#[cfg(test)]
mod accesses;
#[cfg(test)]
mod calls;
#[cfg(test)]
mod certificate_parts;
#[cfg(test)]
mod certificates;
#[cfg(test)]
mod checks;
#[cfg(test)]
mod cuts;
#[cfg(test)]
mod digests;
mod duties;
#[cfg(test)]
mod failing_runs;
mod fences;
mod firmware;
mod harts;
mod headline;
mod laws;
#[cfg(test)]
mod machines;
#[cfg(test)]
mod maps;
#[cfg(test)]
mod observed;
#[cfg(test)]
mod outgrown;
#[cfg(test)]
mod pages;
#[cfg(test)]
mod plans;
#[cfg(test)]
mod refused_frames;
#[cfg(test)]
mod registers;
#[cfg(test)]
mod runs;
#[cfg(test)]
mod sbi_calls_made;
#[cfg(test)]
mod served;
#[cfg(test)]
mod served_life;
#[cfg(test)]
mod spread_banks;
mod starts;
#[cfg(test)]
mod switches;
#[cfg(test)]
mod table;
#[cfg(test)]
mod tallies;
#[cfg(test)]
mod trees;
#[cfg(test)]
mod two_harts;

pub use duties::{comes_anyhow, ends_anyhow, resumes_anyhow};
pub use fences::{fence_on_board, served_anyhow};
pub use firmware::{destroyed_on_board, serve_life};
pub use harts::{each_is_needed, qemu_confines, wrote_anyhow};
pub use headline::{life, runs_on};
pub use laws::{boot_row, checked_plan, worked_rows};
pub use starts::started_anyhow;
