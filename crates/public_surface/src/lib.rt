//! Uses every public call that libraries and programs are written against, at its exact types and by the path of its crate.
//!
//! A call that is removed, moved or given another type no longer compiles here, so the gate notices. [`maps`] leads
//! from a map to its entries and their certificate, [`machines`] from a platform to a run, and [`programs`] uses the
//! program's own calls. None of these functions is run, and they promise nothing. [`example`] is the example in the
//! guide.
#![tactic(auto)]

pub mod example;
pub mod machines;
pub mod maps;
pub mod programs;
