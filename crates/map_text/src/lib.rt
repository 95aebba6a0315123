//! Parses the lines of a map file, and prints maps and plans as text.
//!
//! Each line of a map sets a permission on whole pages, and a later line overrides an earlier one. [`map_of`] returns
//! the map of a file, or the first invalid line; [`raw_says`] parses one line. A map file has at most [`MAP_BYTES`].
//! [`print_plan`] writes the lines of a list of entries to a sink. The functions that end in `_line` return one line in
//! a buffer of fixed length.
//!
//! ```rust
//! let map = map_of(rt.alloc(), b"0x80000000 0x1000 rwx\n")?;
//! let plan = plan_map(rt.alloc(), &map)?;
//! print_plan(Xlen::Rv64, plan.entries(), 0, Limit::Sixteen, &mut out)?;
//! ```
#![tactic(auto)]

mod digests;
mod entry_lines;
mod fields;
mod line_texts;
mod listed_entry;
mod map_file;
mod map_lines;
mod placed;
mod plan;

pub use digests::{digest_text, measure_line};
pub use fields::{letters, push_size};
pub use line_texts::{
    accepted_line, accepted_of_line, count_line, push_register, refused_line, word_line,
};
pub use listed_entry::{ChainedEntry, ListedEntry};
pub use map_file::{MAP_BYTES, MapFileFault, map_of};
pub use map_lines::raw_says;
pub use placed::{entry_from, room_from, word_from};
pub use plan::print_plan;
