//! The map and the platform of a board as text, generated from its device tree.
//!
//! [`map_text_of`] returns the map of a flattened tree and [`platform_text_of`] its platform. Comments in both texts
//! name the node of each range, describe its pages, and list what is left out. Both functions parse the text with the
//! reader of maps or platforms before they return it. [`is_tree`] returns whether bytes begin with the magic number of
//! a flattened tree, and [`fault_line`] formats the reason for a failure.
//!
//! ```rust
//! let text = platform_text_of(rt.alloc(), tree, None)?;
//! ```
#![tactic(auto)]

mod comments;
mod fault;
mod harts;
mod map;
mod monitor;
mod pages;
mod platform;
mod platform_lines;
mod read_back;
#[cfg(test)]
mod tests;
mod tree;
mod view;

pub use fault::{BoardTextFault, fault_line};
pub use map::map_text_of;
pub use pages::pages_law;
pub use platform::platform_text_of;
pub use tree::is_tree;
