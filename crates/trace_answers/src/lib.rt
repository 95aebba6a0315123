//! Compares the answers to a trace with those that its comments expect, or explains each answer in a comment.
//!
//! - [`compare_lines`] interprets the lines of an input as `interpret_lines` does and writes the same answers. It finds
//!   the first [`Difference`] between an answer and the comment of its line. The [`CommentNote`] lists comments that
//!   look like an answer but are not one. [`compare_judged`] does the same for accesses, judged by an `AccessJudge`.
//! - [`explain_judged`] judges the accesses of a trace as `judge_lines` does, and appends to each answer what decided
//!   it.
//! - [`explain_run`] runs a trace on a machine as `hart_sim::run` does, and appends to each answer what happened: on
//!   which hart and in which world, which entry decided an access, and why a call was refused. [`print_summary`] prints
//!   the counts of the [`Tally`].
//!
//! An explained answer is the answer and a comment. It is proved that the answers are those of the report. The comments
//! are prose, made from values that have contracts ([`Reason`], [`Asked`], [`Outcome`]).
//!
//! ```text
//! explain_judged(&Segments::of(&bank), &bank, &mut source, &mut sink)?;
//! ```
#![tactic(auto)]

mod asked;
mod comments;
mod comparison;
mod difference;
mod event_comment;
mod explained;
mod explained_run;
mod explaining_judges;
mod judges;
mod mistaken;
mod outcome;
mod reasons;
mod refusals;
mod summary;
mod tally;

pub use asked::{Asked, Deed, asked_of};
pub use comparison::{Compared, compare_lines};
pub use difference::{Difference, DifferenceText};
pub use explained_run::{Ran, explain_run};
pub use explaining_judges::explain_judged;
pub use judges::compare_judged;
pub use mistaken::CommentNote;
pub use outcome::Outcome;
pub use reasons::{Reason, reason_of};
pub use summary::print_summary;
pub use tally::Tally;
