//! The events of a trace: the parser of its lines with its diagnostics, and the text of the answers to accesses and
//! events.
//!
//! For the layer above: [`read_line`] parses a line iff the grammar of traces gives it a meaning, and returns that
//! meaning, or the first word at fault with the reason. [`read_access`] does so for `judge`, which accepts only
//! accesses, and [`parse_line`] omits the reason. [`access_ahead`], [`setting_ahead`], [`call_ahead`] and
//! [`interrupt_ahead`] parse a plain line at the front of a buffer, whose end need not be known: if they return a
//! result, it is the meaning that the grammar gives the line. [`judge_lines`] answers each access of a trace with the
//! outcome of an [`AccessJudge`], in a line that is written before the next is read; [`judge_trace`] does so by the
//! list that a bank's registers mean. [`push_reply`] writes a reply's line. Nothing here allocates.
//!
//! ```text
//! match read_line(b"@1 store u 4 0x80000000 7", 2) {
//!     Ok(Some((hart, Event::Access(access, value)))) => {}
//!     Err(fault) => {} // fault.reason, at fault.before
//!     _ => {}
//! }
//! let bank = Bank::of(plan.entries(), Limit::Sixteen);
//! judge_trace(&bank, &mut source, &mut sink)?;
//! ```
#![tactic(auto)]

mod access_judge;
mod ahead;
mod answers;
mod event;
mod event_words;
mod fault;
mod judge;
mod lines;
mod plain;
mod plain_events;
mod reply;
mod trace;

pub use access_judge::AccessJudge;
pub use ahead::{access_ahead, call_ahead, interrupt_ahead, setting_ahead};
pub use answers::push_answer;
pub use event::Event;
pub use fault::{EventKind, LineFault, Reason, Slot};
pub use judge::{LineJudge, judge_lines, judge_trace};
pub use lines::push_reply;
pub use reply::Reply;
pub use trace::{parse_line, read_access, read_line};
