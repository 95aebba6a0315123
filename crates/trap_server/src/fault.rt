//! Reasons why the loop ended before its input did.

ghost use Rattle.std.specs.Prelude.{ℕ};
ghost use Rattle.trap_server.specs.Ends.{CountsRead, CountsWrite, EndsAs, FrameRead, FrameWrite, Refuses};

use crate::{EndReason, FrameFault, end_frame};
use text_lines::{Sink, write_whole};

/// The reason why the loop ended before its input did.
#[derive(Clone, Copy, Debug, PartialEq, Eq)]
pub enum ServeFault {
    /// The last frame written contains the reason.
    Refused(EndReason),
    /// The source failed.
    Read,
    /// The sink failed, or accepted none of the bytes of a write.
    Write,
}

/// Writes the last frame, and returns the fault with which the loop ends.
pub(crate) fn refuse<W: Sink>(sink: &mut W, refusal: EndReason) -> ServeFault
    ensures last { Refuses result refusal (W.contents sink.old) (W.contents sink.new) }
    ensures reads { (n : ℕ) → CountsRead result n n }
    ensures writes { CountsWrite result (W.failures sink.old) (W.failures sink.new)
        (W.stalls sink.old) (W.stalls sink.new) }
{
    match write_whole(sink, &end_frame(refusal)) {
        Ok(()) => ServeFault::Refused(refusal),
        Err(_) => ServeFault::Write,
    }
}

/// Returns the fault with which the loop ends after a failed frame. An invalid frame is answered with the last frame.
pub(crate) fn end<W: Sink>(sink: &mut W, fault: FrameFault) -> ServeFault
    ensures last { EndsAs result fault (W.contents sink.old) (W.contents sink.new) }
    ensures reads { (before after : ℕ) → FrameRead fault before after
        → CountsRead result before after }
    ensures writes { (failures stalls : ℕ)
        → FrameWrite fault failures (W.failures sink.old) stalls (W.stalls sink.old)
        → CountsWrite result failures (W.failures sink.new) stalls (W.stalls sink.new) }
{
    match fault {
        FrameFault::Read => ServeFault::Read,
        FrameFault::Write => ServeFault::Write,
        FrameFault::NotUnderstood => refuse(sink, EndReason::NotUnderstood),
    }
}
