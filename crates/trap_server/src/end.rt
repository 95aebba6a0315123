//! The last frame, which tells why the loop ends.

ghost use Rattle.std.specs.Prelude.{◌≡◌};
ghost use Rattle.trap_server.specs.EndFrames.{end_bytes, reason_of, detail_of};

use crate::frame::{ShortBytes, TAG_END, three_words};
use platforms::PlatformFault;

/// The reason why the loop ends.
#[derive(Clone, Copy, Debug, PartialEq, Eq)]
pub enum EndReason {
    /// A frame is invalid.
    NotUnderstood,
    /// The numbers of the first frame are not a valid platform.
    Platform(PlatformFault),
    /// The host's view of the platform needs this many entries, more than a hart has.
    NeedsEntries(u64),
    /// An allocation failed at boot.
    Memory,
}

impl EndReason {
    /// Returns the number of the reason in the frame.
    fn reason(self) -> u64
        ensures { result ≡ reason_of self }
    {
        match self {
            EndReason::NotUnderstood => 1,
            EndReason::Platform(_) => 2,
            EndReason::NeedsEntries(_) => 3,
            EndReason::Memory => 4,
        }
    }

    /// Returns the detail of the reason: the number of the fault, or of entries.
    fn detail(self) -> u64
        ensures { result ≡ detail_of self }
    {
        match self {
            EndReason::Platform(fault) => u64::from(fault.number()),
            EndReason::NeedsEntries(count) => count,
            EndReason::NotUnderstood | EndReason::Memory => 0,
        }
    }
}

/// Returns the last frame.
#[inline(never)]
pub fn end_frame(refusal: EndReason) -> ShortBytes
    ensures { result ≡ end_bytes refusal }
{
    three_words(TAG_END, refusal.reason(), refusal.detail())
}
