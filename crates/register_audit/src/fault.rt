//! Errors of tasks on a listing.

use std::alloc::AllocError;

/// The reason why a task on a listing failed.
#[derive(Clone, Copy, PartialEq, Eq, Debug)]
pub enum ListingFault {
    /// The line with this number, from 1, is invalid.
    Line(u64),
    /// An allocation failed.
    Memory,
    /// The device failed, or accepted no bytes.
    Device,
}

/// The reason why a listing gives no map.
#[derive(Clone, Copy, Debug)]
pub enum MapOfFault {
    /// The listing itself is at fault.
    Listing(ListingFault),
    /// The map would have more than 4096 ranges.
    TooManyRanges,
}

/// The reason why registers give no map.
#[derive(Clone, Copy)]
pub(crate) enum NoMapReason {
    /// The map would have more than 4096 ranges.
    TooManyRanges,
    /// An allocation failed.
    Memory,
}

impl From<AllocError> for NoMapReason {
    ghost use Rattle.std.specs.Prelude.{◌≡◌};
    ghost use Rattle.register_audit.specs.declared.fault.NoMapReason.TheVariants.{Memory};

    ghost from_gives = { λ error refusal. refusal ≡ Memory };

    fn from(_: AllocError) -> NoMapReason {
        NoMapReason::Memory
    }
}
