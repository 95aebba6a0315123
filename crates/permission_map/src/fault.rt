//! Reasons why a range cannot be set.

/// The reason why a range was not set. The map is unchanged.
#[derive(Clone, Copy, PartialEq, Eq, Debug)]
pub enum MapFault {
    /// The range ends after the last page of the space.
    PastEnd = 1,
    /// The map would have more than 4096 maximal runs of a permission other than none.
    TooManyRanges = 2,
    /// An allocation failed.
    Memory = 3,
}

impl MapFault {
    ghost use Rattle.std.specs.Prelude.{◌≡◌};
    ghost use Rattle.permission_map.specs.Faults.{map_fault_number};

    /// Returns the number of the fault, from 1 to 3.
    pub fn number(self) -> u8
        ensures { result ≡ map_fault_number self }
    {
        self as u8
    }
}
