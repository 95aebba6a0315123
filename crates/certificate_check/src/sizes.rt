//! Sets of sizes of entries.

ghost use Rattle.std.specs.Prelude.{◌≡◌, ◌≢◌, ℕ, ◌<◌, ◌^◌, IfSome, IfNone};
ghost use Rattle.std.specs.Int.{bit_at};

/// A set of sizes as a bit mask.
#[derive(Clone, Copy)]
pub(crate) struct Sizes {
    pub(crate) bits: u64,
}

impl Sizes {
    /// Returns the empty set.
    pub(crate) fn new() -> Sizes
        ensures { result.bits ≡ 0 }
    {
        Sizes { bits: 0 }
    }

    /// Adds a size to the set.
    pub(crate) fn insert(&mut self, size: usize)
        requires small { size < 45 }
        ensures few { self.old.bits < 2 ^ 45 → self.new.bits < 2 ^ 45 }
        ensures has { bit_at self.new.bits size ≡ 1 }
        ensures others { (k : ℕ) → k ≢ size
            → bit_at self.new.bits k ≡ bit_at self.old.bits k }
    {
        self.bits |= 1 << size;
    }

    /// Removes a size from the set.
    pub(crate) fn remove(&mut self, size: usize)
        requires small { size < 45 }
        requires has { bit_at self.old.bits size ≡ 1 }
        ensures fewer { self.new.bits < self.old.bits }
        ensures lacks { bit_at self.new.bits size ≡ 0 }
        ensures others { (k : ℕ) → k < 45 → k ≢ size
            → bit_at self.new.bits k ≡ bit_at self.old.bits k }
    {
        self.bits &= !(1 << size);
    }

    /// Returns the least size of the set.
    pub(crate) fn least(self) -> Option<usize>
        requires few { self.bits < 2 ^ 45 }
        ensures small { IfSome result (λ size. size < 45) }
        ensures has { IfSome result (λ size. bit_at self.bits size ≡ 1) }
        ensures none { IfNone result (self.bits ≡ 0) }
    {
        if self.bits == 0 {
            return None;
        }
        Some(self.bits.trailing_zeros() as usize)
    }
}
