//! A sink whose bytes are moved to a place.

ghost use Rattle.std.specs.Prelude.{◌≡◌, ℕ, Bool, List, Option, true, IfErr, IfOk};
ghost use Rattle.std.specs.Borrow.{Lends, sem};
ghost use Rattle.text_lines.specs.Streams.{CountsFailure};

use text_lines::{DeviceFault, Sink};

/// A sink whose bytes appear in their place all at once, or not at all.
pub trait WholeSink: Sink {
    /// The sink that takes the bytes.
    type Inner: Sink;

    /// The bytes in the place, if they are known.
    ghost stands: { Self → Option (List ℕ) };

    /// True if the place is separate from the inner sink. A stream is its own place.
    ghost is_apart: { Bool };

    /// The same place with another state of the inner sink.
    ghost with_inner: { Self → Self.Inner → Self };

    /// Lends the inner sink, but not the place.
    fn inner(&mut self) -> &mut Self::Inner
        ensures* lends { sem 𝓛 (Lends Self.row Self.Inner.row self.entry result
            (with_inner self.old)) }
        ensures contents { Self.Inner.contents result.now ≡ Self.contents self.old }
        ensures failures { Self.Inner.failures result.now ≡ Self.failures self.old }
        ensures stalls { Self.Inner.stalls result.now ≡ Self.stalls self.old };

    /// Puts the written bytes in their place.
    fn put_in_place(&mut self) -> Result<(), DeviceFault>
        ensures placed { IfOk result (λ _. stands self.new ≡ Self.contents self.old) }
        ensures stays { IfErr result (λ _. stands self.new ≡ stands self.old) }
        ensures contents { Self.contents self.new ≡ Self.contents self.old }
        ensures failures { CountsFailure result (Self.failures self.old) (Self.failures self.new) }
        ensures stalls { Self.stalls self.new ≡ Self.stalls self.old };

    /// Both have taken the same bytes.
    ghost taken: { (whole : Self) (inner : Self.Inner)
        → Self.contents (with_inner whole inner) ≡ Self.Inner.contents inner };

    /// Both have the same number of failed writes.
    ghost failed: { (whole : Self) (inner : Self.Inner)
        → Self.failures (with_inner whole inner) ≡ Self.Inner.failures inner };

    /// Both have the same number of writes that accepted no bytes.
    ghost stalled: { (whole : Self) (inner : Self.Inner)
        → Self.stalls (with_inner whole inner) ≡ Self.Inner.stalls inner };

    /// A write does not change the bytes in a separate place.
    ghost apart: { (whole : Self) (inner : Self.Inner) → is_apart ≡ true
        → stands (with_inner whole inner) ≡ stands whole };
}
