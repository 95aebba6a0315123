//! Single bits of a word, where bit 0 is the lowest.

ghost use Rattle.std.specs.Prelude.{◌≡◌, ◌≢◌, ℕ, ◌^◌, ◌<◌, IsTrue, ◌↔◌};
ghost use Rattle.std.specs.Int.{bit_at};

/// Returns the word with only this bit set.
fn bit(place: u64) -> u64
    requires { place < 64 }
    ensures { result ≡ 2 ^ place }
{
    1 << place
}

/// Returns whether the bit is set.
pub(crate) fn has_bit(word: u64, place: u64) -> bool
    requires { place < 64 }
    ensures { IsTrue result ↔ (bit_at word place ≡ 1) }
{
    word >> place & 1 == 1
}

/// Sets the bit.
pub(crate) fn with_bit(word: u64, place: u64) -> u64
    requires { place < 64 }
    ensures here { bit_at result place ≡ 1 }
    ensures others { (i : ℕ) → i ≢ place → bit_at result i ≡ bit_at word i }
{
    word | bit(place)
}

/// Clears the bit.
pub(crate) fn without_bit(word: u64, place: u64) -> u64
    requires { place < 64 }
    ensures here { bit_at result place ≡ 0 }
    ensures others { (i : ℕ) → i ≢ place → bit_at result i ≡ bit_at word i }
{
    word ^ (word & bit(place))
}
