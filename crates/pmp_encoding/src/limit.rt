//! The number of PMP entries of a hart.

/// The number of entries of a bank: 16, the first ones of the privileged specification, or all 64.
#[derive(Clone, Copy, PartialEq, Eq, Debug)]
pub enum Limit {
    Sixteen,
    SixtyFour,
}

impl Limit {
    ghost use Rattle.std.specs.Prelude.{◌≡◌, ◌≢◌, ◌*◌, ◌/◌, ◌≤◌, IfSome, IfNone};
    ghost use Rattle.pmp_encoding.specs.declared.limit.Limit.{Limit};
    ghost use Rattle.pmp_encoding.specs.Limits.{limit_number};

    /// Returns the limit for this number of entries, or `None` unless it is 16 or 64.
    pub fn of(number: u32) -> Option<Limit>
        ensures some { IfSome result (λ limit. limit_number limit ≡ number) }
        ensures none { IfNone result ((limit : Limit) → limit_number limit ≢ number) }
    {
        match number {
            16 => Some(Limit::Sixteen),
            64 => Some(Limit::SixtyFour),
            _ => None,
        }
    }

    /// Returns the number of entries, 16 or 64.
    pub fn number(self) -> u32
        ensures value { result ≡ limit_number self }
        ensures most { result ≤ 64 }
    {
        match self {
            Limit::Sixteen => 16,
            Limit::SixtyFour => 64,
        }
    }

    /// Returns the number of configuration words of these entries on RV64, eight entries to a word: 2 or 8.
    pub fn words(self) -> usize
        ensures value { result ≡ limit_number self / 8 }
        ensures whole { result * 8 ≡ limit_number self }
        ensures most { result ≤ 8 }
    {
        match self {
            Limit::Sixteen => 2,
            Limit::SixtyFour => 8,
        }
    }
}
