//! Reasons to stop reading the parts of a certificate from a source.

use crate::refusal::CheckRefusal;
use certificate_format::ReadFault;

/// The reason to stop reading.
#[derive(Clone, Copy, PartialEq, Eq)]
pub(crate) enum Stop {
    /// A part is refused.
    Refused(CheckRefusal),
    /// The entries are not stored: an allocation failed, or the bytes exceeded the limit.
    Unheld,
}

impl From<CheckRefusal> for Stop {
    ghost use Rattle.std.specs.Prelude.{◌≡◌};
    ghost use Rattle.certificate_check.specs.declared.stop.Stop.TheVariants.{Refused};

    ghost from_gives = { λ refusal stop. stop ≡ Refused refusal };

    fn from(refusal: CheckRefusal) -> Stop {
        Stop::Refused(refusal)
    }
}

impl From<ReadFault> for Stop {
    ghost use Rattle.std.specs.Prelude.{◌≡◌};
    ghost use Rattle.certificate_check.specs.declared.stop.Stop.TheVariants.{Refused};
    ghost use Rattle.certificate_check.specs.Refusals.{refusal_of};

    ghost from_gives = { λ fault stop. stop ≡ Refused (refusal_of fault) };

    fn from(fault: ReadFault) -> Stop {
        Stop::Refused(CheckRefusal::from(fault))
    }
}
