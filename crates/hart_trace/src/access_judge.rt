//! A trait for judges of accesses.

ghost use Rattle.std.specs.Prelude.{Result};
ghost use Rattle.pmp_match.specs.declared.access.Access.{Access};
ghost use Rattle.pmp_match.specs.declared.cause.Cause.{Cause};

use pmp_match::{Access, Cause, Segments};

/// A judge of accesses: the registers of a hart in some form.
pub trait AccessJudge {
    /// The outcome of each access.
    ghost outcomes: { Self → Access → Result (Unit {0}) Cause → Type 0 };

    /// Returns the outcome of the access.
    fn outcome(&self, access: &Access) -> Result<(), Cause>
        ensures { outcomes self.now access.now result };
}

impl AccessJudge for Segments<'_> {
    ghost use Rattle.pmp_match.specs.SegmentedBank.{bank_of};
    ghost use Rattle.hart_trace.specs.Answers.{by_list};

    ghost outcomes = { λ segments. by_list (bank_of segments) };

    #[inline(always)]
    fn outcome(&self, access: &Access) -> Result<(), Cause> {
        self.judge(access)
    }
}
