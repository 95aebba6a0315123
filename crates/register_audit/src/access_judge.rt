//! Judges the accesses of a trace by rules.

use crate::rules::Rules;
use hart_trace::AccessJudge;
use pmp_match::{Access, Cause, Decider, Deciders};

impl AccessJudge for Rules {
    ghost use Rattle.register_audit.specs.Answers.{by_registers};

    ghost outcomes = { by_registers };

    fn outcome(&self, access: &Access) -> Result<(), Cause> {
        self.judge(access)
    }
}

impl Deciders for Rules {
    ghost use Rattle.register_audit.specs.Deciders.{by_entry};

    ghost decides = { by_entry };

    fn decider(&self, access: &Access) -> Option<Decider> {
        self.first_met(access)
    }
}
