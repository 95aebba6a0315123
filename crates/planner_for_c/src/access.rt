//! Accesses in C's layout.

ghost use Rattle.std.specs.Prelude.{◌≡◌, ◌≢◌, IfNone, IfSome};
ghost use Rattle.pmp_match.specs.declared.access.Access.{Access};
ghost use Rattle.pmp_match.specs.declared.access.Kind.{Kind};
ghost use Rattle.pmp_match.specs.declared.access.Mode.{Mode};
ghost use Rattle.planner_for_c.specs.Accesses.{Says, kind_number, mode_number};

use pmp_match::{Access, Kind, Mode};

/// An access of `size` bytes from an address on.
#[repr(C)]
#[derive(Clone, Copy)]
pub struct AccessWords {
    /// User is 0, supervisor 1, machine 3.
    pub mode: u64,
    /// 1 for a load, 2 for a store, 4 for a fetch: the bit of the permission that it requires.
    pub kind: u64,
    /// 1, 2, 4 or 8; for a fetch 2 or 4.
    pub size: u64,
    /// The lowest address.
    pub address: u64,
}

fn mode_of(number: u64) -> Option<Mode>
    ensures some { IfSome result (λ mode. mode_number mode ≡ number) }
    ensures none { IfNone result ((mode : Mode) → mode_number mode ≢ number) }
{
    match number {
        0 => Some(Mode::User),
        1 => Some(Mode::Supervisor),
        3 => Some(Mode::Machine),
        _ => None,
    }
}

fn kind_of(number: u64) -> Option<Kind>
    ensures some { IfSome result (λ kind. kind_number kind ≡ number) }
    ensures none { IfNone result ((kind : Kind) → kind_number kind ≢ number) }
{
    match number {
        1 => Some(Kind::Load),
        2 => Some(Kind::Store),
        4 => Some(Kind::Fetch),
        _ => None,
    }
}

impl AccessWords {
    /// Decodes the access, if the words are valid.
    pub(crate) fn access(&self) -> Option<Access>
        ensures some { IfSome result (Says self.now) }
        ensures none { IfNone result ((access : Access) → ¬ Says self.now access) }
    {
        let mode = mode_of(self.mode)?;
        let kind = kind_of(self.kind)?;
        if self.size > 8 {
            return None;
        }
        Access::new(mode, kind, self.size as u8, self.address)
    }
}
