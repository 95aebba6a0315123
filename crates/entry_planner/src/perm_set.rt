//! Sets of permissions.

use pmp_encoding::Perm;

/// A set of permissions: one of the six low bits for each, in the fixed order, with no access in bit 0.
#[derive(Clone, Copy)]
pub struct PermSet {
    pub bits: u8,
}

ghost use Rattle.std.specs.Prelude.{◌≡◌, ◌<◌, bit_and, bit_or, false, true, IfSome, IfNone, ◌==◌};
ghost use Rattle.pmp_encoding.specs.declared.perm.Perm.{Perm};
ghost use Rattle.pmp_encoding.specs.Perms.{index_of, perm_eq};
ghost use Rattle.entry_planner.specs.PermSets.{has, set_of};

/// The set of each single permission, in the fixed order.
static ONLY: [u8; 6] = [0x01, 0x02, 0x04, 0x08, 0x10, 0x20];

impl PermSet {
    /// Returns the set of one permission.
    pub fn only(perm: Perm) -> PermSet
        ensures { result.bits ≡ set_of (perm_eq perm) }
    {
        PermSet {
            bits: ONLY[perm.index()],
        }
    }

    /// Returns the permissions that are in both sets.
    pub fn intersection(self, other: PermSet) -> PermSet
        ensures { result.bits ≡ bit_and self.bits other.bits }
    {
        PermSet {
            bits: self.bits & other.bits,
        }
    }

    /// Returns the permissions that are in either set.
    pub fn union(self, other: PermSet) -> PermSet
        ensures { result.bits ≡ bit_or self.bits other.bits }
    {
        PermSet {
            bits: self.bits | other.bits,
        }
    }

    pub fn contains(self, perm: Perm) -> bool
        ensures { result ≡ has self.bits perm }
    {
        (self.bits >> perm.index()) & 1 == 1
    }

    pub fn is_empty(self) -> bool
        ensures { result ≡ (self.bits == 0) }
    {
        self.bits == 0
    }

    /// Returns the first permission of the set in the fixed order.
    pub fn first(self) -> Option<Perm>
        ensures some { IfSome result (λ p. has self.bits p ≡ true) }
        ensures first { IfSome result (λ p.
            (q : Perm) → index_of q < index_of p → has self.bits q ≡ false) }
        ensures none { IfNone result ((q : Perm) → has self.bits q ≡ false) }
    {
        if self.contains(Perm::NoAccess) {
            Some(Perm::NoAccess)
        } else if self.contains(Perm::Read) {
            Some(Perm::Read)
        } else if self.contains(Perm::ReadWrite) {
            Some(Perm::ReadWrite)
        } else if self.contains(Perm::Execute) {
            Some(Perm::Execute)
        } else if self.contains(Perm::ReadExecute) {
            Some(Perm::ReadExecute)
        } else if self.contains(Perm::ReadWriteExecute) {
            Some(Perm::ReadWriteExecute)
        } else {
            None
        }
    }
}
