//! The entry that decides an access.

ghost use Rattle.std.specs.Prelude.{◌≡◌, ◌+◌, ◌^◌, ◌<◌, Option};
ghost use Rattle.pmp_match.specs.declared.access.Access.{Access};
ghost use Rattle.pmp_match.specs.Matching.{touches};
ghost use Rattle.pmp_match.specs.declared.deciders.Decider.{Decider};
ghost use Rattle.pmp_match.specs.Deciders.{found_from};

use crate::access::Access;
use crate::judgement::touches;
use pmp_encoding::{Bank, Extent};

/// The entry that decides an access.
#[derive(Clone, Copy)]
pub struct Decider {
    /// The entry's number, from 0.
    pub number: usize,
    /// The addresses that the entry matches, and its permission.
    pub extent: Extent,
}

/// An ordered list of entries. The first one that matches a byte of an access decides it.
pub trait Deciders {
    /// The entry that decides an access, or none.
    ghost decides: { Self → Access → Option Decider → Type 0 };

    /// Returns the entry that decides the access, if one does.
    fn decider(&self, access: &Access) -> Option<Decider>
        requires { access.now.address < 2 ^ 56 }
        ensures { decides self.now access.now result };
}

/// Returns the first extent that contains a byte of the access.
fn first_of(extents: &[Extent], access: &Access) -> Option<Decider>
    requires { access.now.address < 2 ^ 56 }
    ensures { result ≡ found_from 0 extents.now access.now }
{
    for (number, extent) in extents.iter().enumerate() {
        if touches(extent, access) {
            return Some(Decider {
                number,
                extent: *extent,
            });
        }
    }
    None
}

impl Deciders for Bank {
    ghost use Rattle.pmp_match.specs.Deciders.{by_first};

    ghost decides = { by_first };

    fn decider(&self, access: &Access) -> Option<Decider> {
        first_of(self.extents(), access)
    }
}
