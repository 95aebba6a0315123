//! A run: consecutive pages with one permission.

use pmp_encoding::Perm;

/// Consecutive pages with one permission. A page's number is its address divided by 4096.
#[derive(Clone, Copy, PartialEq, Eq, Debug)]
pub struct Run {
    /// The number of the first page.
    pub first: u64,
    /// The number of pages.
    pub count: u64,
    /// The permission of supervisor and user mode.
    pub perm: Perm,
}

impl Run {
    ghost use Rattle.std.specs.Prelude.{◌≡◌, nat_le, nat_lt};
    ghost use Rattle.permission_map.specs.Runs.{end_of};

    /// Returns whether the run ends at or before the page.
    pub(crate) fn is_over(&self, page: u64) -> bool
        ensures { result ≡ nat_le (end_of self.now) page }
    {
        self.first <= page && self.count <= page - self.first
    }

    /// Returns whether the run ends before the page without touching it.
    pub(crate) fn is_clear_of(&self, page: u64) -> bool
        ensures { result ≡ nat_lt (end_of self.now) page }
    {
        self.first < page && self.count < page - self.first
    }
}
