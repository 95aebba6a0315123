//! The numbers of cells of addresses and sizes on a bus.

ghost use Rattle.std.specs.Prelude.{◌≤◌};

/// The number of four-byte cells of an address and of a size on a bus.
#[derive(Clone, Copy)]
pub struct Cells {
    pub address: usize,
    pub size: usize,
    pub ghost address_few: { address ≤ 4 },
    pub ghost size_few: { size ≤ 4 },
}

impl Cells {
    ghost use Rattle.std.specs.Prelude.{◌≡◌};
    ghost use Rattle.device_tree.specs.Cells.{row_len};

    /// Returns the number of bytes of an address and a size.
    pub(crate) fn row_len(&self) -> usize
        ensures { result ≡ row_len self.now }
    {
        4 * (self.address + self.size)
    }
}
