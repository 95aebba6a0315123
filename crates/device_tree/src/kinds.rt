//! Kinds of ranges, and places of nodes.

/// The kind of a range of addresses.
#[derive(Clone, Copy, Debug, PartialEq, Eq)]
pub enum Kind {
    /// Memory.
    Memory,
    /// Registers of a device.
    Device,
    /// Registers of a device that belongs to machine mode: a timer or a source of software interrupts of harts, or an
    /// interrupt controller of machine mode.
    Machine,
    /// Memory that must not be mapped.
    Reserved,
    /// A hart: its `reg` contains its number, with a size of zero cells.
    Hart,
    /// Registers at addresses that some bus does not translate to the root.
    Untranslated,
}

/// The place of a node.
#[derive(Clone, Copy)]
pub enum Place {
    /// A child of the root.
    BelowRoot,
    /// A child of `/reserved-memory`.
    InReserved,
    /// On an enabled bus whose addresses are translated to the root.
    OnBus,
    /// On any other bus.
    Elsewhere,
}
