//! The table of DMA-capable devices and their addresses on known boards.

ghost use Rattle.std.specs.Prelude.{◌≡◌};
ghost use Rattle.input_files.specs.Masters.{masters};

/// A board whose addresses are known.
#[derive(Clone, Copy)]
pub enum KnownBoard {
    /// QEMU's virt board.
    Virt,
    /// SiFive's FU540 and FU740.
    Sifive,
    /// SiFive's FU740 only.
    Fu740,
}

impl KnownBoard {
    /// Returns the name of the board.
    pub fn name(self) -> &'static str {
        match self {
            KnownBoard::Virt => "QEMU's virt board",
            KnownBoard::Sifive => "SiFive's FU540 and FU740",
            KnownBoard::Fu740 => "SiFive's FU740",
        }
    }
}

/// A kind of DMA-capable device.
#[derive(Clone, Copy)]
pub enum MasterKind {
    /// Virtio slots.
    Virtio,
    /// QEMU's firmware configuration.
    FwCfg,
    /// A PCI Express host bridge.
    Pcie,
    /// A DMA controller.
    Dma,
    /// A network controller.
    Ethernet,
}

impl MasterKind {
    /// Returns the name of the kind.
    pub fn name(self) -> &'static str {
        match self {
            MasterKind::Virtio => "virtio",
            MasterKind::FwCfg => "fw_cfg",
            MasterKind::Pcie => "PCIe",
            MasterKind::Dma => "the DMA controller",
            MasterKind::Ethernet => "Ethernet",
        }
    }
}

/// A DMA-capable device of a board, with its pages.
#[derive(Clone, Copy)]
pub struct Master {
    /// The board.
    pub board: KnownBoard,
    /// The kind of device.
    pub kind: MasterKind,
    /// The first byte of its pages.
    pub first: u64,
    /// The last byte of its pages.
    pub last: u64,
}

/// All known devices.
const MASTERS: [Master; 12] = [
    Master {
        board: KnownBoard::Virt,
        kind: MasterKind::Pcie,
        first: 0x300_0000,
        last: 0x300_ffff,
    },
    Master {
        board: KnownBoard::Virt,
        kind: MasterKind::Virtio,
        first: 0x1000_1000,
        last: 0x1000_8fff,
    },
    Master {
        board: KnownBoard::Virt,
        kind: MasterKind::FwCfg,
        first: 0x1010_0000,
        last: 0x1010_0fff,
    },
    Master {
        board: KnownBoard::Virt,
        kind: MasterKind::Pcie,
        first: 0x3000_0000,
        last: 0x3fff_ffff,
    },
    Master {
        board: KnownBoard::Virt,
        kind: MasterKind::Pcie,
        first: 0x4000_0000,
        last: 0x7fff_ffff,
    },
    Master {
        board: KnownBoard::Virt,
        kind: MasterKind::Pcie,
        first: 0x4_0000_0000,
        last: 0x7_ffff_ffff,
    },
    Master {
        board: KnownBoard::Sifive,
        kind: MasterKind::Dma,
        first: 0x300_0000,
        last: 0x30f_ffff,
    },
    Master {
        board: KnownBoard::Sifive,
        kind: MasterKind::Ethernet,
        first: 0x1009_0000,
        last: 0x1009_1fff,
    },
    Master {
        board: KnownBoard::Fu740,
        kind: MasterKind::Pcie,
        first: 0x6008_0000,
        last: 0x70ff_ffff,
    },
    Master {
        board: KnownBoard::Fu740,
        kind: MasterKind::Pcie,
        first: 0xd_f000_0000,
        last: 0xd_ffff_ffff,
    },
    Master {
        board: KnownBoard::Fu740,
        kind: MasterKind::Pcie,
        first: 0xe_0000_0000,
        last: 0xe_7fff_ffff,
    },
    Master {
        board: KnownBoard::Fu740,
        kind: MasterKind::Pcie,
        first: 0x20_0000_0000,
        last: 0x3f_ffff_ffff,
    },
];

/// Returns all known DMA-capable devices, board by board.
pub(crate) fn masters() -> &'static [Master]
    ensures { result.now ≡ masters }
{
    &MASTERS
}
