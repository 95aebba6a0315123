//! The kinds of files.

/// A kind of file.
#[derive(Clone, Copy, PartialEq, Eq, Debug)]
pub enum FileKind {
    /// A map.
    Map,
    /// A platform.
    Platform,
    /// A listing of registers.
    Listing,
    /// A trace.
    Trace,
    /// A flattened device tree.
    Tree,
    /// The source of a device tree.
    TreeSource,
    /// A certificate.
    Certificate,
    /// An ELF file.
    Elf,
}

impl FileKind {
    /// Returns the text that names the kind and the commands that take such a file.
    pub fn text(self) -> &'static str {
        match self {
            FileKind::Map => "this is a map; plan, show and judge take it",
            FileKind::Platform => {
                "this is a platform; run takes it, and lint if its name ends in .toml"
            }
            FileKind::Listing => {
                "this is a listing of registers; audit, map and 'lint --registers' take it"
            }
            FileKind::Trace => "this is a trace; judge, run and 'lint --trace' take it",
            FileKind::Tree => "this is a device tree; map and platform take it",
            FileKind::TreeSource => {
                "this is the source of a device tree; map and platform take the tree that dtc makes of it"
            }
            FileKind::Certificate => "this is a certificate; check takes it",
            FileKind::Elf => {
                "this is an ELF file; measure takes the bytes that 'objcopy -O binary' makes of it"
            }
        }
    }
}
