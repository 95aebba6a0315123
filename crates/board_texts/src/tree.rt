//! Recognition of flattened device trees.

ghost use Rattle.std.specs.Prelude.{◌≡◌};
ghost use Rattle.board_texts.specs.Boards.{is_tree};

/// Returns whether bytes begin with the magic number of a flattened device tree.
pub fn is_tree(bytes: &[u8]) -> bool
    ensures { result ≡ is_tree bytes.now }
{
    bytes.len() >= 4 && &bytes[..4] == [0xd0, 0x0d, 0xfe, 0xed].as_slice()
}
