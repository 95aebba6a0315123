//! Reasons why bytes are not a flattened device tree.

/// The reason why bytes are not a flattened device tree that this crate accepts.
#[derive(Clone, Copy, Debug, PartialEq, Eq)]
pub enum TreeReason {
    /// There are fewer than forty bytes, according to the slice or to the header.
    ShortHeader,
    /// The first four bytes are not d0 0d fe ed.
    BadMagic,
    /// The header's total size exceeds the number of bytes.
    BadSize,
    /// The version is below 17.
    OldVersion,
    /// The last compatible version is above 17.
    NewVersion,
    /// The structure block is not inside the tree, or its offset is not a multiple of four.
    BadStructureBlock,
    /// The strings block is not inside the tree.
    BadStringsBlock,
    /// The memory reservation block is not inside the tree, or its offset is not a multiple of eight.
    BadReservationBlock,
    /// The memory reservations lack the pair of zeros at the end.
    UnendedReservations,
    /// Fewer than four bytes are left for a token.
    NoToken,
    /// The token is not one of the five.
    UnknownToken,
    /// The name of a node lacks its final zero byte.
    UnendedName,
    /// A name or a value extends past the structure block.
    PastBlock,
    /// The name of a property in the strings block lacks its final zero byte.
    NoPropertyName,
    /// Bytes follow the end token.
    BytesBehindEnd,
    /// Nodes are nested more than 64 levels deep.
    TooDeep,
    /// A property follows a child of its node.
    LateProperty,
    /// A node does not end.
    UnendedNode,
    /// The pieces do not begin with a node whose name is empty.
    NoRoot,
    /// A piece follows the end of the root.
    PieceBehindRoot,
    /// An allocation failed.
    Memory,
}

/// A reason, and the offset of the byte in the tree at which it occurs.
#[derive(Clone, Copy, Debug, PartialEq, Eq)]
pub struct TreeFault {
    pub reason: TreeReason,
    pub offset: usize,
}
