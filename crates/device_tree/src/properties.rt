//! Values of the properties of a node.

ghost use Rattle.std.specs.Prelude.{◌≡◌, ℕ, List, Option, option_map, codes};
ghost use Rattle.device_tree.specs.Pieces.{parts_of};
ghost use Rattle.device_tree.specs.Properties.{cells_in, is_okay, is_okay_value, value_in};

use crate::{Piece, PlacedPiece};
use byteorder::{BigEndian, ByteOrder};

/// Returns the value of the first property with the name.
pub fn value_of<'a>(properties: &'a [PlacedPiece<'a>], wanted: &[u8]) -> Option<&'a [u8]>
    ensures { option_map (λ value. value.now) result
        ≡ value_in wanted.now (parts_of properties.now) }
{
    for placed in properties {
        if let Piece::Has(name, value) = placed.piece {
            if name == wanted {
                return Some(value);
            }
        }
    }
    None
}

/// Returns the number of cells in a value, or `default` if there is no value.
pub(crate) fn cells_in(value: Option<&[u8]>, default: usize) -> Option<usize>
    ensures { result ≡ cells_in default (option_map (λ bytes. bytes.now) value.entry) }
{
    let Some(bytes) = value else {
        return Some(default);
    };
    if bytes.len() != 4 {
        return None;
    }
    let cells = BigEndian::read_u32(bytes) as usize;
    if cells > 4 {
        return None;
    }
    Some(cells)
}

/// Returns whether a `status` means that the node is enabled.
fn is_okay_value(status: Option<&[u8]>) -> bool
    ensures { result ≡ is_okay_value (option_map (λ bytes. bytes.now) status.entry) }
{
    match status {
        Some(status) => {
            (status == b"okay\0".as_slice() || status == b"okay".as_slice())
                || (status == b"ok\0".as_slice() || status == b"ok".as_slice())
        }
        None => true,
    }
}

/// Returns whether the node is enabled.
pub(crate) fn is_okay<'a>(properties: &'a [PlacedPiece<'a>]) -> bool
    ensures { result ≡ is_okay (parts_of properties.now) }
{
    is_okay_value(value_of(properties, b"status".as_slice()))
}
