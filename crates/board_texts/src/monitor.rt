//! Finds the monitor's range in a tree.

ghost use Rattle.std.specs.Prelude.{◌≡◌, ◌+◌, ◌^◌, ◌≤◌, IfSome};
ghost use Rattle.std.specs.List.{list_any};
ghost use Rattle.device_tree.specs.Meaning.{said_of};
ghost use Rattle.board_texts.specs.Monitors.{begins_in, has_byte, is_memory, is_reserved, monitor_in};

use crate::pages::outer;
use device_tree::{Extent, Found, Kind};
use pmp_encoding::PageRange;

/// Returns whether the extent contains the byte.
fn has_byte(extent: Extent, at: u64) -> bool
    ensures { result ≡ has_byte extent at }
{
    extent.base <= at && at - extent.base < extent.size
}

fn is_memory(kind: Kind) -> bool
    ensures { result ≡ is_memory kind }
{
    match kind {
        Kind::Memory => true,
        _ => false,
    }
}

fn is_reserved(kind: Kind) -> bool
    ensures { result ≡ is_reserved kind }
{
    match kind {
        Kind::Reserved => true,
        _ => false,
    }
}

/// Returns whether the start of a range of memory is inside the extent.
fn memory_begins_in<'a>(found: &[Found<'a>], extent: Extent) -> bool
    ensures { result ≡ list_any (begins_in extent) (said_of found.now) }
{
    for one in found {
        if is_memory(one.kind) && has_byte(extent, one.extent.base) {
            return true;
        }
    }
    false
}

/// Returns the pages of the first reserved range that contains the start of a range of memory.
pub(crate) fn monitor_in<'a>(found: &[Found<'a>]) -> Option<PageRange>
    ensures value { result ≡ monitor_in (said_of found.now) (said_of found.now) }
    ensures inside { IfSome result (λ pages. pages.first + pages.count ≤ 2 ^ 44) }
{
    for one in found {
        if is_reserved(one.kind) && memory_begins_in(found, one.extent) {
            return Some(outer(one.extent));
        }
    }
    None
}
