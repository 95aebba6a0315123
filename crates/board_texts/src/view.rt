//! The map of a board.

ghost use Rattle.std.specs.Prelude.{◌≡◌, ◌+◌, ◌-◌, ◌^◌, ◌<◌, ◌≤◌, [], ◌∷◌, IfOk, OnOk, ◌&&◌, not, cond};
ghost use Rattle.permission_map.specs.Runs.{view_of_runs};
ghost use Rattle.pmp_encoding.specs.declared.perm.Perm.TheVariants.{NoAccess};
ghost use Rattle.pmp_encoding.specs.Views.{SameView, in_range, overwritten};
ghost use Rattle.device_tree.specs.Meaning.{said_of};
ghost use Rattle.board_texts.specs.Pages.{pages_of, range_of};
ghost use Rattle.board_texts.specs.Views.{board_view, is_in, laid, nowhere, perm_of};

use crate::pages::pages_of;
use device_tree::{Found, Kind};
use permission_map::{MapFault, PermissionMap};
use pmp_encoding::{PageRange, Perm};
use std::alloc::Global;

/// A class of ranges with one permission.
#[derive(Clone, Copy)]
pub(crate) enum Layer {
    Devices,
    Ram,
    Denied,
}

/// No pages.
pub(crate) const NOWHERE: PageRange = PageRange { first: 0, count: 0 };

/// Returns whether ranges of the kind are in the layer.
fn is_in(layer: Layer, kind: Kind) -> bool
    ensures { result ≡ is_in layer kind }
{
    match (layer, kind) {
        (Layer::Devices, Kind::Device) => true,
        (Layer::Ram, Kind::Memory) => true,
        (Layer::Denied, Kind::Machine) => true,
        (Layer::Denied, Kind::Reserved) => true,
        _ => false,
    }
}

/// Returns the permission of a layer.
fn perm_of(layer: Layer) -> Perm
    ensures { result ≡ perm_of layer }
{
    match layer {
        Layer::Devices => Perm::ReadWrite,
        Layer::Ram => Perm::ReadWriteExecute,
        Layer::Denied => Perm::NoAccess,
    }
}

/// Sets the permission of the pages from `first` up to `end`.
fn set_span(map: &mut PermissionMap, first: u64, end: u64, perm: Perm) -> Result<(), MapFault>
    requires { end ≤ 2 ^ 44 }
    ensures { OnOk result (SameView (view_of_runs map.new)
        (overwritten (view_of_runs map.old) first (end - first) perm)) }
{
    if first >= end {
        return Ok(());
    }
    map.set_range(first, end - first, perm)
}

/// Sets the permission of pages outside `kept`.
fn set_apart(
    map: &mut PermissionMap,
    pages: PageRange,
    kept: PageRange,
    perm: Perm,
) -> Result<(), MapFault>
    requires pages { pages.first + pages.count ≤ 2 ^ 44 }
    requires kept { kept.first + kept.count < 2 ^ 64 }
    ensures { OnOk result (SameView (view_of_runs map.new) (λ page. cond
        (in_range pages.first pages.count page && not (in_range kept.first kept.count page)) perm
        (view_of_runs map.old page))) }
{
    let end = pages.first + pages.count;
    let behind = kept.first + kept.count;
    set_span(map, pages.first, end.min(kept.first), perm)?;
    set_span(map, pages.first.max(behind), end, perm)
}

/// Sets the permission of a range's pages outside `kept`, if it is in the layer.
fn lay_range<'a>(
    map: &mut PermissionMap,
    found: &Found<'a>,
    layer: Layer,
    kept: PageRange,
) -> Result<(), MapFault>
    requires { kept.first + kept.count < 2 ^ 64 }
    ensures { OnOk result (SameView (view_of_runs map.new)
        (laid layer kept (range_of found.now ∷ []) (view_of_runs map.old))) }
{
    if !is_in(layer, found.kind) {
        return Ok(());
    }
    set_apart(map, pages_of(found), kept, perm_of(layer))
}

/// Sets the permission of a layer on the pages of its ranges outside `kept`.
fn lay<'a>(
    map: &mut PermissionMap,
    found: &[Found<'a>],
    layer: Layer,
    kept: PageRange,
) -> Result<(), MapFault>
    requires { kept.first + kept.count < 2 ^ 64 }
    ensures { OnOk result (SameView (view_of_runs map.new)
        (laid layer kept (said_of found.now) (view_of_runs map.old))) }
{
    for one in found {
        match lay_range(map, one, layer, kept) {
            Ok(()) => {}
            Err(fault) => return Err(fault),
        }
    }
    Ok(())
}

/// Returns the map of a board. Pages in `kept` are not denied.
pub(crate) fn board_map<'a>(
    alloc: Global,
    found: &[Found<'a>],
    kept: PageRange,
) -> Result<PermissionMap, MapFault>
    requires { kept.first + kept.count < 2 ^ 64 }
    ensures { IfOk result (λ map. SameView (view_of_runs map)
        (board_view kept (said_of found.now))) }
{
    let mut map = PermissionMap::new(alloc);
    match lay(&mut map, found, Layer::Devices, NOWHERE) {
        Ok(()) => {}
        Err(fault) => return Err(fault),
    }
    match lay(&mut map, found, Layer::Ram, NOWHERE) {
        Ok(()) => {}
        Err(fault) => return Err(fault),
    }
    match lay(&mut map, found, Layer::Denied, kept) {
        Ok(()) => Ok(map),
        Err(fault) => Err(fault),
    }
}
