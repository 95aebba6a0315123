//! The platform of a board as text.

ghost use Rattle.std.specs.Prelude.{◌≡◌, ◌≢◌, ◌+◌, ◌*◌, ◌^◌, ◌<◌, ◌≤◌, ℕ, List, Option, IfErr, IfOk, OnOk, None, Some, Err};
ghost use Rattle.permission_map.specs.Runs.{AreRuns, end_of, view_of_runs};
ghost use Rattle.device_tree.specs.declared.reservations.Reservation.{Reservation};
ghost use Rattle.device_tree.specs.Pieces.{parts_of};
ghost use Rattle.device_tree.specs.Nodes.{Tree, parts_of_tree};
ghost use Rattle.device_tree.specs.Places.{ArePlaced, Block};
ghost use Rattle.device_tree.specs.Meaning.{Range, TreeSays, said_of};
ghost use Rattle.board_texts.specs.Monitors.{monitor_of};
ghost use Rattle.board_texts.specs.Platforms.{IsBoardPlatform, IsBoardRefusal, IsMapRefusal, IsNoPlatform, IsPlatformOfTree, IsTreeRefusal, IsRuleBroken, board_platform_text, built, devices_of, harts_used, layout_of, pages_of_bytes, ram_of};
ghost use Rattle.board_texts.specs.Views.{board_view};
ghost use Rattle.pmp_encoding.specs.Views.{SameView};
ghost use Rattle.input_files.specs.Document.{Builds, IsPlatformFile};
ghost use Rattle.pmp_encoding.specs.declared.perm.Perm.TheVariants.{ReadWrite};

use crate::comments::gives;
use crate::fault::BoardTextFault;
use crate::harts::harts_used;
use crate::monitor::monitor_in;
use crate::platform_lines::platform_lines;
use crate::read_back::is_platform;
use crate::view::board_map;
use device_tree::{Found, Kind, PlacedPiece, Reservation, ranges_of, read_tree};
use permission_map::{MapFault, PermissionMap, Run};
use platforms::{Platform, PlatformFault};
use pmp_encoding::{PAGE_SIZE, PageRange, Perm};
use std::alloc::{AllocError, Global};

/// Returns the monitor's base and size: the given ones, otherwise those from the tree.
fn monitor_of<'a>(given: Option<(u64, u64)>, found: &[Found<'a>]) -> Option<(u64, u64)>
    ensures { result ≡ monitor_of given (said_of found.now) }
{
    if given.is_some() {
        return given;
    }
    let pages = monitor_in(found)?;
    Some((PAGE_SIZE * pages.first, PAGE_SIZE * pages.count))
}

/// Returns the base and the size of a run in bytes.
fn bytes_of(run: &Run) -> (u64, u64)
    requires { end_of run.now ≤ 2 ^ 44 }
    ensures { result ≡ (4096 * run.now.first, 4096 * run.now.count) }
{
    (PAGE_SIZE * run.first, PAGE_SIZE * run.count)
}

/// Returns the device that a run represents.
fn device_of(run: &Run) -> (u64, u64, Perm)
    requires { end_of run.now ≤ 2 ^ 44 }
    ensures { result ≡ (4096 * run.now.first, 4096 * run.now.count, ReadWrite) }
{
    (
        PAGE_SIZE * run.first,
        PAGE_SIZE * run.count,
        Perm::ReadWrite,
    )
}

/// Returns the ranges of memory among the runs of a map.
fn ram_of(alloc: Global, map: &PermissionMap) -> Result<Vec<(u64, u64)>, AllocError>
    ensures { IfOk result (λ ram. ram.items ≡ ram_of map.now) }
{
    let mut ram = Vec::new(alloc);
    for run in map.ranges() {
        if gives(Kind::Memory, run.perm) {
            ram.push(bytes_of(run))?;
        }
    }
    Ok(ram)
}

/// Returns the devices among the runs of a map.
fn devices_of(alloc: Global, map: &PermissionMap) -> Result<Vec<(u64, u64, Perm)>, AllocError>
    ensures { IfOk result (λ devices. devices.items ≡ devices_of map.now) }
{
    let mut devices = Vec::new(alloc);
    for run in map.ranges() {
        if gives(Kind::Device, run.perm) {
            devices.push(device_of(run))?;
        }
    }
    Ok(devices)
}

/// Returns whether the ranges and harts form a platform.
fn builds(
    monitor: (u64, u64),
    ram: &[(u64, u64)],
    devices: &[(u64, u64, Perm)],
    harts: u8,
) -> Result<(), PlatformFault>
    requires { harts ≤ 4 }
    ensures ok { OnOk result (Builds monitor ram.now devices.now harts 16
        (built monitor ram.now devices.now harts)) }
    ensures refused { IfErr result (λ fault.
        IsRuleBroken monitor ram.now devices.now harts fault) }
{
    let bare = match Platform::new(monitor, ram, devices) {
        Ok(bare) => bare,
        Err(fault) => return Err(fault),
    };
    match bare.with_harts(harts) {
        Ok(_) => Ok(()),
        Err(fault) => Err(fault),
    }
}

/// Returns the text of the platform of a map, if its ranges form one.
fn platform_of_map<'a>(
    alloc: Global,
    given: Option<(u64, u64)>,
    monitor: (u64, u64),
    board: (&PermissionMap, &[Found<'a>], &[Reservation]),
) -> Result<Vec<u8>, BoardTextFault>
    ensures text { IfOk result (λ text. text.items ≡ board_platform_text given monitor
        (said_of board.entry.1.now) board.entry.2.now board.entry.0.now) }
    ensures file { IfOk result (λ text. IsPlatformFile text.items
        (layout_of (said_of board.entry.1.now) board.entry.0.now monitor)) }
    ensures refused { IfErr result (IsMapRefusal monitor (said_of board.entry.1.now)
        board.entry.0.now) }
{
    let (map, found, _) = board;
    let Ok(ram) = ram_of(alloc, map) else {
        return Err(BoardTextFault::Memory);
    };
    let Ok(devices) = devices_of(alloc, map) else {
        return Err(BoardTextFault::Memory);
    };
    let harts = harts_used(found);
    match builds(monitor, ram.as_slice(), devices.as_slice(), harts) {
        Ok(()) => {}
        Err(fault) => return Err(BoardTextFault::Rule(fault)),
    }
    let Ok(text) = platform_lines(alloc, given, monitor, board) else {
        return Err(BoardTextFault::Memory);
    };
    let numbers = (monitor, u64::from(harts));
    match is_platform(
        alloc,
        text.as_slice(),
        numbers,
        ram.as_slice(),
        devices.as_slice(),
    ) {
        Ok(true) => Ok(text),
        Ok(false) => Err(BoardTextFault::NotReadBack),
        Err(_) => Err(BoardTextFault::Memory),
    }
}

/// Returns the map of a board. Pages of the monitor are not denied.
fn kept_map<'a>(
    alloc: Global,
    found: &[Found<'a>],
    monitor: (u64, u64),
) -> Result<PermissionMap, MapFault>
    ensures runs { IfOk result (λ map. AreRuns map) }
    ensures view { IfOk result (λ map. SameView (view_of_runs map)
        (board_view (pages_of_bytes monitor) (said_of found.now))) }
{
    let kept = PageRange::of_bytes(monitor.0, monitor.1);
    match board_map(alloc, found, kept) {
        Ok(map) => {
            let _runs = map.ranges();
            Ok(map)
        }
        Err(fault) => Err(fault),
    }
}

/// Returns the platform of a board as text.
fn platform_of_board<'a>(
    alloc: Global,
    given: Option<(u64, u64)>,
    found: &[Found<'a>],
    reservations: &[Reservation],
) -> Result<Vec<u8>, BoardTextFault>
    ensures ok { IfOk result (λ text.
        IsBoardPlatform given (said_of found.now) reservations.now text.items) }
    ensures refused { IfErr result (IsBoardRefusal given (said_of found.now)) }
{
    let Some(monitor) = monitor_of(given, found) else {
        return Err(BoardTextFault::NoMonitor);
    };
    let map = match kept_map(alloc, found, monitor) {
        Ok(map) => map,
        Err(MapFault::Memory) => return Err(BoardTextFault::Memory),
        Err(_) => return Err(BoardTextFault::TooManyRanges),
    };
    match platform_of_map(alloc, given, monitor, (&map, found, reservations)) {
        Ok(text) => Ok(text),
        Err(fault) => Err(fault),
    }
}

/// Returns the platform of the board whose tree has these pieces, as text.
fn platform_of_pieces<'a>(
    alloc: Global,
    given: Option<(u64, u64)>,
    pieces: &'a [PlacedPiece<'a>],
    reservations: &[Reservation],
) -> Result<Vec<u8>, BoardTextFault>
    ensures ok { IfOk result (λ text. (tree : Tree) → parts_of pieces.now ≡ parts_of_tree tree
        → (ranges : List Range) × TreeSays tree ranges
        × IsBoardPlatform given ranges reservations.now text.items) }
    ensures refused { IfErr result (λ fault. (block : Block) (tree : Tree)
        → parts_of pieces.now ≡ parts_of_tree tree → ArePlaced block pieces.now
        → IsTreeRefusal given block tree fault) }
{
    let found = match ranges_of(alloc, pieces) {
        Ok(found) => found,
        Err(fault) => return Err(BoardTextFault::Ranges(fault)),
    };
    match platform_of_board(alloc, given, found.as_slice(), reservations) {
        Ok(text) => Ok(text),
        Err(fault) => Err(fault),
    }
}

/// Returns the platform of a board as text, given bytes that begin with its flattened device tree. The monitor's base
/// and size are the given ones, or those of the first reserved-memory node that contains the start of memory.
///
/// Fails if the bytes do not begin with a tree, if the tree gives no valid ranges or no location of the monitor, if the
/// ranges and harts break a rule on platforms, or if an allocation fails.
pub fn platform_text_of(
    alloc: Global,
    bytes: &[u8],
    given: Option<(u64, u64)>,
) -> Result<Vec<u8>, BoardTextFault>
    ensures ok { IfOk result (λ text. IsPlatformOfTree given bytes.now text.items) }
    ensures refused { IfErr result (IsNoPlatform given bytes.now) }
{
    let tree = match read_tree(alloc, bytes) {
        Ok(tree) => tree,
        Err(fault) => return Err(BoardTextFault::Tree(fault)),
    };
    let pieces = tree.pieces.as_slice();
    match platform_of_pieces(alloc, given, pieces, tree.reservations.as_slice()) {
        Ok(text) => Ok(text),
        Err(fault) => Err(fault),
    }
}
