//! The translation of addresses of a bus to those of the root.

ghost use Rattle.std.specs.Prelude.{◌≡◌, ◌+◌, ◌*◌, ◌<◌, ◌≤◌, ◌^◌, ℕ, false, [], ◌∷◌, None, Some, ⊤, IfErr, IfOk, IfSome, MatchOption, OnOk, length, drop};
ghost use Rattle.device_tree.specs.declared.ways.Window.{Window};
ghost use Rattle.device_tree.specs.Cells.{number_of};
ghost use Rattle.device_tree.specs.BoardRefusals.{IsLargeWindow, IsWindowFault};
ghost use Rattle.device_tree.specs.Windows.{AreWindows, IsStep, at_root, has_address, parent_address, path_of, root_address, window_len};

use crate::bytes::{after, number_of};
use crate::cells::Cells;
use crate::rows::{Extent, RowFault};
use std::alloc::Global;
use std::rc::Rc;

/// A row of `ranges`: the first address on the bus, that on its parent, and the size.
#[derive(Clone, Copy)]
pub struct Window {
    pub child: u64,
    pub parent: u64,
    pub size: u64,
}

/// The translation of the addresses of a bus to those of the root.
#[derive(Drop)]
pub enum Way {
    /// The addresses are those of the root.
    Same,
    /// The windows of the bus, and the translation of its parent's addresses.
    Bus(Rc<(Vec<Window>, Way)>),
}

/// A part of a row of registers: its address on the bus, its size, and its address at the root, if it has one.
#[derive(Clone, Copy)]
pub struct RowPart {
    pub base: u64,
    pub size: u64,
    pub root: Option<u64>,
}

/// An address at the root, if there is one, and the number of consecutive bytes that are translated alike.
#[derive(Clone, Copy)]
pub struct Step {
    pub root: Option<u64>,
    pub len: u64,
}

/// Translates an address of the bus to its parent by one window.
fn translated(window: &Window, address: u64) -> Option<Step>
    ensures here { IfSome result (λ step.
        IsStep (parent_address (window.now ∷ [])) address step) }
    ensures some { IfSome result (λ step. (parent : ℕ) × (step.root ≡ Some parent)) }
    ensures none { result ≡ None → has_address window.now address ≡ false }
{
    if address < window.child || address - window.child >= window.size {
        return None;
    }
    let offset = address - window.child;
    if offset > u64::MAX - window.parent {
        return None;
    }
    let parent = window.parent + offset;
    let len = (window.size - offset).min((u64::MAX - parent).saturating_add(1));
    Some(Step {
        root: Some(parent),
        len,
    })
}

/// Returns a number of bytes from the address on, none of which the window translates.
fn gap_before(window: &Window, address: u64) -> u64
    requires { has_address window.now address ≡ false }
    ensures some { 0 < result }
    ensures none { (k : ℕ) → k < result → has_address window.now (address + k) ≡ false }
{
    if window.child > address {
        return window.child - address;
    }
    u64::MAX
}

/// Translates an address of the bus to its parent.
fn step_to_parent(windows: &[Window], address: u64) -> Step
    ensures { IsStep (parent_address windows.now) address result }
{
    let mut len = u64::MAX;
    for window in windows {
        match translated(window, address) {
            Some(step) => {
                return Step {
                    root: step.root,
                    len: len.min(step.len),
                };
            }
            None => len = len.min(gap_before(window, address)),
        }
    }
    Step { root: None, len }
}

impl Way {
    /// Translates an address of the bus to the root.
    pub(crate) fn step(&self, address: u64) -> Step
        ensures { IsStep (root_address (path_of self.now)) address result }
    {
        match self {
            Way::Same => Step {
                root: Some(address),
                len: u64::MAX,
            },
            Way::Bus(bus) => {
                let near = step_to_parent(bus.0.as_slice(), address);
                let Some(parent) = near.root else {
                    return near;
                };
                let far = bus.1.step(parent);
                Step {
                    root: far.root,
                    len: near.len.min(far.len),
                }
            }
        }
    }
}

/// Reads the first row of `ranges`, if its numbers have at most 64 bits.
fn window_in(bytes: &[u8], cells: &Cells, outer: usize) -> Option<Window>
    requires few { outer ≤ 4 }
    requires long { window_len cells.now outer ≤ length bytes.now }
    ensures child { IfSome result (λ w. w.child ≡ number_of cells.now.address bytes.now) }
    ensures parent { IfSome result (λ w.
        w.parent ≡ number_of outer (drop (4 * cells.now.address) bytes.now)) }
    ensures size { IfSome result (λ w.
        w.size ≡ number_of cells.now.size (drop (4 * (cells.now.address + outer)) bytes.now)) }
    ensures large { MatchOption result (IsLargeWindow cells.now outer bytes.now) (λ _. ⊤) }
{
    let child = number_of(bytes, cells.address)?;
    let parent = number_of(after(bytes, 4 * cells.address), outer)?;
    let size = number_of(after(bytes, 4 * (cells.address + outer)), cells.size)?;
    Some(Window {
        child,
        parent,
        size,
    })
}

/// Reads the windows of a bus from its `ranges`.
pub(crate) fn windows_of(
    alloc: Global,
    ranges: &[u8],
    cells: &Cells,
    outer: usize,
) -> Result<Vec<Window>, RowFault>
    requires { outer ≤ 4 }
    ensures ok { IfOk result (λ windows. AreWindows cells.now outer ranges.now windows.items) }
    ensures refused { IfErr result (IsWindowFault cells.now outer ranges.now) }
{
    let len = 4 * (cells.address + outer + cells.size);
    let mut windows = Vec::new(alloc);
    let mut at = 0;
    'windows: while at < ranges.len() {
        if len == 0 || ranges.len() - at < len {
            return Err(RowFault::BadLength);
        }
        let Some(window) = window_in(after(ranges, at), cells, outer) else {
            return Err(RowFault::LargeNumber);
        };
        let Ok(()) = windows.push(window) else {
            return Err(RowFault::Memory);
        };
        at += len;
    }
    Ok(windows)
}

impl Way {
    /// Copies the translation, in constant time.
    pub(crate) fn copied(&self) -> Result<Way, RowFault>
        ensures same { IfOk result (λ way. path_of way ≡ path_of self.now) }
        ensures refused { IfErr result (λ fault. fault ≡ RowFault.Memory) }
    {
        match self {
            Way::Same => Ok(Way::Same),
            Way::Bus(bus) => {
                let Ok(bus) = bus.clone() else {
                    return Err(RowFault::Memory);
                };
                Ok(Way::Bus(bus))
            }
        }
    }

    /// Returns the translation for the children of a bus that has these windows.
    pub(crate) fn behind(&self, alloc: Global, windows: Vec<Window>) -> Result<Way, RowFault>
        ensures behind { IfOk result (λ way. path_of way ≡ windows.items ∷ path_of self.now) }
        ensures refused { IfErr result (λ fault. fault ≡ RowFault.Memory) }
    {
        let outer = self.copied()?;
        let Ok(bus) = Rc::new(alloc, (windows, outer)) else {
            return Err(RowFault::Memory);
        };
        Ok(Way::Bus(bus))
    }
}
