//! The parts of the machine: the monitor's core, memory, the harts and the saved registers.

use crate::Memory;
use context_switch::{Contexts, Hart};
use monitor_core::Core;
use std::alloc::Global;

/// The monitor's core, memory, four harts, of which a platform may have fewer, and the registers of each suspended
/// world.
#[derive(Drop)]
pub(crate) struct MachineParts {
    pub(crate) alloc: Global,
    pub(crate) core: Core,
    pub(crate) memory: Memory,
    pub(crate) harts: [Hart; 4],
    pub(crate) contexts: Contexts,
}
