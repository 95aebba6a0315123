//! The costs of the lines of a map.

ghost use Rattle.std.specs.Prelude.{◌≡◌, ◌++◌, ◌-◌, ◌^◌, ◌<◌, ◌≤◌, ℕ, IfOk, List, length};
ghost use Rattle.std.specs.List.{All};
ghost use Rattle.input_files.specs.Settings.{IsInside};
ghost use Rattle.input_files.specs.Costs.{AreCosts, HasCost, looked_at};

use crate::idle_lines::{Numbered, map_of_both};
use crate::map_settings::settings_in;
use entry_planner::plan_map;
use permission_map::Memory;
use std::alloc::Global;
use text_lines::{push, push_number};

/// Maximum number of lines to evaluate.
const MOST: usize = 512;

/// Maximum number of settings to apply for all lines together. Without each line the others are applied again; this many take a
/// second or two.
const FOLLOWED: usize = 1 << 19;

/// Returns the number of lines to evaluate if this many set something.
fn looked_at(count: usize) -> usize
    ensures value { result ≡ looked_at count }
    ensures most { result ≤ count }
{
    if count == 0 {
        return 0;
    }
    count.min(MOST.min(FOLLOWED / count))
}

/// The cost of a map file's other lines without one line.
#[derive(Clone, Copy)]
pub struct LineCost {
    /// The number of the line, from 1.
    pub line: u64,
    /// The minimum number of entries of the map of all other lines, unless there are too many ranges.
    pub fewest: Option<u64>,
}

/// Returns the minimum number of entries of the map of some settings followed by others, or `None` if there are too
/// many ranges.
fn cost_of(alloc: Global, kept: &[Numbered], rest: &[Numbered]) -> Result<Option<u64>, Memory>
    requires kept { All IsInside kept.now }
    requires rest { All IsInside rest.now }
    ensures { IfOk result (HasCost (kept.now ++ rest.now)) }
{
    let Some(map) = map_of_both(alloc, kept, rest)? else {
        return Ok(None);
    };
    let plan = plan_map(alloc, &map)?;
    Ok(Some(u64::from(plan.needed())))
}

/// Returns the minimum number of entries of the map of all other settings, for each setting to evaluate.
fn costs_of(alloc: Global, settings: &[Numbered]) -> Result<Vec<LineCost>, Memory>
    requires { All IsInside settings.now }
    ensures { IfOk result (λ costs.
        AreCosts settings.now (looked_at (length settings.now)) costs.items) }
{
    let mut costs = Vec::new(alloc);
    for i in 0..looked_at(settings.len()) {
        let fewest = cost_of(alloc, &settings[..i], &settings[i + 1..])?;
        costs.push(LineCost {
            line: settings[i].line,
            fewest,
        })?;
    }
    Ok(costs)
}

/// Appends the line on a cost.
fn push_cost(text: &mut Vec<u8>, cost: &LineCost) -> Result<(), Memory> {
    push(text, "without line ")?;
    push_number(text, cost.line)?;
    let Some(fewest) = cost.fewest else {
        return push(text, ": more than 4096 ranges\n");
    };
    push(text, ": ")?;
    push_number(text, fewest)?;
    push(
        text,
        if fewest == 1 {
            " entry\n"
        } else {
            " entries\n"
        },
    )
}

/// Returns the lines on the costs, and the number of further lines that set something.
fn costs_text(alloc: Global, costs: &[LineCost], more: usize) -> Result<Vec<u8>, Memory> {
    let mut text = Vec::new(alloc);
    for cost in costs {
        push_cost(&mut text, cost)?;
    }
    if more > 0 {
        push(&mut text, "lines after these that are not looked at: ")?;
        push_number(&mut text, more as u64)?;
        push(&mut text, "\n")?;
    }
    Ok(text)
}

/// Appends a line for each line of a map file that sets something, at most 512 of them and fewer if more than 1024 do, with the
/// minimum number of entries of the map of all other lines. The only error is a failed allocation.
pub fn push_line_costs(alloc: Global, text: &mut Vec<u8>, bytes: &[u8]) -> Result<(), Memory>
    requires { length bytes.now < 2 ^ 64 - 1 }
    ensures { IfOk result (λ _. (said : List ℕ) × (text.new.items ≡ text.old.items ++ said)) }
{
    let settings = settings_in(alloc, bytes)?;
    let costs = costs_of(alloc, settings.as_slice())?;
    let more = settings.len() - costs.len().min(settings.len());
    let said = costs_text(alloc, costs.as_slice(), more)?;
    text.extend_from_slice(said.as_slice())?;
    Ok(())
}
