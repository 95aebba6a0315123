//! Laws of the monitor.

ghost use Rattle.monitor_core.specs.Loads.{KeepsLoaded};

/// If the caller loads a hart's entries exactly when the core requests it, and those of each hart that it wakes, then
/// after every call and every interrupt each hart that is not marked has the fewest entries that mean the view of its
/// world.
pub fn loading_law()
    ensures { KeepsLoaded }
{}
