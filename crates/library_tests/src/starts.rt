//! The reason why a hart loads the list of the host before it starts.

ghost use Rattle.library_tests.specs.Starts.{OpensMonitor};

/// If a hart could start with the list that it has, its host could access the monitor's pages.
pub fn started_anyhow()
    ensures { OpensMonitor }
{}
