//! Failures of commands on listings of registers.

ghost use Rattle.std.specs.Prelude.{◌≡◌};
ghost use Rattle.monitor_cli.specs.ListingTroubles.{listing_trouble};

use program_files::Trouble;
use register_audit::ListingFault;

/// Converts a fault of a listing in a file with this name.
pub(crate) fn listing_trouble<'a>(file: &'a str, fault: ListingFault) -> Trouble<'a>
    ensures { result ≡ listing_trouble file.entry fault }
{
    match fault {
        ListingFault::Line(line) => Trouble::NotUnderstood { file, line },
        ListingFault::Memory => Trouble::Memory,
        ListingFault::Device => Trouble::Output,
    }
}
