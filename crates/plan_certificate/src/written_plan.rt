//! The parts of a plan that a certificate contains, for any representation of the entries.

ghost use Rattle.std.specs.Prelude.{◌≡◌, ◌<◌, length, slice_index_or};
ghost use Rattle.pmp_encoding.specs.declared.region.Entry.{Entry};
ghost use Rattle.pmp_encoding.specs.Encoding.{address_of, cfg_of};
ghost use Rattle.entry_planner.specs.Plans.{Planned};
ghost use Rattle.certificate_format.specs.Spelling.{pair_bytes};
ghost use Rattle.plan_certificate.specs.Written.{entry_bytes};

use byteorder::{ByteOrder, LittleEndian};
use entry_planner::{Plan, SplitCosts};
use pmp_encoding::{Entry, PackedEntry};

/// A plan for which a certificate can be written.
pub(crate) trait WrittenPlan {
    ghost planned: { Self → Planned };

    /// Returns the number of entries.
    fn count(&self) -> u32
        ensures { result ≡ length (planned self.now).entries };

    /// Returns the bytes of the i-th entry.
    fn pair(&self, i: usize) -> [u8; 9]
        requires { i < length (planned self.now).entries }
        ensures { (d : Entry) → result
            ≡ entry_bytes (slice_index_or (planned self.now).entries i d) };

    /// Returns the costs of the split blocks.
    fn split_costs(&self) -> &SplitCosts
        ensures { result.now ≡ (planned self.now).costs };
}

/// A plan's representation of an entry.
pub(crate) trait PairedEntry {
    ghost entry: { Self → Entry };

    /// Returns the configuration byte and the address register of the canonical pair.
    fn registers(&self) -> (u8, u64)
        ensures cfg { result.0 ≡ cfg_of (entry self.now) }
        ensures address { result.1 ≡ address_of (entry self.now) };
}

/// Returns the bytes of a configuration byte and an address register.
#[tactic(auto, unfolding(crate::specs::Spelling::u64_bytes))]
fn pair_piece(cfg: u8, address: u64) -> [u8; 9]
    ensures { result ≡ pair_bytes (cfg, address) }
{
    let mut bytes = [cfg; 9];
    LittleEndian::write_u64(&mut bytes[1..], address);
    bytes
}

impl PairedEntry for Entry {
    ghost entry = { λ e. e };

    fn registers(&self) -> (u8, u64) {
        self.encode()
    }
}

impl PairedEntry for PackedEntry {
    ghost entry = { λ e. e };

    fn registers(&self) -> (u8, u64) {
        self.encode()
    }
}

impl<E: PairedEntry> WrittenPlan for Plan<E> {
    ghost use Rattle.std.specs.Prelude.{map};

    ghost planned = { λ p. record { entries = map E.entry p.entries; costs = p.costs } };

    fn count(&self) -> u32 {
        self.needed()
    }

    fn pair(&self, i: usize) -> [u8; 9] {
        let (cfg, address) = self.entries()[i].registers();
        pair_piece(cfg, address)
    }

    fn split_costs(&self) -> &SplitCosts {
        self.costs()
    }
}
