//! Measures an enclave, and reads the words of its digest.

ghost use Rattle.std.specs.Prelude.{◌≡◌, ◌<◌, ◌*◌, ◌++◌, ◌∷◌, [], List, ℕ, drop};
ghost use Rattle.byteorder.specs.Endian.{little_number};
ghost use Rattle.measurement.specs.declared.measured.Layout.{Layout};
ghost use Rattle.measurement.specs.Measured.{layout_bytes, digest_of};
ghost use Rattle.measurement.specs.Progress.{HasMeasured};

use crate::measured::Layout;
use byteorder::{ByteOrder, LittleEndian};
use sha2::{Digest, Sha256};

/// A measurement in progress.
#[derive(Drop)]
pub struct Measure {
    hasher: Sha256,
}

fn layout_bytes(layout: &Layout) -> [u8; 32]
    ensures { result ≡ layout_bytes layout.now }
{
    let mut bytes = [0; 32];
    LittleEndian::write_u64(&mut bytes[..8], layout.text_pages);
    LittleEndian::write_u64(&mut bytes[8..16], layout.data_pages);
    LittleEndian::write_u64(&mut bytes[16..24], layout.shared_count);
    LittleEndian::write_u64(&mut bytes[24..], layout.entry_offset);
    bytes
}

impl Measure {
    /// Begins with the layout: its four numbers as eight bytes each, little-endian, in the order of its fields.
    pub fn begin(layout: &Layout) -> Measure
        ensures { HasMeasured result layout.now [] }
    {
        let bytes = layout_bytes(layout);
        let mut hasher = Sha256::new();
        hasher.update(bytes.as_slice());
        Measure { hasher }
    }

    /// Adds the bytes of the next private page. Pages must come by ascending address.
    pub fn page(&mut self, page: &[u8; 4096])
        ensures { (layout : Layout) (pages : List (List ℕ)) → HasMeasured self.old layout pages
            → HasMeasured self.new layout (pages ++ page.now ∷ []) }
    {
        self.hasher.update(&page[..]);
    }

    /// Returns the SHA-256 digest of the layout and of all added pages.
    pub fn finish(self) -> [u8; 32]
        ensures { (layout : Layout) (pages : List (List ℕ)) → HasMeasured self layout pages
            → result ≡ digest_of layout pages }
    {
        let Measure { hasher } = self;
        hasher.finalize()
    }
}

/// Returns the `k`-th of the four words of a digest, for `k` below 4: the little-endian number of its bytes from `8 *
/// k` to `8 * k + 7`.
pub fn word(digest: &[u8; 32], k: usize) -> u64
    requires { k < 4 }
    ensures { result ≡ little_number 8 (drop (8 * k) digest.now) }
{
    LittleEndian::read_u64(&digest[8 * k..])
}
