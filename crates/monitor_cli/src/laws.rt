//! Laws of maps that are out of a hart's reach, and of the digest of an enclave.

ghost use Rattle.std.specs.Prelude.{◌≡◌, ◌↔◌, ◌+◌, ◌/◌, ◌<◌, ℕ, List, Option};
ghost use Rattle.pmp_encoding.specs.declared.region.Entry.{Entry};
ghost use Rattle.pmp_match.specs.Meaning.{View};
ghost use Rattle.pmp_encoding.specs.declared.xlen.Xlen.{Xlen};
ghost use Rattle.pmp_encoding.specs.Widths.{AreReached};
ghost use Rattle.monitor_cli.specs.CertifiedPlan.{HasPageBeyond, IsPlanned};
ghost use Rattle.monitor_cli.specs.Measure.{enclave_digest, page_of};
ghost use Rattle.measurement.specs.Digests.{layout_of, measured};
ghost use Rattle.measurement.specs.declared.request.Create.{Create};

/// A plan has an entry that the hart's address registers do not reach iff a page that they do not reach has a
/// permission.
pub fn width_law()
    ensures { (view : View) (xlen : Xlen) (most : Option ℕ) (entries : List Entry)
        → IsPlanned view most entries → (¬ AreReached xlen entries) ↔ HasPageBeyond xlen view }
{}

/// The digest that `measure` prints is the one that the monitor measures when an enclave is created with these bytes,
/// wherever in memory its pages are.
pub fn place_law()
    ensures { (bytes : List ℕ) (memory : ℕ → List ℕ) (parts : Create)
        → ((i : ℕ) → i < parts.text_pages + parts.data_pages
        → memory (parts.base / 4096 + i) ≡ page_of bytes i)
        → measured memory parts ≡ enclave_digest (layout_of parts) bytes }
{}
