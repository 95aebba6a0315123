//! Laws of the extents of registers: lists of NA4 and NAPOT entries are a special case.

ghost use Rattle.std.specs.Prelude.{◌≡◌, ◌≢◌, ◌<◌, ◌≤◌, ◌↔◌, ℕ, All, List};
ghost use Rattle.pmp_encoding.specs.declared.extent.Extent.{Extent};
ghost use Rattle.pmp_encoding.specs.declared.region.Entry.{Entry};
ghost use Rattle.pmp_encoding.specs.Lists.{MeansList};
ghost use Rattle.pmp_encoding.specs.Views.{View};
ghost use Rattle.pmp_encoding.specs.Widths.{space_end, AreReached};
ghost use Rattle.pmp_match.specs.declared.access.Access.{Access};
ghost use Rattle.pmp_match.specs.declared.access.Mode.TheVariants.{Machine};
ghost use Rattle.pmp_match.specs.Decision.{Allows};
ghost use Rattle.pmp_match.specs.Meaning.{Means};
ghost use Rattle.pmp_match.specs.declared.registers.Registers.{Registers};
ghost use Rattle.pmp_match.specs.RegisterBytes.{IsGiven};
ghost use Rattle.pmp_match.specs.RegisterDecision.{ExtentsMean, IsNeverCut, IsWords, Permits};
ghost use Rattle.pmp_match.specs.Lists.{matched_by};
ghost use Rattle.pmp_match.specs.RegisterMatching.{AreExtents};
ghost use Rattle.pmp_match.specs.Registers.{cfg_at, pairs_of};
ghost use Rattle.pmp_match.specs.Reserved.{IsDefined};

/// Registers have at most one list of extents, and only if no entry has a reserved value. Each extent consists of whole
/// four-byte words and ends within the hart's physical address space.
pub fn extents_law()
    ensures one { (registers : Registers) (xs ys : List Extent)
        → AreExtents registers xs → AreExtents registers ys → xs ≡ ys }
    ensures defined { (registers : Registers) (xs : List Extent) → AreExtents registers xs
        → (place : ℕ) → place < 64
        → IsDefined registers.security (cfg_at registers place) }
    ensures words { (registers : Registers) (xs : List Extent)
        → AreExtents registers xs → All IsWords xs }
    ensures inside { (registers : Registers) (xs : List Extent)
        → AreExtents registers xs → All (λ x. x.end ≤ space_end registers.xlen) xs }
{}

/// A list of NA4 and NAPOT entries allows supervisor and user mode the same accesses as its extents. So do registers
/// that `decode` reads as that list, whatever `mseccfg` is, if the hart's address registers can express its regions.
/// Those of RV64 can express every list.
pub fn instance_law()
    ensures decision { (entries : List Entry) (a : Access) → a.mode ≢ Machine
        → Permits (matched_by entries) a ↔ Allows entries a }
    ensures meaning { (entries : List Entry) (view : View)
        → ExtentsMean (matched_by entries) view ↔ Means entries view }
    ensures registers_decision { (registers : Registers) (xs : List Extent) (entries : List Entry)
        → AreExtents registers xs → MeansList (pairs_of registers) entries
        → AreReached registers.xlen entries → (a : Access) → a.mode ≢ Machine → Permits xs a
        ↔ Allows entries a }
    ensures registers_meaning { (registers : Registers) (xs : List Extent) (entries : List Entry)
        → AreExtents registers xs → MeansList (pairs_of registers) entries
        → AreReached registers.xlen entries → (view : View) → ExtentsMean xs view
        ↔ Means entries view }
{}

/// Extents mean a view iff they give each byte the permission of its page, and the first match of each allowed access
/// contains the whole access.
pub fn registers_byte_law()
    ensures { (extents : List Extent) (view : View) → All IsWords extents
        → ExtentsMean extents view ↔ (IsGiven extents view × IsNeverCut extents view) }
{}
