//! Laws that relate the judgement of registers to lists and to extents.

ghost use Rattle.std.specs.Prelude.{◌≡◌, ◌≢◌, ◌↔◌, List, Result};
ghost use Rattle.pmp_encoding.specs.declared.extent.Extent.{Extent};
ghost use Rattle.pmp_encoding.specs.declared.region.Entry.{Entry};
ghost use Rattle.pmp_encoding.specs.Lists.{MeansList};
ghost use Rattle.pmp_encoding.specs.Widths.{AreReached};
ghost use Rattle.pmp_match.specs.declared.access.Access.{Access};
ghost use Rattle.pmp_match.specs.declared.access.Mode.TheVariants.{Machine};
ghost use Rattle.pmp_match.specs.declared.cause.Cause.{Cause};
ghost use Rattle.pmp_match.specs.Judgement.{Judges};
ghost use Rattle.pmp_match.specs.declared.registers.Registers.{Registers};
ghost use Rattle.pmp_match.specs.RegisterDecision.{Permits, RegistersMean};
ghost use Rattle.pmp_match.specs.RegisterMatching.{AreExtents};
ghost use Rattle.pmp_match.specs.Registers.{pairs_of};
ghost use Rattle.pmp_match.specs.Smepmp.{security_of};
ghost use Rattle.register_audit.specs.Decision.{RegistersAllow};
ghost use Rattle.register_audit.specs.Judgement.{RegistersJudge};
ghost use Rattle.register_audit.specs.Modes.{MeanFor};
ghost use Rattle.pmp_encoding.specs.Views.{View};
ghost use Rattle.pmp_match.specs.declared.access.Mode.{Mode};

/// Registers that contain a list of NA4 and NAPOT entries judge each access as the list does, if the hart's address
/// registers reach it: for supervisor and user mode with any `mseccfg`, and for machine mode if MML and MMWP are 0.
/// Such a list has no locked entry.
pub fn list_law()
    ensures { (registers : Registers) (entries : List Entry)
        → MeansList (pairs_of registers) entries → AreReached registers.xlen entries
        → (a : Access) → (a.mode ≡ Machine → registers.security ≡ security_of 0)
        → (answer : Result (Unit {0}) Cause)
        → RegistersJudge registers a answer ↔ Judges entries a answer }
{}

/// Supervisor and user mode may do exactly what the extents of the registers permit.
pub fn permits_law()
    ensures { (registers : Registers) (xs : List Extent) → AreExtents registers xs
        → (a : Access) → a.mode ≢ Machine
        → RegistersAllow registers a ↔ Permits xs a }
{}

/// For supervisor and user mode registers mean a view iff their extents do.
pub fn mean_law()
    ensures { (mode : Mode) (registers : Registers) (view : View) → mode ≢ Machine
        → MeanFor mode registers view ↔ RegistersMean registers view }
{}
