//! The law that the bytes of a plan are a certificate.

ghost use Rattle.std.specs.Prelude.{◌≡◌, ℕ, ◌*◌, ◌≤◌, List, length, All};
ghost use Rattle.pmp_encoding.specs.declared.perm.Perm.TheVariants.{NoAccess};
ghost use Rattle.pmp_encoding.specs.declared.region.Entry.{Entry};
ghost use Rattle.pmp_match.specs.Meaning.{View};
ghost use Rattle.pmp_match.specs.Bounds.{bound_of, IsSoundBound};
ghost use Rattle.prefix_tree.specs.Trees.{PermTree};
ghost use Rattle.prefix_tree.specs.Counts.{splits};
ghost use Rattle.entry_planner.specs.declared.costs.BlockCost.{BlockCost};
ghost use Rattle.entry_planner.specs.Plans.{costed};
ghost use Rattle.certificate_format.specs.declared.header.Version.{Version};
ghost use Rattle.certificate_format.specs.Spelling.{Spells, IsCertificate};

/// Bytes that encode a plan's entries, each of at least a page, and its tree with its costs are a certificate, if the
/// costs are a sound bound of some view and the root's number for no access is the number of entries. Plans of trees
/// have these properties, and [`write`](crate::write) returns such bytes.
pub fn certificate_law()
    ensures { (view : View) (tree : PermTree) (costs : List BlockCost)
        (entries : List Entry) (version : Version) (bytes : List ℕ)
        → splits tree ≤ 44 * 8192 → IsSoundBound view (costed costs 0 tree)
        → bound_of (costed costs 0 tree) NoAccess ≡ length entries
        → All (λ e. 12 ≤ e.region.log2) entries
        → Spells bytes version entries (costed costs 0 tree)
        → IsCertificate bytes version entries (costed costs 0 tree) }
{}
