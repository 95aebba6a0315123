//! Sinks for a plan's certificate.

ghost use Rattle.std.specs.Prelude.{◌≡◌, ℕ, Bool, List, Option, IfErr, IfOk, length, false};
ghost use Rattle.text_lines.specs.Writings.{writing, TakesAll};
ghost use Rattle.permission_map.specs.Runs.{view_of_runs};
ghost use Rattle.prefix_tree.specs.Counts.{splits};
ghost use Rattle.prefix_tree.specs.TreeOf.{tree_of};
ghost use Rattle.plan_certificate.specs.Written.{certificate_for};
ghost use Rattle.monitor_cli.specs.CertifiedPlan.{placing, CertificateNotWritten};

use entry_planner::Plan;
use permission_map::PermissionMap;
use plan_certificate::send_map;
use pmp_encoding::{Limit, PackedEntry};
use program_files::WholeSink;
use text_lines::{DeviceFault, Sink};

/// A certificate is written whole, or not at all.
pub struct Whole;

/// A certificate is written directly to the sink.
pub struct Straight;

/// A sink that takes a certificate in the mode `M`: [`Whole`] if the sink has a place for it, [`Straight`] for any
/// sink.
pub trait CertificateSink<M>: Sink {
    /// The bytes in the place, if they are known.
    ghost stands: { Self → Option (List ℕ) };

    /// True if the place is separate from the sink that takes the bytes.
    ghost is_apart: { Bool };

    /// Takes the certificate of a map's plan, and puts it in its place.
    fn take(
        &mut self,
        map: &PermissionMap,
        plan: &Plan<PackedEntry>,
        limit: Limit,
    ) -> Result<(), DeviceFault>
        requires splits { splits (tree_of (view_of_runs map.now)) ≡ length plan.now.costs }
        ensures put { IfOk result (λ _.
            TakesAll (certificate_for limit plan.now (tree_of (view_of_runs map.now)))
            (writing Self.contents Self.failures Self.stalls self.old self.new)
            × (stands self.new ≡ Self.contents self.new)) }
        ensures broken { IfErr result (λ _.
            CertificateNotWritten (certificate_for limit plan.now (tree_of (view_of_runs map.now)))
            (placing Self.contents Self.failures Self.stalls stands is_apart self.old self.new)) };
}

impl<C: WholeSink> CertificateSink<Whole> for C {
    ghost stands = { C.stands };

    ghost is_apart = { C.is_apart };

    fn take(
        &mut self,
        map: &PermissionMap,
        plan: &Plan<PackedEntry>,
        limit: Limit,
    ) -> Result<(), DeviceFault> {
        send_map(map, plan, limit, self.inner())?;
        self.put_in_place()
    }
}

impl<C: Sink> CertificateSink<Straight> for C {
    ghost stands = { C.contents };

    ghost is_apart = { false };

    fn take(
        &mut self,
        map: &PermissionMap,
        plan: &Plan<PackedEntry>,
        limit: Limit,
    ) -> Result<(), DeviceFault> {
        send_map(map, plan, limit, self)
    }
}
