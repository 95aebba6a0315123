//! Writes sibling nodes as the host gets them.

ghost use Rattle.std.specs.Prelude.{◌≡◌, ◌≤◌, ◌++◌, IfErr, IfOk, List, [], length};
ghost use Rattle.device_tree.specs.Pieces.{Part, parts_of};
ghost use Rattle.device_tree.specs.Nodes.{BeginsNoNode, Nodes, parts_of_nodes};
ghost use Rattle.device_tree.specs.Windows.{path_of};
ghost use Rattle.host_tree.specs.Refusals.{AreRefused};
ghost use Rattle.host_tree.specs.Written.{Adds};
ghost use Rattle.host_tree.specs.HostNodes.{HostNodes};
ghost use Rattle.host_tree.specs.HostTrees.{portion_of};

use crate::fault::MakeFault;
use crate::own_node::put_head;
use crate::put::put_end;
use crate::share::Share;
use crate::writer::TreeWriter;
use device_tree::{Cells, Place, PlacedPiece, Way, after_end, head_of, inner_of};
use std::alloc::Global;

/// Writes the nodes at the beginning as the host gets them, and returns the pieces after them.
pub(crate) fn put_nodes<'a>(
    alloc: Global,
    share: &Share<'_>,
    pieces: &'a [PlacedPiece<'a>],
    place: Place,
    bus: (&Cells, &Way),
    writer: &mut TreeWriter,
) -> Result<&'a [PlacedPiece<'a>], MakeFault>
    ensures len { IfOk result (λ rest. length rest.now ≤ length pieces.now) }
    ensures ok { IfOk result (λ rest. (nodes : Nodes) (behind : List Part)
        → parts_of pieces.now ≡ parts_of_nodes nodes ++ behind → BeginsNoNode behind
        → (parts_of rest.now ≡ behind)
        × (made : Nodes)
        × HostNodes (portion_of share.now) place bus.entry.0.now (path_of bus.entry.1.now)
        nodes made
        × Adds writer.old writer.new (parts_of_nodes made)) }
    ensures refused { IfErr result (λ fault. (nodes : Nodes) (behind : List Part)
        → parts_of pieces.now ≡ parts_of_nodes nodes ++ behind → BeginsNoNode behind
        → AreRefused place bus.entry.0.now (path_of bus.entry.1.now) [] nodes fault) }
{
    let mut rest = pieces;
    'nodes: loop {
        let Some(head) = head_of(rest) else {
            break 'nodes;
        };
        match put_head(alloc, share, &head, place, bus, writer) {
            Ok(()) => {}
            Err(fault) => return Err(fault),
        }
        let inner = match inner_of(alloc, head.name, head.properties, place, bus) {
            Ok(inner) => inner,
            Err(reason) => return Err(MakeFault::NotUnderstood(reason)),
        };
        let inner_bus = (&inner.cells, &inner.way);
        let behind = match put_nodes(alloc, share, head.inner, inner.place, inner_bus, writer) {
            Ok(behind) => behind,
            Err(fault) => return Err(fault),
        };
        match put_end(writer) {
            Ok(()) => {}
            Err(fault) => return Err(fault),
        }
        rest = after_end(behind);
    }
    Ok(rest)
}
