//! The children of the root, with `/reserved-memory` among them.

ghost use Rattle.std.specs.Prelude.{◌≡◌, ◌≤◌, ◌++◌, ◌∷◌, IfErr, IfOk, OnOk, List, [], bytes_eq, codes, length, map};
ghost use Rattle.device_tree.specs.Pieces.{Part, Setting, ends, has, parts_of};
ghost use Rattle.device_tree.specs.Nodes.{BeginsNoNode, Nodes, node, parts_of_nodes};
ghost use Rattle.device_tree.specs.declared.kinds.Place.TheVariants.{BelowRoot};
ghost use Rattle.device_tree.specs.Windows.{same};
ghost use Rattle.host_tree.specs.Written.{Adds};
ghost use Rattle.host_tree.specs.HostNodes.{HostNodes, IsChild};
ghost use Rattle.host_tree.specs.HostTrees.{portion_of};
ghost use Rattle.host_tree.specs.Refusals.{AreRefused};
ghost use Rattle.host_tree.specs.Ranges.{AllFit, range_nodes, with_ranges};

use crate::fault::MakeFault;
use crate::own_node::put_head;
use crate::parent::put_parent;
use crate::put::put_end;
use crate::reserved::{Reserved, put_ranges};
use crate::share::Share;
use crate::walk::put_nodes;
use crate::writer::TreeWriter;
use device_tree::{Cells, Head, Place, PlacedPiece, Way, after_end, head_of, inner_of};
use std::alloc::Global;

/// Returns whether the node of that name contains the reserved ranges.
fn is_parent(name: &[u8]) -> bool
    ensures { result ≡ bytes_eq name.now (codes "reserved-memory") }
{
    name == b"reserved-memory".as_slice()
}

/// Writes a child of the root except its end token, and returns the pieces that remain.
fn put_child<'a>(
    alloc: Global,
    share: &Share<'_>,
    head: &Head<'a>,
    cells: &Cells,
    writer: &mut TreeWriter,
) -> Result<&'a [PlacedPiece<'a>], MakeFault>
    ensures len { IfOk result (λ behind. length behind.now ≤ length head.now.inner.now) }
    ensures ok { IfOk result (λ behind. IsChild (portion_of share.now) BelowRoot cells.now same
        head.now.name.now (parts_of head.now.properties.now) (parts_of head.now.inner.now)
        (parts_of behind.now) writer.old writer.new) }
    ensures refused { IfErr result (λ fault. (own : List Setting) (children : Nodes)
        (rest : List Part) → parts_of head.now.properties.now ≡ map has own
        → parts_of head.now.inner.now ≡ parts_of_nodes children ++ rest → BeginsNoNode rest
        → (later : Nodes) → AreRefused BelowRoot cells.now same []
        (node head.now.name.now own children later) fault) }
{
    let bus = (cells, &Way::Same);
    put_head(alloc, share, head, Place::BelowRoot, bus, writer)?;
    let inner = match inner_of(alloc, head.name, head.properties, Place::BelowRoot, bus) {
        Ok(inner) => inner,
        Err(reason) => return Err(MakeFault::NotUnderstood(reason)),
    };
    let inner_bus = (&inner.cells, &inner.way);
    match put_nodes(alloc, share, head.inner, inner.place, inner_bus, writer) {
        Ok(behind) => Ok(behind),
        Err(fault) => Err(fault),
    }
}

/// Writes the children of the root as the host gets them, with the reserved ranges.
pub(crate) fn put_children<'a>(
    alloc: Global,
    share: &Share<'_>,
    pieces: &'a [PlacedPiece<'a>],
    cells: &Cells,
    ranges: &[Reserved],
    writer: &mut TreeWriter,
) -> Result<(), MakeFault>
    ensures fit { OnOk result (AllFit cells.now ranges.now) }
    ensures ok { OnOk result ((nodes : Nodes) (behind : List Part)
        → parts_of pieces.now ≡ parts_of_nodes nodes ++ behind → BeginsNoNode behind
        → (made : Nodes) × HostNodes (portion_of share.now) BelowRoot cells.now same nodes made
        × Adds writer.old writer.new
        (parts_of_nodes (with_ranges cells.now ranges.now made))) }
    ensures refused { IfErr result (λ fault. (nodes : Nodes) (behind : List Part)
        → parts_of pieces.now ≡ parts_of_nodes nodes ++ behind → BeginsNoNode behind
        → AreRefused BelowRoot cells.now same ranges.now nodes fault) }
{
    let mut rest = pieces;
    'nodes: loop {
        let Some(head) = head_of(rest) else {
            put_parent(alloc, writer, cells, ranges)?;
            return Ok(());
        };
        let behind = match put_child(alloc, share, &head, cells, writer) {
            Ok(behind) => behind,
            Err(fault) => return Err(fault),
        };
        if is_parent(head.name) {
            put_last(alloc, share, behind, cells, ranges, writer)?;
            return Ok(());
        }
        match put_end(writer) {
            Ok(()) => {}
            Err(fault) => return Err(fault),
        }
        rest = after_end(behind);
    }
}

/// Writes the ranges and the end of `/reserved-memory`, and the nodes after it.
fn put_last<'a>(
    alloc: Global,
    share: &Share<'_>,
    pieces: &'a [PlacedPiece<'a>],
    cells: &Cells,
    ranges: &[Reserved],
    writer: &mut TreeWriter,
) -> Result<(), MakeFault>
    ensures fit { OnOk result (AllFit cells.now ranges.now) }
    ensures ok { OnOk result ((later : Nodes) (behind : List Part)
        → parts_of pieces.now ≡ ends ∷ (parts_of_nodes later ++ behind) → BeginsNoNode behind
        → (made : Nodes) × HostNodes (portion_of share.now) BelowRoot cells.now same later made
        × Adds writer.old writer.new (parts_of_nodes (range_nodes cells.now ranges.now)
        ++ (ends ∷ parts_of_nodes made))) }
    ensures refused { IfErr result (λ fault. (later : Nodes) (behind : List Part)
        → parts_of pieces.now ≡ ends ∷ (parts_of_nodes later ++ behind) → BeginsNoNode behind
        → AreRefused BelowRoot cells.now same ranges.now later fault) }
{
    put_ranges(alloc, writer, cells, ranges)?;
    put_end(writer)?;
    let bus = (cells, &Way::Same);
    let later = after_end(pieces);
    match put_nodes(alloc, share, later, Place::BelowRoot, bus, writer) {
        Ok(_) => Ok(()),
        Err(fault) => Err(fault),
    }
}
