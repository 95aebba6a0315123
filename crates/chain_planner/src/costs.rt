//! The costs of a block, and the choices with which a split block attains them.

ghost use Rattle.std.specs.Prelude.{◌≡◌, ◌&&◌, ◌+◌, ◌<◌, ◌^◌, ◌/◌, ◌%◌};
ghost use Rattle.pmp_encoding.specs.declared.perm.Perm.{Perm};
ghost use Rattle.pmp_encoding.specs.Perms.{perm_eq};
ghost use Rattle.prefix_tree.specs.Coding.{perm_of};
ghost use Rattle.prefix_tree.specs.Trees.{PermTree, Uniform, Split};
ghost use Rattle.chain_planner.specs.ChainCosts.{change, through};
ghost use Rattle.chain_planner.specs.Choices.{AreChoices, AreCosts, AreSmall};
ghost use Rattle.chain_planner.specs.Keys.{through_key};
ghost use Rattle.chain_planner.specs.Sixes.{AreAllBelow, AreBelow, across, at};

use crate::choices::Choices;
use crate::keys::{begins_keys, change, choices_in, costs_in, cover_key, own_keys, through_keys};
use crate::six::Six;
use pmp_encoding::Perm;

/// The costs of a block, by the permissions at its edges.
#[derive(Clone, Copy)]
pub struct Costs {
    /// Without a chain, by the permission that the block inherits.
    pub own: Six<u32>,
    /// With a chain that passes, by its permissions at the lower and at the upper edge.
    pub through: Six<Six<u32>>,
    /// With a chain that begins in the block under an entry, by its permission at the upper edge.
    pub begins: Six<u32>,
    /// The number of changes of permission.
    pub changes: u32,
    /// The permissions of the first page and of the last.
    pub first: Perm,
    pub last: Perm,
}

/// A split block's costs, and the choices that attain them.
#[derive(Clone, Copy)]
pub struct Joined {
    pub costs: Costs,
    pub choices: Choices,
}

/// The permission at a place in the fixed order.
#[inline(always)]
pub fn perm_at(index: u32) -> Perm
    ensures { result ≡ perm_of index }
{
    match index {
        0 => Perm::NoAccess,
        1 => Perm::Read,
        2 => Perm::ReadWrite,
        3 => Perm::Execute,
        4 => Perm::ReadExecute,
        _ => Perm::ReadWriteExecute,
    }
}

/// Returns whether a chain has a block's permission at both of its edges.
#[inline(always)]
pub fn is_followed(perm: Perm, from: Perm, to: Perm) -> bool
    ensures { result ≡ (perm_eq from perm && perm_eq perm to) }
{
    change(from, perm) + change(perm, to) == 0
}

/// Returns the cost of a block of one permission with a chain that passes it.
fn through_uniform(perm: Perm, from: Perm, to: Perm) -> u32
    ensures { result ≡ through (Uniform perm) from to }
{
    if is_followed(perm, from, to) {
        0
    } else {
        1 + change(from, to)
    }
}

/// Returns these costs for each permission at the upper edge.
fn uniform_row(perm: Perm, from: Perm) -> Six<u32>
    ensures { (q : Perm) → at result q ≡ through (Uniform perm) from q }
{
    Six {
        none: through_uniform(perm, from, Perm::NoAccess),
        read: through_uniform(perm, from, Perm::Read),
        read_write: through_uniform(perm, from, Perm::ReadWrite),
        execute: through_uniform(perm, from, Perm::Execute),
        read_execute: through_uniform(perm, from, Perm::ReadExecute),
        all: through_uniform(perm, from, Perm::ReadWriteExecute),
    }
}

/// Returns the costs of a block of one permission.
pub fn uniform_costs(perm: Perm) -> Costs
    ensures { AreCosts result (Uniform perm) }
{
    Costs {
        own: Six {
            none: change(perm, Perm::NoAccess),
            read: change(perm, Perm::Read),
            read_write: change(perm, Perm::ReadWrite),
            execute: change(perm, Perm::Execute),
            read_execute: change(perm, Perm::ReadExecute),
            all: change(perm, Perm::ReadWriteExecute),
        },
        through: Six {
            none: uniform_row(perm, Perm::NoAccess),
            read: uniform_row(perm, Perm::Read),
            read_write: uniform_row(perm, Perm::ReadWrite),
            execute: uniform_row(perm, Perm::Execute),
            read_execute: uniform_row(perm, Perm::ReadExecute),
            all: uniform_row(perm, Perm::ReadWriteExecute),
        },
        begins: Six {
            none: 1,
            read: 1,
            read_write: 1,
            execute: 1,
            read_execute: 1,
            all: 1,
        },
        changes: 0,
        first: perm,
        last: perm,
    }
}

/// The sums of the numbers of two halves.
fn sums(low: &Six<u32>, high: &Six<u32>) -> Six<u32>
    requires low { AreBelow (2 ^ 22) low.now }
    requires high { AreBelow (2 ^ 22) high.now }
    ensures sums { (p : Perm) → at result p ≡ at low.now p + at high.now p }
    ensures most { AreBelow (2 ^ 23) result }
{
    Six {
        none: low.none + high.none,
        read: low.read + high.read,
        read_write: low.read_write + high.read_write,
        execute: low.execute + high.execute,
        read_execute: low.read_execute + high.read_execute,
        all: low.all + high.all,
    }
}

/// A column of a table.
fn column(table: &Six<Six<u32>>, q: Perm) -> Six<u32>
    requires { AreAllBelow (2 ^ 22) table.now }
    ensures values { (n : Perm) → at result n ≡ at (at table.now n) q }
    ensures most { AreBelow (2 ^ 23) result }
{
    Six {
        none: table.none.at(q),
        read: table.read.at(q),
        read_write: table.read_write.at(q),
        execute: table.execute.at(q),
        read_execute: table.read_execute.at(q),
        all: table.all.at(q),
    }
}

/// The columns of a table.
fn columns_of(table: &Six<Six<u32>>) -> Six<Six<u32>>
    requires { AreAllBelow (2 ^ 22) table.now }
    ensures values { (n q : Perm) → across result n q ≡ at (at table.now n) q }
    ensures most { AreAllBelow (2 ^ 23) result }
{
    Six {
        none: column(table, Perm::NoAccess),
        read: column(table, Perm::Read),
        read_write: column(table, Perm::ReadWrite),
        execute: column(table, Perm::Execute),
        read_execute: column(table, Perm::ReadExecute),
        all: column(table, Perm::ReadWriteExecute),
    }
}

/// The costs of keys of a table.
fn table_costs(keys: &Six<Six<u32>>) -> Six<Six<u32>>
    ensures { (p q : Perm) → at (at result p) q ≡ at (at keys.now p) q / 64 }
{
    Six {
        none: costs_in(&keys.none),
        read: costs_in(&keys.read),
        read_write: costs_in(&keys.read_write),
        execute: costs_in(&keys.execute),
        read_execute: costs_in(&keys.read_execute),
        all: costs_in(&keys.all),
    }
}

/// The choices of keys of a table.
fn table_choices(keys: &Six<Six<u32>>) -> Six<Six<u8>>
    ensures { (p q : Perm) → at (at result p) q ≡ at (at keys.now p) q % 64 }
{
    Six {
        none: choices_in(&keys.none),
        read: choices_in(&keys.read),
        read_write: choices_in(&keys.read_write),
        execute: choices_in(&keys.execute),
        read_execute: choices_in(&keys.read_execute),
        all: choices_in(&keys.all),
    }
}

/// The keys of a split block for a chain that passes it.
fn table_keys(low: &Six<Six<u32>>, columns: &Six<Six<u32>>, cover: u32) -> Six<Six<u32>>
    requires low { AreAllBelow (2 ^ 22) low.now }
    requires columns { AreAllBelow (2 ^ 23) columns.now }
    requires cover { cover < 2 ^ 23 }
    ensures { (p q : Perm) → at (at result p) q
        ≡ through_key (at (at low.now p)) (across columns.now) cover p q }
{
    Six {
        none: through_keys(&low.none, columns, cover, Perm::NoAccess),
        read: through_keys(&low.read, columns, cover, Perm::Read),
        read_write: through_keys(&low.read_write, columns, cover, Perm::ReadWrite),
        execute: through_keys(&low.execute, columns, cover, Perm::Execute),
        read_execute: through_keys(&low.read_execute, columns, cover, Perm::ReadExecute),
        all: through_keys(&low.all, columns, cover, Perm::ReadWriteExecute),
    }
}

/// Computes the costs of a split block from those of its halves, and the choices that attain them.
pub fn join(low: &Costs, high: &Costs) -> Joined
    requires low { AreSmall (2 ^ 22) low.now }
    requires high { AreSmall (2 ^ 22) high.now }
    ensures costs { (lower upper : PermTree) → AreCosts low.now lower → AreCosts high.now upper
        → AreCosts result.costs (Split lower upper) }
    ensures choices { (lower upper : PermTree) → AreCosts low.now lower
        → AreCosts high.now upper → AreChoices result.choices lower upper }
{
    let base = sums(&low.own, &high.own);
    let best = cover_key(&base);
    let cover = 1 + best / 8;
    let columns = columns_of(&high.through);
    let own = own_keys(&base, cover);
    let through = table_keys(&low.through, &columns, cover);
    let begins = begins_keys(&low.begins, &columns, cover, low.own.none, &high.begins);
    Joined {
        costs: Costs {
            own: costs_in(&own),
            through: table_costs(&through),
            begins: costs_in(&begins),
            changes: low.changes + change(low.last, high.first) + high.changes,
            first: low.first,
            last: high.last,
        },
        choices: Choices {
            own: choices_in(&own),
            through: table_choices(&through),
            begins: choices_in(&begins),
            cover: perm_at(best % 8),
        },
    }
}
