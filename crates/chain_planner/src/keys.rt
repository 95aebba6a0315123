//! Costs and choices in one number, of which the least is one of least cost.

ghost use Rattle.std.specs.Prelude.{◌≡◌, ◌+◌, ◌*◌, ◌<◌, ◌≤◌, ◌^◌, ◌/◌, ◌%◌, min, ℕ};
ghost use Rattle.pmp_encoding.specs.declared.perm.Perm.{Perm};
ghost use Rattle.chain_planner.specs.ChainCosts.{change};
ghost use Rattle.chain_planner.specs.Keys.{begins_key, cover_key, middle_key, own_key, pass_key, through_key};
ghost use Rattle.chain_planner.specs.Sixes.{AreAllBelow, AreBelow, across, at};

use crate::six::{Six, least, smaller};
use pmp_encoding::Perm;

/// A change from one permission to another: an entry where they differ.
#[inline(always)]
pub fn change(from: Perm, to: Perm) -> u32
    ensures value { result ≡ change from to }
    ensures most { result ≤ 1 }
{
    if from == to { 0 } else { 1 }
}

/// The keys of the lower half with a change at the middle to each permission.
#[inline(always)]
pub fn middle_keys(low: &Six<u32>) -> Six<u32>
    requires { AreBelow (2 ^ 23) low.now }
    ensures keys { (n : Perm) → at result n ≡ middle_key (at low.now) n }
    ensures most { AreBelow (2 ^ 27) result }
{
    let other = least(&Six {
        none: 8 * low.none + 8,
        read: 8 * low.read + 9,
        read_write: 8 * low.read_write + 10,
        execute: 8 * low.execute + 11,
        read_execute: 8 * low.read_execute + 12,
        all: 8 * low.all + 13,
    });
    Six {
        none: smaller(8 * low.none, other),
        read: smaller(8 * low.read + 1, other),
        read_write: smaller(8 * low.read_write + 2, other),
        execute: smaller(8 * low.execute + 3, other),
        read_execute: smaller(8 * low.read_execute + 4, other),
        all: smaller(8 * low.all + 5, other),
    }
}

/// The key of the two halves for a chain that has a permission at the upper edge.
#[inline(always)]
fn pass_key(middle: &Six<u32>, column: &Six<u32>) -> u32
    requires middle { AreBelow (2 ^ 27) middle.now }
    requires column { AreBelow (2 ^ 23) column.now }
    ensures key { (upper : Perm → Perm → ℕ) (q : Perm)
        → ((n : Perm) → at column.now n ≡ upper n q)
        → result ≡ pass_key (at middle.now) upper q }
    ensures most { result < 2 ^ 31 }
{
    least(&Six {
        none: 8 * middle.none + 64 * column.none,
        read: 8 * middle.read + (64 * column.read + 1),
        read_write: 8 * middle.read_write + (64 * column.read_write + 2),
        execute: 8 * middle.execute + (64 * column.execute + 3),
        read_execute: 8 * middle.read_execute + (64 * column.read_execute + 4),
        all: 8 * middle.all + (64 * column.all + 5),
    })
}

/// The keys of the two halves for each permission at the upper edge. The table has the costs of the upper half by columns, one for
/// each permission at its upper edge.
#[inline(always)]
fn pass_keys(low: &Six<u32>, columns: &Six<Six<u32>>) -> Six<u32>
    requires low { AreBelow (2 ^ 23) low.now }
    requires columns { AreAllBelow (2 ^ 23) columns.now }
    ensures { (q : Perm) → at result q
        ≡ pass_key (middle_key (at low.now)) (across columns.now) q }
{
    let middle = middle_keys(low);
    Six {
        none: pass_key(&middle, &columns.none),
        read: pass_key(&middle, &columns.read),
        read_write: pass_key(&middle, &columns.read_write),
        execute: pass_key(&middle, &columns.execute),
        read_execute: pass_key(&middle, &columns.read_execute),
        all: pass_key(&middle, &columns.all),
    }
}

/// The key of an entry of the whole block, for a chain that passes under it.
#[inline(always)]
fn under_key(cover: u32, from: Perm, to: Perm) -> u32
    requires { cover < 2 ^ 23 }
    ensures { result ≡ 64 * (cover + change from to) + 48 }
{
    64 * (cover + change(from, to)) + 48
}

/// The keys of a split block for a chain that has a permission at its lower edge, for each at its upper edge.
#[inline(always)]
pub fn through_keys(low: &Six<u32>, columns: &Six<Six<u32>>, cover: u32, from: Perm) -> Six<u32>
    requires low { AreBelow (2 ^ 23) low.now }
    requires columns { AreAllBelow (2 ^ 23) columns.now }
    requires cover { cover < 2 ^ 23 }
    ensures { (q : Perm) → at result q
        ≡ through_key (at low.now) (across columns.now) cover from q }
{
    let pass = pass_keys(low, columns);
    Six {
        none: smaller(pass.none, under_key(cover, from, Perm::NoAccess)),
        read: smaller(pass.read, under_key(cover, from, Perm::Read)),
        read_write: smaller(pass.read_write, under_key(cover, from, Perm::ReadWrite)),
        execute: smaller(pass.execute, under_key(cover, from, Perm::Execute)),
        read_execute: smaller(pass.read_execute, under_key(cover, from, Perm::ReadExecute)),
        all: smaller(pass.all, under_key(cover, from, Perm::ReadWriteExecute)),
    }
}

/// The key of a split block for a chain that begins in it, by that of a beginning in its lower half.
#[inline(always)]
fn later_key(pass: u32, later: u32, cover: u32) -> u32
    requires later { later < 2 ^ 24 }
    requires cover { cover < 2 ^ 23 }
    ensures { result ≡ min pass (min (64 * later + 49) (64 * cover + 48)) }
{
    smaller(pass, smaller(64 * later + 49, 64 * cover + 48))
}

/// The keys of a split block for a chain that begins in it, for each permission at its upper edge. A beginning in the upper half
/// also pays for the lower half, which then inherits no access.
#[inline(always)]
pub fn begins_keys(
    low: &Six<u32>,
    columns: &Six<Six<u32>>,
    cover: u32,
    bare: u32,
    high: &Six<u32>,
) -> Six<u32>
    requires low { AreBelow (2 ^ 23) low.now }
    requires columns { AreAllBelow (2 ^ 23) columns.now }
    requires cover { cover < 2 ^ 23 }
    requires bare { bare < 2 ^ 23 }
    requires high { AreBelow (2 ^ 23) high.now }
    ensures { (q : Perm) → at result q
        ≡ begins_key (at low.now) (across columns.now) cover (bare + at high.now q) q }
{
    let pass = pass_keys(low, columns);
    Six {
        none: later_key(pass.none, bare + high.none, cover),
        read: later_key(pass.read, bare + high.read, cover),
        read_write: later_key(pass.read_write, bare + high.read_write, cover),
        execute: later_key(pass.execute, bare + high.execute, cover),
        read_execute: later_key(pass.read_execute, bare + high.read_execute, cover),
        all: later_key(pass.all, bare + high.all, cover),
    }
}

/// Returns the key of the best permission of an entry of the whole block. The numbers are the costs of both halves for each.
#[inline(always)]
pub fn cover_key(base: &Six<u32>) -> u32
    requires { AreBelow (2 ^ 23) base.now }
    ensures key { result ≡ cover_key (at base.now) }
    ensures most { result < 2 ^ 26 }
{
    least(&Six {
        none: 8 * base.none,
        read: 8 * base.read + 1,
        read_write: 8 * base.read_write + 2,
        execute: 8 * base.execute + 3,
        read_execute: 8 * base.read_execute + 4,
        all: 8 * base.all + 5,
    })
}

/// The keys of a split block without a chain, for each permission that it inherits.
#[inline(always)]
pub fn own_keys(base: &Six<u32>, cover: u32) -> Six<u32>
    requires base { AreBelow (2 ^ 23) base.now }
    requires cover { cover ≤ 2 ^ 23 }
    ensures { (p : Perm) → at result p ≡ own_key (at base.now) cover p }
{
    let other = 64 * cover + 1;
    Six {
        none: smaller(64 * base.none, other),
        read: smaller(64 * base.read, other),
        read_write: smaller(64 * base.read_write, other),
        execute: smaller(64 * base.execute, other),
        read_execute: smaller(64 * base.read_execute, other),
        all: smaller(64 * base.all, other),
    }
}

/// The costs of keys.
#[inline(always)]
pub fn costs_in(keys: &Six<u32>) -> Six<u32>
    ensures { (q : Perm) → at result q ≡ at keys.now q / 64 }
{
    Six {
        none: keys.none / 64,
        read: keys.read / 64,
        read_write: keys.read_write / 64,
        execute: keys.execute / 64,
        read_execute: keys.read_execute / 64,
        all: keys.all / 64,
    }
}

/// The choice of a key.
#[inline(always)]
fn choice_in(key: u32) -> u8
    ensures { result ≡ key % 64 }
{
    (key % 64) as u8
}

/// The choices of keys.
#[inline(always)]
pub fn choices_in(keys: &Six<u32>) -> Six<u8>
    ensures { (q : Perm) → at result q ≡ at keys.now q % 64 }
{
    Six {
        none: choice_in(keys.none),
        read: choice_in(keys.read),
        read_write: choice_in(keys.read_write),
        execute: choice_in(keys.execute),
        read_execute: choice_in(keys.read_execute),
        all: choice_in(keys.all),
    }
}
