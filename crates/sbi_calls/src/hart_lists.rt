//! The list of harts in a call.

ghost use Rattle.std.specs.Prelude.{◌≡◌, ◌<◌, ◌≤◌, ◌↔◌, ℕ, IfSome};
ghost use Rattle.std.specs.Int.{bit_at};
ghost use Rattle.sbi_calls.specs.HartLists.{Names, all_harts, hart_list};

/// Returns the word with the bits of the first `count` harts.
fn all_harts(count: u64) -> u64
    requires { count ≤ 64 }
    ensures { result ≡ all_harts count }
{
    if count == 64 {
        u64::MAX
    } else {
        (1 << count) - 1
    }
}

/// Returns the harts that a mask names from a base on (SBI, chapter 3, "Hart list parameter") on a board of `count`
/// harts: hart h is bit h. A base of all ones names all harts. Returns `None` if the base or a hart of the mask is not
/// on the board.
pub fn hart_list(count: u64, mask: u64, base: u64) -> Option<u64>
    requires { count ≤ 64 }
    ensures value { result ≡ hart_list count mask base }
    ensures named { IfSome result (λ word. (hart : ℕ)
        → (bit_at word hart ≡ 1) ↔ ((hart < count) × Names mask base hart)) }
{
    if base == u64::MAX {
        return Some(all_harts(count));
    }
    if base >= count || mask > all_harts(count - base) {
        return None;
    }
    Some(mask << base)
}
