//! Look-ups in a document.

ghost use Rattle.std.specs.Prelude.{◌≡◌, ◌≢◌, map, option_map, false, true, IfSome, None};
ghost use Rattle.toml.specs.Data.{get_member};
ghost use Rattle.toml.specs.View.{table_view, view};
ghost use Rattle.input_files.specs.Document.{has_only, is_known, number, perm_of};

use pmp_encoding::Perm;
use toml::{Table, Value};

/// Returns whether the key is one of the names.
fn is_known(key: &str, names: &[&str]) -> bool
    ensures { result ≡ is_known key.now (map (λ name. name.now) names.now) }
{
    for name in names {
        if key == *name {
            return true;
        }
    }
    false
}

/// Returns the first key of a table that is not one of the names.
pub(crate) fn unknown_key<'a>(table: &'a Table, names: &[&str]) -> Option<&'a str>
    ensures some { IfSome result (λ key.
        (get_member key.now (table_view table.now) ≢ None)
        × (is_known key.now (map (λ name. name.now) names.now) ≡ false)) }
    ensures none { result ≡ None
        → has_only (map (λ name. name.now) names.now) (table_view table.now) ≡ true }
{
    'keys: for (key, _value) in table.iter() {
        if !is_known(key.as_str(), names) {
            return Some(key.as_str());
        }
    }
    None
}

/// Returns the value at a key.
pub(crate) fn value_at<'a>(table: &'a Table, key: &str) -> Option<&'a Value>
    ensures { option_map (λ value. view value.now) result
        ≡ get_member key.now (table_view table.now) }
{
    table.get(key)
}

/// Returns a value as a whole number from 0.
pub(crate) fn number(value: &Value) -> Option<u64>
    ensures { result ≡ number (view value.now) }
{
    let n = value.as_integer()?;
    if n < 0 {
        return None;
    }
    Some(n as u64)
}

/// Returns the permission that a text names.
pub(crate) fn perm_of(value: &Value) -> Option<Perm>
    ensures { result ≡ perm_of (view value.now) }
{
    let word = value.as_str()?;
    Perm::from_word(word.as_bytes())
}
