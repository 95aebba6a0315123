//! Reads OpenSBI's boot log as a listing, line by line.

ghost use Rattle.std.specs.Prelude.{◌≡◌, ◌-◌, ◌^◌, ◌<◌, ◌≤◌, IfErr, IfOk, IfSome, Some, length};
ghost use Rattle.std.specs.Option.{option_and_then};
ghost use Rattle.pmp_encoding.specs.declared.xlen.Xlen.{Xlen};
ghost use Rattle.std.specs.Result.{result_ok};
ghost use Rattle.register_audit.specs.Lines.{IsInside, limit_setting, log_sets, region_setting};
ghost use Rattle.register_audit.specs.LogLines.{log_says};
ghost use Rattle.register_audit.specs.RegisterListings.{IsFirstUnknownBy, listed_by, sets_next};
ghost use Rattle.text_lines.specs.Lines.{raw_lines};

use crate::lines::count_in;
use crate::listing::Left;
use crate::log_says;
use crate::setting::{Setting, nothing_set};
use pmp_encoding::Xlen;
use text_lines::{NotUnderstood, numeral, split_line};

/// Returns the setting of a stated number of PMP entries.
fn limit_setting(digits: &[u8]) -> Option<Setting>
    ensures value { result ≡ limit_setting digits.now }
    ensures inside { (xlen : Xlen) → IfSome result (IsInside xlen) }
{
    let entries = numeral(digits, 10)?;
    Some(Setting::Limit { entries })
}

/// Parses a line of a boot log that follows `next` regions.
fn log_sets(xlen: Xlen, next: u64, raw: &[u8]) -> Result<Setting, NotUnderstood>
    ensures value { result_ok result ≡ log_sets xlen next raw.now }
    ensures inside { IfOk result (IsInside xlen) }
{
    if let Some(digits) = count_in(raw) {
        return match limit_setting(digits) {
            Some(setting) => Ok(setting),
            None => Err(NotUnderstood),
        };
    }
    region_sets(xlen, next, raw)
}

/// Parses a line of a boot log that does not state the number of PMP entries.
fn region_sets(xlen: Xlen, next: u64, raw: &[u8]) -> Result<Setting, NotUnderstood>
    ensures value { result_ok result
        ≡ option_and_then (region_setting next) (log_says xlen raw.now) }
    ensures inside { IfOk result (IsInside xlen) }
{
    match log_says(xlen, raw)? {
        Some(entry) => {
            if entry.place as u64 != next {
                return Err(NotUnderstood);
            }
            Ok(Setting::Pair {
                place: entry.place,
                cfg: entry.cfg,
                address: entry.address,
            })
        }
        None => Ok(Setting::Nothing),
    }
}

/// Reads the lines of a boot log.
pub(crate) fn log_listing(xlen: Xlen, bytes: &[u8]) -> Result<Left, u64>
    requires { length bytes.now < 2 ^ 64 - 1 }
    ensures listing { IfOk result (λ left.
        listed_by xlen (sets_next xlen) bytes.now ≡ Some left.listing) }
    ensures lines { IfOk result (λ left. left.lines ≡ length (raw_lines bytes.now)) }
    ensures few { IfOk result (λ left. left.lines ≤ length bytes.now) }
    ensures unknown { IfErr result (IsFirstUnknownBy xlen (sets_next xlen) bytes.now) }
{
    let mut listing = nothing_set(xlen);
    let mut rest = bytes;
    let mut number: u64 = 0;
    while !rest.is_empty() {
        let (raw, behind) = split_line(rest);
        number += 1;
        let Ok(setting) = log_sets(xlen, listing.pairs, raw) else {
            return Err(number);
        };
        if !setting.agrees(&listing) {
            return Err(number);
        }
        listing = setting.of(&listing, number);
        rest = behind;
    }
    Ok(Left {
        listing,
        lines: number,
    })
}
