//! Looks up the values that `clap` found among the words of a subcommand.

ghost use Rattle.std.specs.Prelude.{◌≡◌, ◌↔◌, Some, codes, option_map, true};
ghost use Rattle.clap.specs.Words.{first_of, found_of, rows_of};
ghost use Rattle.command_line.specs.Given.{flags_of, second_of, values_of};

use crate::monitor::SIZE_NAME;
use clap::ArgMatches;

/// Returns the first value of the argument with this name.
fn first_in<'a>(given: &ArgMatches<'a>, name: &str) -> Option<&'a str>
    ensures { option_map (λ s. s.now) result
        ≡ first_of name.now (rows_of (found_of given.now)) }
{
    given.get_str(name)
}

/// Returns the second value of the argument with this name.
fn second_in<'a>(given: &ArgMatches<'a>, name: &str) -> Option<&'a str>
    ensures { option_map (λ s. s.now) result
        ≡ second_of name.now (rows_of (found_of given.now)) }
{
    let Some(values) = given.get_strs(name) else {
        return None;
    };
    values.get(1).copied()
}

/// Returns the value of the argument with this name, if it has one.
#[tactic(auto, unfolding(crate::specs::Given::values_of))]
pub(crate) fn word_in<'a>(given: &ArgMatches<'a>, name: &str) -> Option<&'a str>
    ensures { option_map (λ s. s.now) result ≡ values_of given.now name.now }
{
    if name == SIZE_NAME {
        return second_in(given, "monitor");
    }
    first_in(given, name)
}

/// Returns whether the flag with this name was given.
pub(crate) fn is_given(given: &ArgMatches<'_>, name: &str) -> bool
    ensures { (result ≡ true) ↔ (flags_of given.now name.now ≡ Some (codes "true")) }
{
    let flag: Option<bool> = given.get_one(name);
    flag.unwrap_or(false)
}
