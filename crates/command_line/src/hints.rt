//! The setting for hints, which explain the faults of an input after the error message.

ghost use Rattle.std.specs.Prelude.{◌≡◌, ◌≢◌, [], ◌∷◌, IfErr, IfOk, IfSome, None, Some, codes};
ghost use Rattle.command_line.specs.declared.hints.Hints.{Hints};
ghost use Rattle.command_line.specs.Faults.{IsFirst};
ghost use Rattle.command_line.specs.Faults.Demand.{has, names_hints};
ghost use Rattle.command_line.specs.Hints.{are_told, hints_word};
ghost use Rattle.command_line.specs.Given.{flags_of, values_of};

use crate::fault::Fault;
use crate::values::value_in;
use clap::ArgMatches;

/// The setting for when hints are printed.
#[derive(Clone, Copy, PartialEq, Eq)]
pub enum Hints {
    /// If standard error is a terminal.
    Auto,
    /// Always.
    Always,
    /// Never.
    Never,
}

impl Hints {
    /// Returns whether hints are printed, given whether standard error is a terminal.
    pub fn are_told(self, is_terminal: bool) -> bool
        ensures { result ≡ are_told self is_terminal }
    {
        match self {
            Hints::Auto => is_terminal,
            Hints::Always => true,
            Hints::Never => false,
        }
    }
}

/// Parses the word for when hints are printed.
fn hints_of(word: &str) -> Option<Hints>
    ensures some { IfSome result (λ hints. word.now ≡ hints_word hints) }
    ensures none { result ≡ None → (hints : Hints) → word.now ≢ hints_word hints }
{
    if word == "auto" {
        return Some(Hints::Auto);
    }
    if word == "always" {
        return Some(Hints::Always);
    }
    if word == "never" {
        return Some(Hints::Never);
    }
    None
}

/// Returns the value of `--hints`.
pub(crate) fn hints_in<'a>(given: &ArgMatches<'a>) -> Result<Hints, Fault<'a>>
    ensures value { IfOk result (λ hints.
        values_of given.now (codes "hints") ≡ Some (hints_word hints)) }
    ensures other { IfErr result (λ _.
        (hints : Hints) → values_of given.now (codes "hints") ≢ Some (hints_word hints)) }
    ensures fault { IfErr result (IsFirst (values_of given.now) (flags_of given.now)
        (has (codes "hints") ∷ names_hints ∷ [])) }
{
    let word = value_in(given, "hints")?;
    match hints_of(word) {
        Some(hints) => Ok(hints),
        None => Err(Fault::Hints(word)),
    }
}
