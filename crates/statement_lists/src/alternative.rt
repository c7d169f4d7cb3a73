//! Alternatives of a case.
ghost use Rattle.std.specs.Prelude.{◌≡◌};
ghost use Rattle.std.specs.List.{position};
ghost use Rattle.statement_lists.specs.Alternatives.{names, has_others, alternative_number, AlternativesAreTaken};

use ams_value::{Val, equal};
use flat_expr::Alternative;

fn names(alternative: &Alternative, value: &Val) -> bool
    ensures { result ≡ names value.now alternative.now }
{
    alternative
        .choices
        .as_slice()
        .iter()
        .any(|choice| equal(*value, *choice))
}

fn has_others(alternative: &Alternative) -> bool
    ensures { result ≡ has_others alternative.now }
{
    alternative.others
}

fn number_naming(alternatives: &[Alternative], value: &Val) -> Option<usize>
    ensures { result ≡ position (names value.now) alternatives.now }
{
    alternatives
        .iter()
        .position(|alternative| names(alternative, value))
}

fn number_of_others(alternatives: &[Alternative]) -> Option<usize>
    ensures { result ≡ position has_others alternatives.now }
{
    alternatives
        .iter()
        .position(|alternative| has_others(alternative))
}

/// The number of the alternative that names the value, else of the one with `others` (IEEE 1076, 10.9).
pub fn alternative_number(alternatives: &[Alternative], value: Val) -> Option<usize>
    ensures { result ≡ alternative_number alternatives.now value }
{
    match number_naming(alternatives, &value) {
        Some(number) => Some(number),
        None => number_of_others(alternatives),
    }
}

/// A case leads to the statements of the alternative with that number. It is proved, and does nothing when it runs.
#[tactic(auto, using(crate::proofs::Chosen::alternatives))]
pub fn alternatives_are_taken()
    ensures { AlternativesAreTaken }
{}
