//! The order of broken rules.
ghost use Rattle.std.specs.Prelude.{◌≡◌};
ghost use Rattle.elab_meaning.specs.Notes as spec;
ghost use Rattle.fault_order.specs.Stages.{tells};

use ams_token::Place;
use elab_meaning::{Cause, Fault};

/// A stage that answers the first of some broken rules.
#[derive(Clone, Copy, Debug, PartialEq, Eq)]
pub enum Stage {
    Types,
    Natures,
    Instances,
}

/// The number of the message of a broken rule.
pub fn code_of(cause: Cause) -> u8
    ensures { result ≡ spec.code_of cause }
{
    match cause {
        Cause::Unknown(_) => message_codes::UNKNOWN_NAME,
        Cause::WrongType => message_codes::WRONG_TYPE,
        Cause::NotStatic => message_codes::NOT_STATIC,
        Cause::Duplicate(_) => message_codes::DUPLICATE,
        Cause::NatureMismatch => message_codes::NATURE_MISMATCH,
        Cause::UnequalBranches => message_codes::UNEQUAL_BRANCHES,
    }
}

fn stands_before(place: Place, other: Place) -> bool
    ensures { result ≡ spec.stands_before place other }
{
    place.line < other.line || place.line == other.line && place.column < other.column
}

fn is_before(fault: &Fault, other: &Fault) -> bool
    ensures { result ≡ spec.is_before fault.now other.now }
{
    stands_before(fault.place, other.place)
        || fault.place == other.place && code_of(fault.cause) < code_of(other.cause)
}

fn is_told(stage: Stage, cause: Cause) -> bool
    ensures { result ≡ tells stage cause }
{
    match stage {
        Stage::Types => !matches!(cause, Cause::NatureMismatch),
        Stage::Natures => matches!(cause, Cause::NatureMismatch),
        Stage::Instances => matches!(cause, Cause::WrongType),
    }
}

fn first_of(first: Option<Fault>, fault: Fault) -> Option<Fault>
    ensures { result ≡ spec.first_of first fault }
{
    match first {
        Some(other) => {
            if is_before(&fault, &other) {
                Some(fault)
            } else {
                Some(other)
            }
        }
        None => Some(fault),
    }
}

fn first_told(stage: Stage, first: Option<Fault>, fault: Fault) -> Option<Fault>
    ensures { result ≡ spec.if_told (tells stage) first fault }
{
    if is_told(stage, fault.cause) {
        first_of(first, fault)
    } else {
        first
    }
}

/// The first broken rule in text order among those that the stage answers; of two at one place the one with the lower
/// number.
pub fn first_fault(stage: Stage, faults: &[Fault]) -> Option<Fault>
    ensures { result ≡ spec.first_fault (tells stage) faults.now }
{
    let mut first = None;
    for fault in faults {
        first = first_told(stage, first, *fault);
    }
    first
}
