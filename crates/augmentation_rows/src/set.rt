//! The augmentation sets.
ghost use Rattle.std.specs.Prelude.{◌≡◌};
ghost use Rattle.design_meaning.specs.Equations.{element_of};

use equation_values::EquationValues;
use step_data::Element;

/// Which augmentation set, and the values that it starts from.
#[derive(Clone, Copy)]
pub enum Augmentation<'a> {
    Quiescent,
    /// At a discontinuity, with the values just before.
    Discontinuity(EquationValues<'a>),
    /// In the time domain: a step of so many ticks from a tip of these values, by backward Euler where it is fresh, else by
    /// the trapezoidal rule.
    TimeDomain {
        tip: EquationValues<'a>,
        fresh: bool,
        step: u64,
    },
}

/// The last element for this selector.
pub fn element_of(selector: u32, elements: &[Element]) -> Option<Element>
    ensures { result ≡ element_of selector elements.now }
{
    match elements {
        [] => None,
        [first, rest @ ..] => match element_of(selector, rest) {
            Some(later) => Some(later),
            None => {
                if first.selector == selector {
                    Some(*first)
                } else {
                    None
                }
            }
        },
    }
}
