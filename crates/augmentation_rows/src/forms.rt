//! The equation of each dot.
ghost use Rattle.std.specs.Prelude.{◌≡◌};
ghost use Rattle.design_meaning.specs.Equations.{augmentation, time_domain};
ghost use Rattle.augmentation_rows.specs.Sets.{set_by};
ghost use Rattle.augmentation_rows.specs.Forms.{row_by, dot_row};
ghost use Rattle.equation_values.specs.Reading.{readings_in};

use crate::set::{Augmentation, element_of};
use equation_values::EquationValues;
use expr_eval::Values;
use fix_core::Fix;
use flat_expr::Unknown;
use step_data::Element;

/// An equation in place of a dot.
#[derive(Clone, Copy)]
pub enum DotForm {
    /// An unknown has a value.
    Given(Unknown, Fix),
    /// A quantity, its dot, its value at the tip, and the step in ticks: by backward Euler.
    Euler(u32, u32, Fix, u64),
    /// A quantity, its dot, both values at the tip, and the step in ticks: by the trapezoidal rule.
    Trapezoid(u32, u32, Fix, Fix, u64),
}

/// The equation of a step.
fn step_form(tip: &EquationValues<'_>, fresh: bool, step: u64, dot: u32, quantity: u32) -> DotForm
    ensures { row_by result ≡ augmentation (time_domain (readings_in tip.now) fresh step) dot quantity }
{
    let start = tip.unknown(Unknown::Quantity(quantity));
    if fresh {
        DotForm::Euler(quantity, dot, start, step)
    } else {
        let rate = tip.unknown(Unknown::Dot(dot));
        DotForm::Trapezoid(quantity, dot, start, rate, step)
    }
}

/// The augmentation equation of a dot and its quantity.
fn set_form(set: &Augmentation<'_>, dot: u32, quantity: u32) -> DotForm
    ensures { row_by result ≡ augmentation (set_by set.now) dot quantity }
{
    match set {
        Augmentation::Quiescent => DotForm::Given(Unknown::Dot(dot), Fix::exactly(0)),
        Augmentation::Discontinuity(before) => {
            let value = before.unknown(Unknown::Quantity(quantity));
            DotForm::Given(Unknown::Quantity(quantity), value)
        }
        Augmentation::TimeDomain { tip, fresh, step } => {
            step_form(tip, *fresh, *step, dot, quantity)
        }
    }
}

/// The equation of a dot, or the break element in its place.
pub fn dot_form(set: &Augmentation<'_>, elements: &[Element], dot: u32, quantity: u32) -> DotForm
    ensures { row_by result ≡ dot_row (set_by set.now) elements.now dot quantity }
{
    match element_of(quantity, elements) {
        Some(element) => DotForm::Given(Unknown::Quantity(element.quantity), element.value),
        None => set_form(set, dot, quantity),
    }
}
