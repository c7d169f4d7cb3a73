//! The residuals of these equations.
ghost use Rattle.std.specs.Prelude.{◌≡◌, pos};
ghost use Rattle.flat_expr.specs.declared.expr.Unknown.TheVariants.{Quantity};
ghost use Rattle.design_meaning.specs.Readings.{unknown_of};
ghost use Rattle.design_meaning.specs.Equations.{ended, balance_from, reference_of, residual_of, difference};
ghost use Rattle.equation_values.specs.Reading.{readings_in};
ghost use Rattle.common_rows.specs.Forms.{row_by};

use crate::ends::NodeEnd;
use crate::forms::CommonForm;
use design_meaning::EvalFault;
use equation_values::EquationValues;
use expr_eval::{Values, number};
use fix_core::Fix;
use flat_design::Terminal;
use flat_expr::Unknown;

/// A total with a further branch end.
fn with_end(end: &NodeEnd, total: Fix, values: &EquationValues<'_>) -> Result<Fix, EvalFault>
    ensures { result ≡ ended end.now total (unknown_of (readings_in values.now) (Quantity end.now.quantity)) }
{
    let value = values.unknown(Unknown::Quantity(end.quantity));
    if end.minus_end {
        number(total.sub(value))
    } else {
        number(total.add(value))
    }
}

/// The sum of the branch ends at a node.
fn sum_residual(ends: &[NodeEnd], values: &EquationValues<'_>) -> Result<Fix, EvalFault>
    ensures { result ≡ balance_from (readings_in values.now) (pos 0) ends.now }
{
    let mut total = Fix::exactly(0);
    for i in 0..ends.len() {
        total = with_end(&ends[i], total, values)?;
    }
    Ok(total)
}

/// The reference quantity of a terminal.
fn reference(terminal: Terminal, values: &EquationValues<'_>) -> Fix
    ensures { result ≡ reference_of (readings_in values.now) terminal }
{
    match terminal {
        Terminal::Node(i) => values.unknown(Unknown::Reference(i)),
        Terminal::Reference => Fix::exactly(0),
    }
}

/// An across quantity less the difference of its terminals' references.
fn difference_residual(
    quantity: u32,
    plus: Terminal,
    minus: Terminal,
    values: &EquationValues<'_>,
) -> Result<Fix, EvalFault>
    ensures { result ≡ residual_of (difference quantity plus minus) (readings_in values.now) }
{
    let between = number(reference(plus, values).sub(reference(minus, values)))?;
    number(values.unknown(Unknown::Quantity(quantity)).sub(between))
}

/// The left side of an equation less the right one.
pub fn residual(form: &CommonForm, values: &EquationValues<'_>) -> Result<Fix, EvalFault>
    ensures { result ≡ residual_of (row_by form.now) (readings_in values.now) }
{
    match form {
        CommonForm::Sum(ends) => sum_residual(ends.as_slice(), values),
        CommonForm::Difference(quantity, plus, minus) => {
            difference_residual(*quantity, *plus, *minus, values)
        }
    }
}
