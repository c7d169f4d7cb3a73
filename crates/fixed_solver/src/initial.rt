//! The values before the first solution.
ghost use Rattle.std.specs.Prelude.{◌≡◌, length, map, pos, slice_index_or};
ghost use Rattle.flat_design.specs.declared.objects.Quantity.{Quantity};
ghost use Rattle.flat_design.specs.Order.{unknown_count};
ghost use Rattle.system_model.specs.System.{initial_values};

use ams_point::Point;
use fix_core::Fix;
use flat_design::{Flat, Quantity};

/// The value of an unknown: a quantity has its initial value, a reference or a dot 0.0.
fn initial_value(quantities: &[Quantity], number: usize) -> Fix
    ensures { result ≡ slice_index_or (map (λ (q : Quantity). q.initial) quantities.now) number (pos 0) }
{
    match quantities.get(number) {
        Some(quantity) => quantity.initial,
        None => Fix::exactly(0),
    }
}

/// Writes the values of all unknowns of a design.
pub fn write_initial(flat: &Flat, out: &mut Point)
    requires { length out.old ≡ unknown_count flat.now }
    ensures { out.new ≡ initial_values flat.now }
{
    let quantities = flat.quantities();
    for i in 0..out.len() {
        out.set(i, initial_value(quantities, i));
    }
}
