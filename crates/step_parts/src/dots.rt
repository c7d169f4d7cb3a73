//! The derivatives among the unknowns.
ghost use Rattle.std.specs.Prelude.{◌≡◌, ◌≤◌, drop, length};

use ams_point::Point;
use fix_core::Fix;

/// The values of the dots of a point: all behind those of the quantities and the references, which are this many.
pub fn dots_of(x: &Point, others: usize) -> &[Fix]
    requires { others ≤ length x.now }
    ensures { result.now ≡ drop others x.now }
{
    let (_, dots) = x.as_slice().split_at(others);
    dots
}
