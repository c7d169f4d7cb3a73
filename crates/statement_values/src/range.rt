//! The ranges of for loops.
ghost use Rattle.std.specs.Prelude.{◌≡◌, IfSome};
ghost use Rattle.expr_eval.specs.Condition.{CanEvaluate};
ghost use Rattle.cycle_meaning.specs.Statements.{integer_of};
ghost use Rattle.statement_values.specs.LoopRanges.{range_between, loop_range, further_value, IsOnWay, RangesBeginLoops, RangesLead};

use crate::activation::{Activation, evaluated};
use ams_value::Val;
use flat_expr::{Direction, FlatExpr};
use step_data::Refusal;

/// The first and the last value of a loop's parameter.
#[derive(Clone, Copy)]
pub struct LoopRange {
    pub first: i32,
    pub last: i32,
}

fn integer(value: &Val) -> i32
    ensures { result ≡ integer_of value.now }
{
    match value {
        Val::Int(number) => *number,
        _ => 0,
    }
}

fn range_between(direction: Direction, first: i32, last: i32) -> Option<LoopRange>
    ensures { result ≡ range_between direction first last }
{
    let is_empty = match direction {
        Direction::To => last < first,
        Direction::Downto => first < last,
    };
    if is_empty {
        None
    } else {
        Some(LoopRange { first, last })
    }
}

/// The range of a for loop, none where it is empty (IEEE 1076, 10.10). The left bound is evaluated first.
pub fn loop_range<A: Activation>(
    at: &A,
    left: &FlatExpr,
    direction: Direction,
    right: &FlatExpr,
) -> Result<Option<LoopRange>, Refusal>
    requires left { CanEvaluate (A.readings at.now) left.now }
    requires right { CanEvaluate (A.readings at.now) right.now }
    ensures { result ≡ loop_range (A.context at.now) (A.local at.now) left.now direction right.now }
{
    match evaluated(at, left) {
        Ok(first) => match evaluated(at, right) {
            Ok(last) => Ok(range_between(direction, integer(&first), integer(&last))),
            Err(refusal) => Err(refusal),
        },
        Err(refusal) => Err(refusal),
    }
}

/// The value of a loop's parameter in a further turn, none behind the last one.
pub fn further_value(direction: Direction, value: i32, last: i32) -> Option<i32>
    requires { IsOnWay direction value last }
    ensures value { result ≡ further_value direction value last }
    ensures way { IfSome result (λ further. IsOnWay direction further last) }
{
    if value == last {
        return None;
    }
    match direction {
        Direction::To => Some(value + 1),
        Direction::Downto => Some(value - 1),
    }
}

/// The first value of a range is on the way to its last one. It is proved, and does nothing when it runs.
pub fn ranges_lead()
    ensures { RangesLead }
{}

/// A for loop begins with the first turn of its range. It is proved, and does nothing when it runs.
#[tactic(auto, using(crate::proofs::RangeLaws::ranges))]
pub fn ranges_begin_loops()
    ensures { RangesBeginLoops }
{}
