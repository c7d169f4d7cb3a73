//! A quotient of two quantities.
ghost use Rattle.std.specs.Prelude.{◌≡◌, ◌≤◌, IfOk, length};
ghost use Rattle.fix_core.specs.Units.{most_ticks};
ghost use Rattle.flat_expr.specs.declared.expr.FlatExpr.TheVariants as e;
ghost use Rattle.flat_expr.specs.declared.expr.Unknown.TheVariants.{Quantity};

use ams_value::{BinaryOperator, Val, ValueType};
use design_meaning::EvalFault;
use expr_eval::Values;
use fix_core::{Fix, Tick};
use flat_expr::{FlatExpr, SignalName, Unknown};
use slope::slopes;
use std::alloc::{AllocError, Global};
use std::test::Fail;

/// The values of two quantities, at a time.
#[derive(Drop)]
struct Two {
    first: Fix,
    second: Fix,
    time: Tick,
}

impl Values for Two {
    ghost use Rattle.std.specs.Prelude.{[], ◌∷◌};
    ghost use Rattle.ams_value.specs.declared.val.Val.TheVariants as val;
    ghost use Rattle.design_meaning.specs.Readings.{Readings, still};

    ghost readings = { λ two. record { signals = []; thresholds = []; domain = still (val.Enum 0 0); quantities = two.first ∷ two.second ∷ []; references = []; dots = []; variables = []; now = two.time } };

    fn signal(&self, name: SignalName) -> Val {
        match name {
            SignalName::Domain => Val::Enum(0, 0),
            _ => Val::Bool(false),
        }
    }

    fn event(&self, _name: SignalName) -> bool {
        false
    }

    fn unknown(&self, unknown: Unknown) -> Fix {
        match unknown {
            Unknown::Quantity(0) => self.first,
            Unknown::Quantity(1) => self.second,
            _ => Fix::exactly(0),
        }
    }

    fn variable(&self, _number: u32) -> Val {
        Val::Bool(false)
    }

    fn time(&self) -> Tick {
        self.time
    }
}

/// The quotient of the two quantities.
fn quotient(alloc: Global) -> Result<FlatExpr, AllocError>
    ensures { IfOk result (λ made. made ≡ e.Binary BinaryOperator.Divide ValueType.Real (e.Unknown (Quantity 0)) (e.Unknown (Quantity 1))) }
{
    FlatExpr::binary(
        alloc,
        BinaryOperator::Divide,
        ValueType::Real,
        FlatExpr::Unknown(Unknown::Quantity(0)),
        FlatExpr::Unknown(Unknown::Quantity(1)),
    )
}

/// The value and the slopes of the quotient where the quantities have these values.
fn slopes_at(
    quotient: &FlatExpr,
    first: Fix,
    second: Fix,
    time: Tick,
    out: &mut [Fix],
) -> Result<Fix, EvalFault>
    requires quotient { quotient.now ≡ e.Binary BinaryOperator.Divide ValueType.Real (e.Unknown (Quantity 0)) (e.Unknown (Quantity 1)) }
    requires time { time ≤ most_ticks }
    requires places { length out.old ≡ 2 }
{
    let at = Two {
        first,
        second,
        time,
    };
    let unknowns = [Unknown::Quantity(0), Unknown::Quantity(1)];
    slopes(quotient, &unknowns, &at, out)
}

fn hundredths(n: i32) -> Fix {
    Fix::exactly(i128::from(n) * 10_000_000_000)
}

/// At 3.0 / 2.0 the slopes are 1 / 2.0 and -1.5 / 2.0; at 3.0 / 0.0 there are none.
#[test]
fn a_quotient_has_two_slopes(rt: HostRuntime) -> Result<(), Fail> {
    let expr = quotient(rt.alloc())?;
    let time = Tick::new(0).ok_or("a time")?;
    let mut out = [hundredths(700), hundredths(700)];
    let value = slopes_at(&expr, hundredths(300), hundredths(200), time, &mut out);
    assert!(rt; value == Ok(hundredths(150)));
    let expected = [hundredths(50), hundredths(-75)];
    assert!(rt; out.as_slice() == expected.as_slice());
    let value = slopes_at(&expr, hundredths(300), hundredths(0), time, &mut out);
    assert!(rt; value == Err(EvalFault::DivideByZero));
    let expected = [hundredths(0), hundredths(0)];
    assert!(rt; out.as_slice() == expected.as_slice());
    Ok(())
}
