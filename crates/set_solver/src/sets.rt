//! The sets that are solved.
ghost use Rattle.std.specs.Prelude.{◌≡◌, ◌+◌, ◌≤◌, IsTrue, length, OnErr};
ghost use Rattle.std.specs.List.{All};
ghost use Rattle.fix_core.specs.Passes.{answer};
ghost use Rattle.flat_design.specs.Order.{unknown_count};
ghost use Rattle.step_data.specs.declared.outcome.ChooseKind.TheVariants.{Timed};
ghost use Rattle.step_data.specs.declared.outcome.SetKind.TheVariants.{Quiescent, Discontinuity};
ghost use Rattle.system_model.specs.System.{is_element};
ghost use Rattle.design_meaning.specs.Equations.{time_domain};
ghost use Rattle.design_meaning.specs.Newton.{newton};
ghost use Rattle.design_meaning.specs.Reading.{dots_in, readings_of};
ghost use Rattle.design_meaning.specs.Solutions.{stepped_problem, settled_problem};
ghost use Rattle.design_meaning.specs.Steps.{rounds, kind_of_set, step_error};
ghost use Rattle.design_rules.specs.Rows.{AreBranches};
ghost use Rattle.equation_values.specs.Evaluable.{IsFrame};
ghost use Rattle.augmentation_rows.specs.Sets.{set_by, HasStep};

use ams_point::Point;
use augmentation_rows::Augmentation;
use equation_system::{EquationSystem, PosedSet};
use fix_core::Tick;
use flat_design::Flat;
use newton_rounds::Newton;
use step_data::{Cause, ChooseKind, Element, Frame, Options, SetKind, Tip};
use step_parts::{dots_of, step_error};

/// What a solution stands on: the prepared design, the options, a frame, and the branches that were chosen.
#[derive(Clone, Copy)]
pub struct Basis<'s> {
    pub system: &'s EquationSystem<'s>,
    pub options: &'s Options,
    pub frame: &'s Frame,
    pub branches: &'s [u32],
}

/// The time behind a step.
fn after(t: Tick, s: u64) -> Tick
    requires time { t ≤ 1000000000000000 }
    requires step { s ≤ 1000000000000 }
    ensures { result ≡ t + s }
{
    Tick::new(t.get() + s).unwrap()
}

/// The augmentation set of a step of so many ticks from a tip.
fn step_augmentation<'s>(basis: &Basis<'s>, tip: &'s Tip, s: u64) -> Augmentation<'s>
    requires frame { IsFrame basis.now.system.now basis.now.frame.now }
    requires point { length tip.now.x ≡ unknown_count basis.now.system.now }
    requires step { s ≤ 1000000000000 }
    ensures set { set_by result ≡ time_domain (readings_of basis.now.system.now basis.now.frame.now Timed tip.now.t tip.now.x) tip.now.fresh s }
    ensures step { HasStep result }
{
    let at_tip = basis
        .system
        .values(basis.frame, ChooseKind::Timed, tip.t, &tip.x);
    Augmentation::TimeDomain {
        tip: at_tip,
        fresh: tip.fresh,
        step: s,
    }
}

/// Solves the set of a step of so many ticks from a tip, with the branches that were chosen at the tip. Where it is refused,
/// nothing is said of `out` but its length.
pub fn solve_step(
    basis: &Basis<'_>,
    method: &mut Newton,
    tip: &Tip,
    s: u64,
    out: &mut Point,
) -> Result<(), Cause>
    requires frame { IsFrame basis.now.system.now basis.now.frame.now }
    requires branches { AreBranches basis.now.system.now.equations basis.now.branches.now }
    requires size { method.old ≡ unknown_count basis.now.system.now }
    requires point { length tip.now.x ≡ unknown_count basis.now.system.now }
    requires room { length out.old ≡ unknown_count basis.now.system.now }
    requires time { tip.now.t ≤ 1000000000000000 }
    requires step { s ≤ 1000000000000 }
    ensures answer { newton rounds (stepped_problem basis.now.system.now basis.now.options.now basis.now.frame.now tip.now s basis.now.branches.now) tip.now.x ≡ answer result out.new }
    ensures length { length out.new ≡ length tip.now.x }
    ensures size { method.new ≡ method.old }
{
    let set = step_augmentation(basis, tip, s);
    let end = after(tip.t, s);
    let posed = PosedSet::new(
        basis.system,
        basis.frame,
        ChooseKind::Timed,
        end,
        &set,
        &[],
        basis.branches,
        basis.options.tol,
    );
    method.solve(&posed, &tip.x, out)
}

/// For which value of DOMAIN a set holds.
pub fn kind_of(set: SetKind) -> ChooseKind
    ensures { result ≡ kind_of_set set }
{
    match set {
        SetKind::Quiescent => ChooseKind::Quiet,
        SetKind::Discontinuity => ChooseKind::Timed,
    }
}

/// Solves the quiescent set at one time from the values just before.
fn solve_quiescent(
    basis: &Basis<'_>,
    method: &mut Newton,
    t: Tick,
    elements: &[Element],
    before: &Point,
    x: &mut Point,
) -> Result<(), Cause>
    requires frame { IsFrame basis.now.system.now basis.now.frame.now }
    requires branches { AreBranches basis.now.system.now.equations basis.now.branches.now }
    requires elements { All (λ e. IsTrue (is_element basis.now.system.now e)) elements.now }
    requires size { method.old ≡ unknown_count basis.now.system.now }
    requires point { length before.now ≡ unknown_count basis.now.system.now }
    requires room { length x.old ≡ unknown_count basis.now.system.now }
    ensures answer { newton rounds (settled_problem basis.now.system.now basis.now.options.now basis.now.frame.now t Quiescent elements.now before.now basis.now.branches.now) before.now ≡ answer result x.new }
    ensures kept { OnErr result (x.new ≡ before.now) }
    ensures length { length x.new ≡ length before.now }
    ensures size { method.new ≡ method.old }
{
    let posed = PosedSet::new(
        basis.system,
        basis.frame,
        ChooseKind::Quiet,
        t,
        &Augmentation::Quiescent,
        elements,
        basis.branches,
        basis.options.tol,
    );
    method.solve(&posed, before, x)
}

/// Solves the set of a discontinuity at one time from the values just before.
fn solve_discontinuity(
    basis: &Basis<'_>,
    method: &mut Newton,
    t: Tick,
    elements: &[Element],
    before: &Point,
    x: &mut Point,
) -> Result<(), Cause>
    requires frame { IsFrame basis.now.system.now basis.now.frame.now }
    requires branches { AreBranches basis.now.system.now.equations basis.now.branches.now }
    requires elements { All (λ e. IsTrue (is_element basis.now.system.now e)) elements.now }
    requires size { method.old ≡ unknown_count basis.now.system.now }
    requires point { length before.now ≡ unknown_count basis.now.system.now }
    requires room { length x.old ≡ unknown_count basis.now.system.now }
    ensures answer { newton rounds (settled_problem basis.now.system.now basis.now.options.now basis.now.frame.now t Discontinuity elements.now before.now basis.now.branches.now) before.now ≡ answer result x.new }
    ensures kept { OnErr result (x.new ≡ before.now) }
    ensures length { length x.new ≡ length before.now }
    ensures size { method.new ≡ method.old }
{
    let kind = ChooseKind::Timed;
    let just_before = basis.system.values(basis.frame, kind, t, before);
    let set = Augmentation::Discontinuity(just_before);
    let posed = PosedSet::new(
        basis.system,
        basis.frame,
        kind,
        t,
        &set,
        elements,
        basis.branches,
        basis.options.tol,
    );
    method.solve(&posed, before, x)
}

/// Solves a set at one time from the values just before, with its break elements and the branches that were chosen there.
/// Where it is refused, `x` has the values just before.
pub fn solve_at(
    basis: &Basis<'_>,
    method: &mut Newton,
    t: Tick,
    set: SetKind,
    elements: &[Element],
    before: &Point,
    x: &mut Point,
) -> Result<(), Cause>
    requires frame { IsFrame basis.now.system.now basis.now.frame.now }
    requires branches { AreBranches basis.now.system.now.equations basis.now.branches.now }
    requires elements { All (λ e. IsTrue (is_element basis.now.system.now e)) elements.now }
    requires size { method.old ≡ unknown_count basis.now.system.now }
    requires point { length before.now ≡ unknown_count basis.now.system.now }
    requires room { length x.old ≡ unknown_count basis.now.system.now }
    ensures answer { newton rounds (settled_problem basis.now.system.now basis.now.options.now basis.now.frame.now t set elements.now before.now basis.now.branches.now) before.now ≡ answer result x.new }
    ensures kept { OnErr result (x.new ≡ before.now) }
    ensures length { length x.new ≡ length before.now }
    ensures size { method.new ≡ method.old }
{
    match set {
        SetKind::Quiescent => solve_quiescent(basis, method, t, elements, before, x),
        SetKind::Discontinuity => solve_discontinuity(basis, method, t, elements, before, x),
    }
}

/// The error of a step between two points of a design, in units of 10^-12.
pub fn error_between(flat: &Flat, s: u64, before: &Point, after: &Point) -> u128
    requires step { s ≤ 1000000000000 }
    requires before { length before.now ≡ unknown_count flat.now }
    requires after { length after.now ≡ unknown_count flat.now }
    ensures { result ≡ step_error s (dots_in flat.now before.now) (dots_in flat.now after.now) }
{
    let others = flat.quantities().len() + flat.nodes().len();
    step_error(s, dots_of(before, others), dots_of(after, others))
}
