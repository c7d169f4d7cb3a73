//! Where an engine begins.

ghost use Rattle.std.specs.Prelude.{◌≡◌, ◌<◌, ◌^◌, length, IfOk, IsTrue, true};
ghost use Rattle.step_data.specs.Options.{IsAllowed};
ghost use Rattle.step_model.specs.declared.kernel_stage.KernelStage.TheVariants.{Unstarted};
ghost use Rattle.run_place.specs.Budgets.{delta_budget, run_budget};
ghost use Rattle.mixed_cycle.specs.First.{FirstPlace, HasLengths, IsSupplied, Begun};

use crate::machine::{Awaited, Machine};
use above_events::Locate;
use fix_core::Tick;
use run_place::{RunPlace, Stage};
use std::alloc::{AllocError, Global};
use std::marker::PhantomData;
use step_data::{Attempt, BreakList, Choices, Frame, Options, Point, Tip};
use step_model::{Design, Kernel, Stepper};

/// The most cycles, and the most attempts, side steps and probes together.
pub const BUDGET: u32 = 200_000;

/// A fresh tip at time 0 with these values.
fn first_tip(alloc: Global, x: &Point, h0: u64) -> Result<Tip, AllocError>
    ensures { IfOk result (λ tip. tip ≡ record { t = 0; x = x.now; h = h0; fresh = true }) }
{
    let mut tip = Tip::blank(alloc, x.len())?;
    tip.x.copy_from(x);
    tip.h = h0;
    Ok(tip)
}

/// The place before the start, with these values.
fn first_place(
    alloc: Global,
    options: &Options,
    point: Point,
    frame_len: usize,
    choices: usize,
) -> Result<RunPlace, AllocError>
    requires { IsAllowed options.now }
    ensures { IfOk result (FirstPlace options.now point frame_len choices) }
{
    let tip = first_tip(alloc, &point, options.h0)?;
    let at_hi = Point::new(alloc, point.len())?;
    let solved = Frame::new(alloc, frame_len)?;
    let branches = Choices::new(alloc, choices)?;
    Ok(RunPlace {
        stage: Stage::Unstarted,
        cycles_left: BUDGET,
        tries_left: BUDGET,
        time: Tick::new(0).unwrap(),
        delta: 0,
        timed: false,
        broke: false,
        point,
        tip,
        is_solved: false,
        solved,
        gathered: BreakList::new(alloc),
        has_branches: false,
        branches,
        search: Locate::new(Tick::new(0).unwrap(), Tick::new(1).unwrap(), options.xres),
        at_hi,
    })
}

/// What the moves of a machine need again and again.
#[derive(Drop)]
pub struct Room {
    pub asked: Tip,
    pub made: Attempt,
    pub x: Point,
    pub branches: Choices,
    pub new_frame: Frame,
}

/// All of a machine before the start but its two sides.
#[derive(Drop)]
pub struct Supplies {
    pub place: RunPlace,
    pub frame: Frame,
    pub room: Room,
}

/// Room for so many unknowns, values of a frame and choices.
fn first_room(
    alloc: Global,
    unknowns: usize,
    frame_len: usize,
    choices: usize,
) -> Result<Room, AllocError>
    ensures { IfOk result (HasLengths unknowns frame_len choices) }
{
    let asked = Tip::blank(alloc, unknowns)?;
    let made = Attempt::blank(alloc, unknowns)?;
    let x = Point::new(alloc, unknowns)?;
    let branches = Choices::new(alloc, choices)?;
    let new_frame = Frame::new(alloc, frame_len)?;
    Ok(Room {
        asked,
        made,
        x,
        branches,
        new_frame,
    })
}

/// The values before the first solution.
fn first_point<D: Design, S: Stepper<D>>(alloc: Global, stepper: &S) -> Result<Point, AllocError>
    requires { S.part stepper.now ≡ 0 }
    ensures value { IfOk result (λ point. point ≡ (D.system 0).initial) }
    ensures length { IfOk result (λ point. length point ≡ (D.system 0).unknowns) }
{
    let mut point = Point::new(alloc, stepper.unknowns())?;
    stepper.initial(&mut point);
    Ok(point)
}

/// The frame before the start.
fn first_frame<D: Design, K: Kernel<D>>(
    alloc: Global,
    kernel: &K,
    frame_len: usize,
) -> Result<Frame, AllocError>
    requires stage { (K.state kernel.now).stage ≡ Unstarted }
    requires room { frame_len ≡ (D.system 0).frame_len }
    ensures value { IfOk result (λ frame. frame ≡ (D.system 0).frame (D.system 0).unstarted) }
    ensures fits { IfOk result (λ frame. IsTrue ((D.system 0).is_frame frame)) }
    ensures length { IfOk result (λ frame. length frame ≡ (D.system 0).frame_len) }
{
    let mut frame = Frame::new(alloc, frame_len)?;
    kernel.frame(&mut frame);
    Ok(frame)
}

/// All but the two sides, for these.
fn supply<D: Design, S: Stepper<D>, K: Kernel<D>>(
    alloc: Global,
    options: &Options,
    stepper: &S,
    kernel: &K,
) -> Result<Supplies, AllocError>
    requires part { S.part stepper.now ≡ 0 }
    requires stage { (K.state kernel.now).stage ≡ Unstarted }
    requires allowed { IsAllowed options.now }
    ensures { IfOk result (IsSupplied (D.system 0) options.now) }
{
    let frame_len = stepper.frame_len();
    let choices = stepper.choices();
    let room = first_room(alloc, stepper.unknowns(), frame_len, choices)?;
    let frame = first_frame(alloc, kernel, frame_len)?;
    let point = first_point(alloc, stepper)?;
    let place = first_place(alloc, options, point, frame_len, choices)?;
    Ok(Supplies { place, frame, room })
}

impl<D: Design, S: Stepper<D>, K: Kernel<D>> Machine<D, S, K> {
    /// Before the start, of two sides and all else.
    fn supplied(
        stepper: S,
        kernel: K,
        options: Options,
        alloc: Global,
        supplies: Supplies,
    ) -> Machine<D, S, K>
        requires part { S.part stepper ≡ 0 }
        requires stage { (K.state kernel).stage ≡ Unstarted }
        requires options { options ≡ (D.system 0).options }
        requires allowed { IsAllowed options }
        requires deltas { (D.system 0).deltas ≡ delta_budget }
        requires choices { (D.system 0).choices < 2 ^ 32 }
        requires cycles { (D.system 0).cycles ≡ run_budget }
        requires tries { (D.system 0).tries ≡ run_budget }
        requires supplies { IsSupplied (D.system 0) options supplies }
        ensures { Begun (D.system 0) S.part S.count K.state (S.count stepper) result }
    {
        let Supplies { place, frame, room } = supplies;
        let Room {
            asked,
            made,
            x,
            branches,
            new_frame,
        } = room;
        Machine {
            stepper,
            kernel,
            options,
            alloc,
            place,
            awaited: Awaited::Ready,
            asked,
            frame,
            own: 0,
            cycles: 0,
            made,
            x,
            branches,
            new_frame,
            design: PhantomData,
        }
    }
}

impl<D: Design, S: Stepper<D> + Drop, K: Kernel<D> + Drop> Machine<D, S, K> {
    /// Before the start.
    pub(crate) fn first(
        stepper: S,
        kernel: K,
        options: Options,
        alloc: Global,
    ) -> Result<Machine<D, S, K>, AllocError>
        requires part { S.part stepper ≡ 0 }
        requires stage { (K.state kernel).stage ≡ Unstarted }
        requires options { options ≡ (D.system 0).options }
        requires allowed { IsAllowed options }
        requires deltas { (D.system 0).deltas ≡ delta_budget }
        requires choices { (D.system 0).choices < 2 ^ 32 }
        requires cycles { (D.system 0).cycles ≡ run_budget }
        requires tries { (D.system 0).tries ≡ run_budget }
        ensures { IfOk result (Begun (D.system 0) S.part S.count K.state (S.count stepper)) }
    {
        let supplies = supply(alloc, &options, &stepper, &kernel)?;
        Ok(Machine::supplied(stepper, kernel, options, alloc, supplies))
    }
}
