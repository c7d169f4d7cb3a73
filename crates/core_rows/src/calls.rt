//! Calls of a timeline over a design whose steps are listed, in any order.

ghost use Rattle.std.specs.Prelude.{◌≡◌, ◌==◌, List, [], length, false, IsTrue, IfOk};
ghost use Rattle.ams_value.specs.declared.val.Val.{Val};
ghost use Rattle.step_data.specs.Options.{IsAllowed};
ghost use Rattle.step_model.specs.Answers.{IsStep};
ghost use Rattle.timeline.specs.Jobs.{FitsLengths};
ghost use Rattle.listed_models.specs.Listing.{SolvesAs};

use core_hands::Hand;
use fix_core::Tick;
use listed_models::{Listed, StepRow};
use std::alloc::{AllocError, Global};
use std::marker::Brand;
use step_data::{Attempt, Frame, Options, Tip};
use step_model::{Design, Stepper};
use timeline::{Note, Timeline};

/// A call of the engine at the first tip, or a step of the worker, which takes a job or publishes the one in its hand.
#[derive(Clone, Copy, Debug, PartialEq, Eq)]
pub enum Asked {
    Work,
    Begin,
    /// For an attempt that ends by this time.
    Look { until: Tick },
    Consume,
    Close,
}

/// The tip at time 0 and the frame at which the engine asks, and room for what it finds.
#[derive(Drop)]
struct Start {
    tip: Tip,
    frame: Frame,
    found: Attempt,
}

impl Start {
    fn new(alloc: Global, unknowns: usize, frame_len: usize, h: u64) -> Result<Start, AllocError>
        ensures { IfOk result (λ start. FitsLengths unknowns frame_len start.tip start.frame × (start.tip.h ≡ h) × (length start.found.x ≡ unknowns)) }
    {
        let mut tip = Tip::blank(alloc, unknowns)?;
        tip.h = h;
        let frame = Frame::new(alloc, frame_len)?;
        let found = Attempt::blank(alloc, unknowns)?;
        Ok(Start { tip, frame, found })
    }
}

fn ask<D: Design>(
    asked: Asked,
    start: &mut Start,
    hand: &mut Hand<D, Listed<D>>,
    line: &mut Timeline<D>,
)
    requires part { line.old.part ≡ 0 }
    requires lengths { FitsLengths (D.system 0).unknowns (D.system 0).frame_len start.old.tip start.old.frame }
    requires frame { IsTrue ((D.system 0).is_frame start.old.frame) }
    requires step { IsStep start.old.tip.h }
    requires room { length start.old.found.x ≡ (D.system 0).unknowns }
    ensures part { line.new.part ≡ 0 }
    ensures tip { start.new.tip ≡ start.old.tip }
    ensures frame { start.new.frame ≡ start.old.frame }
    ensures room { length start.new.found.x ≡ (D.system 0).unknowns }
{
    match asked {
        Asked::Work => hand.work(line),
        Asked::Begin => line.begin(&start.tip, &start.frame),
        Asked::Look { until } => {
            line.look(&start.tip, &start.frame, until, &mut start.found);
        }
        Asked::Consume => {
            line.consume(&start.tip, &start.frame);
        }
        Asked::Close => line.close(),
    }
}

/// All notes of a journal.
fn notes_of<D: Design>(alloc: Global, line: &Timeline<D>) -> Result<Vec<Note>, AllocError> {
    let mut notes = Vec::new(alloc);
    for note in line.journal().entries() {
        notes.push(*note)?;
    }
    Ok(notes)
}

/// A timeline on which nothing was begun, with places for notes.
fn timeline_of<D: Design>(
    alloc: Global,
    worker: &Listed<D>,
    options: &Options,
) -> Result<Timeline<D>, AllocError>
    requires options { options.now ≡ (D.system 0).options }
    requires allowed { IsAllowed options.now }
    ensures { IfOk result (λ timeline. timeline.part ≡ 0) }
{
    let mut line = Timeline::new(
        alloc,
        0,
        options.ahead,
        options.stop,
        worker.unknowns(),
        worker.frame_len(),
    )?;
    line.reserve_journal(1000)?;
    Ok(line)
}

fn ask_each<D: Design>(
    asked: &[Asked],
    start: &mut Start,
    hand: &mut Hand<D, Listed<D>>,
    line: &mut Timeline<D>,
)
    requires part { line.old.part ≡ 0 }
    requires lengths { FitsLengths (D.system 0).unknowns (D.system 0).frame_len start.old.tip start.old.frame }
    requires frame { IsTrue ((D.system 0).is_frame start.old.frame) }
    requires step { IsStep start.old.tip.h }
    requires room { length start.old.found.x ≡ (D.system 0).unknowns }
{
    for one in asked {
        ask(*one, start, hand, line);
    }
}

fn ask_design<D: Design>(
    alloc: Global,
    steps: &[StepRow],
    options: Options,
    asked: &[Asked],
) -> Result<Vec<Note>, AllocError>
    requires solves { SolvesAs (D.system 0) steps.now [] false options }
    requires allowed { IsAllowed options }
    requires frames { (frame : List Val) → (D.system 0).is_frame frame ≡ (length frame == (D.system 0).frame_len) }
{
    let worker: Listed<D> = Listed::new(alloc, steps, &[], false, &options)?;
    let mut line = timeline_of(alloc, &worker, &options)?;
    let mut start = Start::new(alloc, worker.unknowns(), worker.frame_len(), options.h0)?;
    let mut hand = Hand::new(worker, alloc)?;
    ask_each(asked, &mut start, &mut hand, &mut line);
    notes_of(alloc, &line)
}

/// The notes of these calls on a new timeline of a design that is listed.
pub fn ask_all(
    alloc: Global,
    steps: &[StepRow],
    options: Options,
    asked: &[Asked],
) -> Result<Vec<Note>, AllocError>
    requires { IsAllowed options }
{
    ask_design::<Brand>(alloc, steps, options, asked)
}
