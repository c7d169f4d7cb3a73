//! The worker: a job or none in its hand, and the solver that makes the attempt.

ghost use Rattle.std.specs.Prelude.{◌≡◌, ◌≤◌, length, true, None, IfOk, IsTrue};
ghost use Rattle.step_model.specs.Answers.{CanStep, IsStep};
ghost use Rattle.step_model.specs.System.{attempt as attempt_of};
ghost use Rattle.timeline.specs.declared.line.Taken.TheVariants as takes;
ghost use Rattle.timeline.specs.Jobs.{FitsLengths};
ghost use Rattle.timeline.specs.Line.{take_reply, after_take, due_of, filled, after_publish};
ghost use Rattle.core_hands.specs.Kept.{JobFits, is_taken};
ghost use Rattle.core_hands.specs.Moves.{hand_worked, line_worked};

use std::alloc::{AllocError, Global};
use std::marker::{Model, PhantomData};
use step_data::{Attempt, Frame, Tip};
use step_model::{Design, Stepper};
use timeline::{Job, Taken, Timeline};

/// A worker. Callers see the job in its hand, or none.
#[derive(Drop)]
pub struct Hand<D: Design, S: Stepper<D>> {
    stepper: S,
    job: Job,
    is_full: bool,
    /// Room for the attempt.
    made: Attempt,
    design: PhantomData<D>,
}

impl<D: Design, S: Stepper<D>> Model for Hand<D, S> {
    ghost use Rattle.std.specs.Prelude.{Option};
    ghost use Rattle.timeline.specs.Jobs.{Due};

    ghost Value = { Option Due };

    ghost use Rattle.core_hands.specs.Kept.{job_if, HandKept};

    ghost view = { λ a. job_if a.is_full a.job };

    ghost invariant = { λ a. HandKept (D.system 0) (S.part a.stepper) a.job a.is_full a.made };
}

/// The attempt of a job, by part 0.
fn attempt<D: Design, S: Stepper<D>>(stepper: &mut S, frame: &Frame, tip: &Tip, out: &mut Attempt)
    requires part { S.part stepper.old ≡ 0 }
    requires tip { CanStep (D.system 0) frame.now tip.now }
    requires step { IsStep tip.now.h }
    requires room { length out.old.x ≡ (D.system 0).unknowns }
    ensures value { out.new ≡ attempt_of (D.system 0) frame.now tip.now }
    ensures length { length out.new.x ≡ (D.system 0).unknowns }
    ensures part { S.part stepper.new ≡ 0 }
{
    stepper.attempt(frame, tip, out);
}

/// The next job of a timeline of part 0.
fn take<D: Design>(line: &mut Timeline<D>, job: &mut Job) -> Taken
    requires part { line.old.part ≡ 0 }
    requires lengths { FitsLengths (D.system 0).unknowns (D.system 0).frame_len job.old.tip job.old.frame }
    ensures reply { result ≡ take_reply line.old.line }
    ensures line { line.new ≡ record line.old { line = after_take line.old.line } }
    ensures job { job.new ≡ filled (take_reply line.old.line) job.old (due_of line.old.line) }
    ensures lengths { FitsLengths (D.system 0).unknowns (D.system 0).frame_len job.new.tip job.new.frame }
    ensures fits { result ≡ takes.Taken → JobFits (D.system 0) job.new }
{
    line.take(job)
}

/// Gives the attempt of a job to a timeline of part 0.
fn publish<D: Design>(line: &mut Timeline<D>, job: &Job, made: &Attempt)
    requires part { line.old.part ≡ 0 }
    requires room { length made.now.x ≡ (D.system 0).unknowns }
    requires made { made.now ≡ attempt_of (D.system 0) job.now.frame job.now.tip }
    ensures { line.new ≡ record line.old { line = after_publish line.old.line job.now made.now } }
{
    line.publish(job, made);
}

/// A job was taken.
fn is_taken(reply: Taken) -> bool
    ensures { result ≡ is_taken reply }
{
    matches!(reply, Taken::Taken)
}

impl<D: Design, S: Stepper<D> + Drop> Hand<D, S> {
    /// Nothing in the hand. The solver has all equations.
    pub fn new(stepper: S, alloc: Global) -> Result<Hand<D, S>, AllocError>
        requires { S.part stepper ≡ 0 }
        ensures { IfOk result (λ hand. hand ≡ None) }
    {
        let unknowns = stepper.unknowns();
        let job = Job::blank(alloc, unknowns, stepper.frame_len())?;
        let made = Attempt::blank(alloc, unknowns)?;
        Ok(Hand {
            stepper,
            job,
            is_full: false,
            made,
            design: PhantomData,
        })
    }
}

impl<D: Design, S: Stepper<D>> Hand<D, S> {
    /// One step: takes a job, or makes the attempt of the one in the hand and gives it to the timeline.
    pub fn work(&mut self, line: &mut Timeline<D>)
        requires part { line.old.part ≡ 0 }
        ensures hand { self.new ≡ hand_worked self.old line.old.line }
        ensures line { line.new ≡ record line.old { line = line_worked (D.system 0) self.old line.old.line } }
    {
        if self.is_full {
            self.is_full = false;
            attempt::<D, S>(
                &mut self.stepper,
                self.job.frame(),
                self.job.tip(),
                &mut self.made,
            );
            publish(line, &self.job, &self.made);
        } else {
            let reply = take(line, &mut self.job);
            self.is_full = is_taken(reply);
        }
    }
}
