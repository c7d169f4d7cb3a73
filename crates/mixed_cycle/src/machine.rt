use fix_core::Tick;
use run_place::RunPlace;
use std::alloc::Global;
use std::marker::PhantomData;
use step_data::{Attempt, Choices, Frame, Options, Point, Tip};
use step_model::{Design, Kernel, Stepper};

/// Which reply is awaited.
#[derive(Clone, Copy, Debug, PartialEq, Eq)]
pub enum Awaited {
    /// None, before a work.
    Ready,
    /// That of a look.
    Looking,
    /// That of a consume; whether the attempt was its own.
    Settling { own: bool },
    /// None any more, since a call found no memory.
    Broken,
}

/// The two sides, where the run stands between them, and what its moves need again and again.
#[derive(Drop)]
pub struct Machine<D: Design, S: Stepper<D>, K: Kernel<D>> {
    pub stepper: S,
    pub kernel: K,
    pub options: Options,
    pub alloc: Global,
    pub place: RunPlace,
    pub awaited: Awaited,
    /// The tip that the ask of a consume names.
    pub asked: Tip,
    pub frame: Frame,
    pub own: u64,
    pub cycles: u32,
    /// Room for an own attempt, for a step's values, for the branches of a point and for a frame.
    pub made: Attempt,
    pub x: Point,
    pub branches: Choices,
    pub new_frame: Frame,
    pub design: PhantomData<D>,
}
