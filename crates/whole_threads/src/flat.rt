//! The kernels of a flat design.
ghost use Rattle.std.specs.Prelude.{◌≡◌};
ghost use Rattle.design_rules.specs.Design.{IsDesign};
ghost use Rattle.system_model.specs.System.{system_of};

use digital_kernel::{DigitalKernel, systems_are_run};
use fixed_solver::{FixedSolver, systems_are_solved};
use flat_design::Flat;
use std::alloc::{AllocError, Global};
use std::marker::{Model, PhantomData};
use step_data::Options;
use step_model::Design;
use threaded_kernels::Kernels;

/// A well-formed flat design with its options, which is the named design. Contracts see its options.
#[derive(Drop)]
pub struct FlatKernels<'a, D: Design> {
    flat: &'a Flat,
    options: &'a Options,
    design: PhantomData<D>,
}

impl<'a, D: Design> Model for FlatKernels<'a, D> {
    ghost use Rattle.step_data.specs.declared.outcome.Options.{Options};
    ghost use Rattle.whole_threads.specs.Named.{IsNamed};

    ghost Value = { Options };

    ghost view = { λ kernels. kernels.options.now };

    ghost invariant = { λ kernels. IsNamed (D.system 0) kernels.flat.now kernels.options.now };
}

impl<'a, D: Design> FlatKernels<'a, D> {
    /// The kernels of the named design.
    pub fn new(flat: &'a Flat, options: &'a Options) -> FlatKernels<'a, D>
        requires design { IsDesign flat.now }
        requires system { D.system 0 ≡ system_of flat.now options.now }
        ensures { result ≡ options.now }
    {
        FlatKernels {
            flat,
            options,
            design: PhantomData,
        }
    }
}

impl<'a, D: Design + Send> Kernels<D> for FlatKernels<'a, D> {
    type Solver = FixedSolver<'a, D>;

    type Digital = DigitalKernel<'a, D>;

    fn solver(&self, alloc: Global) -> Result<FixedSolver<'a, D>, AllocError> {
        systems_are_solved();
        FixedSolver::new(alloc, self.flat, self.options)
    }

    fn digital(&self, alloc: Global) -> Result<DigitalKernel<'a, D>, AllocError> {
        systems_are_run();
        DigitalKernel::new(alloc, self.flat)
    }
}
