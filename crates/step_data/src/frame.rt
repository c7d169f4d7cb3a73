ghost use Rattle.std.specs.Prelude.{◌≡◌, ◌<◌, ◌↔◌, length, replicate, slice_index_or, slice_get, slice_set, IfOk, IsTrue, Some, false};
ghost use Rattle.ams_value.specs.declared.val.Val.{Val};
ghost use Rattle.step_data.specs.Same.{same_frame};

use ams_value::Val;
use std::alloc::{AllocError, Global};
use std::marker::Model;

/// The values that equations and their conditions read of the digital side: first the signals in their order, then the
/// thresholds in theirs. Its length never changes.
#[derive(Drop)]
pub struct Frame {
    values: Vec<Val>,
}

impl Model for Frame {
    ghost use Rattle.std.specs.Prelude.{List};
    ghost use Rattle.ams_value.specs.declared.val.Val.{Val};

    ghost Value = { List Val };

    ghost view = { λ a. a.values.items };
}

impl Frame {
    /// So many values FALSE.
    pub fn new(alloc: Global, n: usize) -> Result<Frame, AllocError>
        ensures { IfOk result (λ frame. frame ≡ replicate n (Val.Bool false)) }
    {
        let no = Val::Bool(false);
        let values = vec![in alloc; no; n]?;
        Ok(Frame { values })
    }

    pub fn len(&self) -> usize
        ensures { result ≡ length self.now }
    {
        self.values.len()
    }

    /// The value of a place.
    pub fn get(&self, i: usize) -> Val
        requires { i < length self.now }
        ensures { slice_get self.now i ≡ Some result }
    {
        self.values[i]
    }

    /// Writes the value of a place.
    pub fn set(&mut self, i: usize, v: Val)
        requires { i < length self.old }
        ensures { self.new ≡ slice_set self.old i v }
    {
        self.values[i] = v;
    }

    /// Takes over the other frame's values, without memory.
    pub fn copy_from(&mut self, other: &Frame)
        requires { length self.old ≡ length other.now }
        ensures { self.new ≡ other.now }
    {
        self.values
            .as_mut_slice()
            .copy_from_slice(other.values.as_slice());
    }

    /// The values.
    pub fn as_slice(&self) -> &[Val]
        ensures { result.now ≡ self.now }
    {
        self.values.as_slice()
    }

    /// The two frames have the same values in the same order.
    pub fn is_same(&self, other: &Frame) -> bool
        ensures test { result ≡ same_frame self.now other.now }
        ensures same { IsTrue result ↔ (self.now ≡ other.now) }
    {
        self.values.as_slice() == other.values.as_slice()
    }
}

/// The number of the chosen branch of each simultaneous if and case statement, in order. Its length never changes.
#[derive(Drop)]
pub struct Choices {
    branches: Vec<u32>,
}

impl Model for Choices {
    ghost use Rattle.std.specs.Prelude.{List, ℕ};

    ghost Value = { List ℕ };

    ghost view = { λ a. a.branches.items };
}

impl Choices {
    /// So many first branches.
    pub fn new(alloc: Global, n: usize) -> Result<Choices, AllocError>
        ensures { IfOk result (λ choices. choices ≡ replicate n 0) }
    {
        let first: u32 = 0;
        let branches = vec![in alloc; first; n]?;
        Ok(Choices { branches })
    }

    pub fn len(&self) -> usize
        ensures { result ≡ length self.now }
    {
        self.branches.len()
    }

    /// The branch of a choice.
    pub fn get(&self, k: usize) -> u32
        requires { k < length self.now }
        ensures { result ≡ slice_index_or self.now k 0 }
    {
        self.branches[k]
    }

    /// Writes the branch of a choice.
    pub fn set(&mut self, k: usize, branch: u32)
        requires { k < length self.old }
        ensures { self.new ≡ slice_set self.old k branch }
    {
        self.branches[k] = branch;
    }

    /// Takes over the other's branches, without memory.
    pub fn copy_from(&mut self, other: &Choices)
        requires { length self.old ≡ length other.now }
        ensures { self.new ≡ other.now }
    {
        self.branches
            .as_mut_slice()
            .copy_from_slice(other.branches.as_slice());
    }

    /// The branches.
    pub fn as_slice(&self) -> &[u32]
        ensures { result.now ≡ self.now }
    {
        self.branches.as_slice()
    }
}
